// Work on whole matrices that lie column after column in a slice: the views and swaps of nalgebra's Matrix, for f64.
// A slice that does not hold n columns of m entries, both at most 64, stays as it was.
#![tactic(auto)]

ghost use Rattle.std.specs.Prelude.{◌≡◌, ◌+◌, ◌*◌, ◌≤◌, ◌<◌, min, length};
ghost use Rattle.store.specs.Columns.{columns, is_matrix, on_columns};
ghost use Rattle.store.specs.Steps.{rows_swapped, columns_swapped};

// The smaller of two numbers.
pub fn min(a: usize, b: usize) -> usize
    ensures { result ≡ min a b }
{
    a.min(b)
}

// Whether s holds n columns of m entries each, neither number past 64.
pub fn is_matrix(s: &[f64], m: usize, n: usize) -> bool
    ensures { result ≡ is_matrix s.now m n }
{
    if 64 < m {
        return false;
    }
    if 64 < n {
        return false;
    }
    s.len() == n * m
}

// Exchanges the rows i and p in the columns from `from` up to but not `to`.
pub fn swap_rows(s: &mut [f64], m: usize, n: usize, i: usize, p: usize, from: usize, to: usize)
    ensures { s.new ≡ on_columns m n (rows_swapped i p from to) s.old }
{
    if !is_matrix(s, m, n) {
        return;
    }
    if i == p {
        return;
    }
    let end = min(to, n);
    for j in from..end {
        let a = j * m;
        let e = a + m;
        blas::swap(&mut s[a..e], i, p);
    }
}

// Exchanges the columns i and j by way of x and y, which are scratch.
fn swap_columns_by(
    s: &mut [f64],
    m: usize,
    n: usize,
    i: usize,
    j: usize,
    x: &mut [f64],
    y: &mut [f64],
)
    requires s_len { (length s.old ≡ n * m) × (length x.old ≡ m) × (length y.old ≡ m) }
    requires i_lt_n { (i < n) × (j < n) × (i * m + m ≤ length s.old) × (j * m + m ≤ length s.old) }
    ensures { columns m n s.new ≡ columns_swapped i j (columns m n s.old) }
{
    // `split_at_mut` and `swap_with_slice` ask for two columns in order and not one: two tests more, so no plainer than four copies.
    let a = i * m;
    let b = a + m;
    let c = j * m;
    let d = c + m;
    blas::copy(x, &s[a..b]);
    blas::copy(y, &s[c..d]);
    blas::copy(&mut s[a..b], y);
    blas::copy(&mut s[c..d], x);
}

// Exchanges the columns i and j.
pub fn swap_columns(s: &mut [f64], m: usize, n: usize, i: usize, j: usize)
    ensures { s.new ≡ on_columns m n (columns_swapped i j) s.old }
{
    if !is_matrix(s, m, n) {
        return;
    }
    if n <= i {
        return;
    }
    if n <= j {
        return;
    }
    let mut x = [0.0f64; 64];
    let mut y = [0.0f64; 64];
    swap_columns_by(s, m, n, i, j, &mut x[0..m], &mut y[0..m]);
}
