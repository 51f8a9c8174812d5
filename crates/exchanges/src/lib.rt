// The exchanges that a swap list stands for, pair after pair, in the rows or the columns of a matrix that lies column after column in a slice: the passes
// of linalg/permutation_sequence.rs of nalgebra 0.35.0, without the tests of a call.
#![tactic(auto)]

ghost use Rattle.std.specs.Prelude.{◌≡◌, true, [], ◌∷◌, ◌*◌, ◌≤◌, ◌<◌, length};
ghost use Rattle.store.specs.Columns.{is_matrix, on_columns};
ghost use Rattle.swap_list.specs.SwapList.{pairs_of, held};
ghost use Rattle.exchanges.specs.Permute.{permute, rows_permuted, exchange_of, in_order, exchanges_on, pair_of_turn};

// The number of the pair that comes at turn k.
fn pair_of_turn(k: usize, pairs: usize, reverse: bool) -> usize
    requires { k < pairs }
    ensures { (result ≡ pair_of_turn reverse pairs k) × (result < pairs) }
{
    if reverse { pairs - 1 - k } else { k }
}

// Exchanges the columns i and j, or the rows.
fn exchange(s: &mut [f64], m: usize, n: usize, i: usize, j: usize, columns: bool)
    ensures { s.new ≡ on_columns m n (exchange_of columns i j) s.old }
{
    if columns {
        store::swap_columns(s, m, n, i, j);
        return;
    }
    store::swap_rows(s, m, n, i, j, 0, n);
}

// Exchanges each pair of the list in turn, first pair first, or in reverse last pair first. Where the store does not hold the list, nothing is done.
pub fn apply(
    s: &mut [f64],
    m: usize,
    n: usize,
    swaps: &[usize],
    pairs: usize,
    columns: bool,
    reverse: bool,
)
    ensures { s.new ≡ exchanges_on (exchange_of columns) reverse s.old m n swaps.now pairs }
{
    if swaps.len() / 2 < pairs {
        return;
    }
    for k in 0..pairs {
        let p = pair_of_turn(k, pairs, reverse);
        let i = swaps[2 * p];
        let j = swaps[2 * p + 1];
        exchange(s, m, n, i, j, columns);
    }
}

// Exchanges the entries of one column by each pair of the list in turn.
fn apply_to_column(col: &mut [f64], swaps: &[usize], pairs: usize)
    requires { 2 * pairs ≤ length swaps.now }
    ensures { col.new ≡ permute (pairs_of pairs swaps.now) col.old }
{
    for k in 0..pairs {
        let i = swaps[2 * k];
        let j = swaps[2 * k + 1];
        blas::swap(col, i, j);
    }
}

// Exchanges the entries of one column by four pairs in turn.
fn swap_four(
    col: &mut [f64],
    i0: usize,
    j0: usize,
    i1: usize,
    j1: usize,
    i2: usize,
    j2: usize,
    i3: usize,
    j3: usize,
)
    ensures { col.new ≡ permute ((i0, j0) ∷ (i1, j1) ∷ (i2, j2) ∷ (i3, j3) ∷ []) col.old }
{
    blas::swap(col, i0, j0);
    blas::swap(col, i1, j1);
    blas::swap(col, i2, j2);
    blas::swap(col, i3, j3);
}

// Exchanges the rows of four pairs, all four in a column before the next: so their numbers are read once, and a column's entries are near each other.
#[tactic(auto, using(store::proofs::Columns::sized, store::proofs::Columns::column_within))]
fn exchange_four(s: &mut [f64], m: usize, n: usize, four: &[usize])
    requires { (is_matrix s.old m n ≡ true) × (length four.now ≡ 8) }
    ensures { s.new ≡ on_columns m n (rows_permuted (pairs_of 4 four.now)) s.old }
{
    let i0 = four[0];
    let j0 = four[1];
    let i1 = four[2];
    let j1 = four[3];
    let i2 = four[4];
    let j2 = four[5];
    let i3 = four[6];
    let j3 = four[7];
    for j in 0..n {
        let a = j * m;
        let e = a + m;
        swap_four(&mut s[a..e], i0, j0, i1, j1, i2, j2, i3, j3);
    }
}

// Exchanges the rows of the first pairs, `fours` times four of them.
fn exchange_in_fours(s: &mut [f64], m: usize, n: usize, swaps: &[usize], fours: usize)
    requires { (is_matrix s.old m n ≡ true) × (8 * fours ≤ length swaps.now) }
    ensures { s.new ≡ on_columns m n (rows_permuted (pairs_of (4 * fours) swaps.now)) s.old }
{
    for k in 0..fours {
        let a = 8 * k;
        let e = a + 8;
        exchange_four(s, m, n, &swaps[a..e]);
    }
}

// The list applied to the rows of s with no refusal but the store's: for calls that have tested their list. First pair first it goes
// through a single column by ones, and through several by fours, then by ones.
pub fn apply_to_rows(
    s: &mut [f64],
    m: usize,
    n: usize,
    swaps: &[usize],
    pairs: usize,
    reverse: bool,
)
    ensures { s.new ≡ on_columns m n (rows_permuted (in_order reverse (held pairs swaps.now))) s.old }
{
    if reverse {
        apply(s, m, n, swaps, pairs, false, true);
        return;
    }
    if swaps.len() / 2 < pairs {
        return;
    }
    if !store::is_matrix(s, m, n) {
        return;
    }
    if n == 1 {
        apply_to_column(s, swaps, pairs);
        return;
    }
    let fours = pairs / 4;
    let done = 8 * fours;
    exchange_in_fours(s, m, n, swaps, fours);
    apply(s, m, n, &swaps[done..], pairs - 4 * fours, false, false);
}
