// The passes of the triangular solves, row by row and column by column, without the tests of a call: linalg/solve.rs of nalgebra 0.35.0, for f64. The matrix
// and the right-hand sides lie column after column.
#![tactic(auto)]

ghost use Rattle.std.specs.Prelude.{◌≡◌, true, ◌<◌, length};
ghost use Rattle.store.specs.Columns.{columns, is_matrix};
ghost use Rattle.triangular_passes.specs.Triangular.{given, divisor, lower_row, upper_row, kept_row, less_below, transposed_lower_row, transposed_upper_row};
ghost use Rattle.triangular_passes.specs.Triangular.{transposed_unit_lower_row, solved_row, row_at, turns_of, turn, turned_by, solved_column, solved_in_place};

// Which solve it is: the triangle read, the diagonal divided by, and whether the matrix is transposed. A given diagonal is the Rust's: it
// leaves the entries undivided. Corrected, it divides them. In the transposed unit lower triangle the diagonal counts as one.
#[derive(Clone, Copy)]
pub enum Pass {
    Lower,
    Upper,
    GivenDiagonal(f64),
    TransposedLower,
    TransposedUpper,
    CorrectedDiagonal(f64),
    TransposedUnitLower,
}

impl Pass {
    // The given diagonal, where there is one.
    pub fn given(self) -> Option<f64>
        ensures { result ≡ given self Some None }
    {
        match self {
            Pass::GivenDiagonal(d) | Pass::CorrectedDiagonal(d) => Some(d),
            _ => None,
        }
    }

    // The row of turn k: downward from the first, or upward from the last. Turns that are not there have row 0 upward, and their own number downward.
    pub fn row_at(self, n: usize, k: usize) -> usize
        ensures { result ≡ row_at self n k }
    {
        match self {
            Pass::Upper | Pass::TransposedLower | Pass::TransposedUnitLower => {
                n.saturating_sub(1).saturating_sub(k)
            }
            _ => k,
        }
    }

    // How many rows are worked on: all, but where each entry is kept the last has nothing below it.
    pub fn turns(self, n: usize) -> usize
        ensures { result ≡ turns_of self n }
    {
        let last = n - store::min(n, 1);
        match self {
            Pass::GivenDiagonal(_) => last,
            _ => n,
        }
    }

    // The number that row i is divided by, col being column i of the matrix: the given diagonal, or else the matrix's own.
    fn divisor(self, col: &[f64], i: usize) -> f64
        requires { i < length col.now }
        ensures { result ≡ divisor self col.now i }
    {
        let own = col[i];
        self.given().unwrap_or(own)
    }
}

// Row i is divided by d, and the rows below it are updated.
#[tactic(auto, unfolding(crate::specs::Triangular::lower_row))]
fn lower_row(d: f64, col: &[f64], b: &mut [f64], i: usize)
    requires { i < length b.old }
    ensures { b.new ≡ lower_row d col.now i b.old }
{
    let u = b[i];
    let x = u / d;
    b[i] = x;
    blas::axpy(b, -x, col, i + 1);
}

// Row i is divided by d, and the rows above it are updated.
#[tactic(auto, unfolding(crate::specs::Triangular::upper_row))]
fn upper_row(d: f64, col: &[f64], b: &mut [f64], i: usize)
    requires { (i < length col.now) × (i < length b.old) }
    ensures { b.new ≡ upper_row d col.now i b.old }
{
    let u = b[i];
    let x = u / d;
    b[i] = x;
    blas::axpy(&mut b[..i], -x, &col[..i], 0);
}

// The rows below row i are updated by row i divided by d; row i itself stays. (One with `lower_row` would take a flag for one line, and be no plainer.)
#[tactic(auto, unfolding(crate::specs::Triangular::kept_row))]
fn kept_row(d: f64, col: &[f64], b: &mut [f64], i: usize)
    requires { i < length b.old }
    ensures { b.new ≡ kept_row d col.now i b.old }
{
    let q = b[i] / d;
    blas::axpy(b, -q, col, i + 1);
}

// Row i less the dot product of the rows below it.
#[tactic(auto, using(crate::proofs::Turns::rest_part))]
fn less_below(col: &[f64], b: &[f64], i: usize) -> f64
    requires { (i < length col.now) × (i < length b.now) }
    ensures { result ≡ less_below col.now i b.now }
{
    let a = i + 1;
    let sum = blas::dot(&col[a..], &b[a..]);
    b[i] - sum
}

// That, divided by d, in row i.
#[tactic(auto, unfolding(crate::specs::Triangular::transposed_lower_row))]
fn transposed_lower_row(d: f64, col: &[f64], b: &mut [f64], i: usize)
    requires { (i < length col.now) × (i < length b.old) }
    ensures { b.new ≡ transposed_lower_row d col.now i b.old }
{
    b[i] = less_below(col, b, i) / d;
}

// The same undivided. (One with the above would take an Option of d and look at it in each row, and be no plainer.)
#[tactic(auto, unfolding(crate::specs::Triangular::transposed_unit_lower_row))]
fn transposed_unit_lower_row(col: &[f64], b: &mut [f64], i: usize)
    requires { (i < length col.now) × (i < length b.old) }
    ensures { b.new ≡ transposed_unit_lower_row col.now i b.old }
{
    b[i] = less_below(col, b, i);
}

// Row i less the dot product of the rows above it, divided by d.
#[tactic(auto, unfolding(crate::specs::Triangular::transposed_upper_row))]
fn transposed_upper_row(d: f64, col: &[f64], b: &mut [f64], i: usize)
    requires { (i < length col.now) × (i < length b.old) }
    ensures { b.new ≡ transposed_upper_row d col.now i b.old }
{
    let sum = blas::dot(&col[..i], &b[..i]);
    b[i] = (b[i] - sum) / d;
}

// One row of a solve, col being column i of the matrix. (An arm for each arithmetic: a trait with a type for each kind would be no plainer.)
#[tactic(auto, unfolding(crate::specs::Triangular::solved_row))]
fn solve_row(pass: Pass, col: &[f64], b: &mut [f64], i: usize)
    requires { (i < length col.now) × (i < length b.old) }
    ensures { b.new ≡ solved_row pass col.now i b.old }
{
    let d = pass.divisor(col, i);
    match pass {
        Pass::Lower | Pass::CorrectedDiagonal(_) => lower_row(d, col, b, i),
        Pass::Upper => upper_row(d, col, b, i),
        Pass::GivenDiagonal(_) => kept_row(d, col, b, i),
        Pass::TransposedLower => transposed_lower_row(d, col, b, i),
        Pass::TransposedUpper => transposed_upper_row(d, col, b, i),
        Pass::TransposedUnitLower => transposed_unit_lower_row(col, b, i),
    }
}

// Turn k on a right-hand column.
#[tactic(auto, using(crate::proofs::Turns::turn_laws))]
fn take_turn(pass: Pass, t: &[f64], n: usize, b: &mut [f64], k: usize)
    requires { (is_matrix t.now n n ≡ true) × (length b.old ≡ n) × (k < turns_of pass n) }
    ensures { b.new ≡ turn pass n (columns n n t.now) k b.old }
{
    let i = pass.row_at(n, k);
    let a = i * n;
    let e = a + n;
    solve_row(pass, &t[a..e], b, i);
}

// The same by itself; nothing where t is no n by n matrix, b has not n entries, or there is no turn k.
#[tactic(auto, unfolding(crate::specs::Triangular::turned_by))]
pub fn solve_turn(pass: Pass, t: &[f64], n: usize, b: &mut [f64], k: usize)
    ensures { b.new ≡ turned_by pass t.now n b.old k }
{
    if !store::is_matrix(t, n, n) {
        return;
    }
    if b.len() != n {
        return;
    }
    if pass.turns(n) <= k {
        return;
    }
    take_turn(pass, t, n, b, k);
}

// Solves one right-hand column in place.
#[tactic(auto, unfolding(crate::specs::Triangular::solved_column), using(crate::proofs::Turns::loop_laws))]
fn solve_column(pass: Pass, t: &[f64], n: usize, b: &mut [f64])
    requires { (is_matrix t.now n n ≡ true) × (length b.old ≡ n) }
    ensures { b.new ≡ solved_column pass n (columns n n t.now) b.old }
{
    let turns = pass.turns(n);
    for k in 0..turns {
        take_turn(pass, t, n, b, k);
    }
}

// A pass without the tests: solves the k right-hand columns in b in place by the n by n matrix t. Where a slice holds no such matrix,
// b stays as it was.
#[tactic(auto, using(crate::proofs::InPlace::column_loop))]
pub fn solve_in_place(pass: Pass, t: &[f64], n: usize, b: &mut [f64], k: usize)
    ensures { b.new ≡ solved_in_place pass t.now n b.old k }
{
    if !store::is_matrix(t, n, n) {
        return;
    }
    if !store::is_matrix(b, n, k) {
        return;
    }
    for j in 0..k {
        let a = j * n;
        let e = a + n;
        solve_column(pass, t, n, &mut b[a..e]);
    }
}
