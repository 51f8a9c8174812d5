// The unit lower and the upper solve of `solve`, row by row, single rows first, then blocks of four and of eight: the same operations on each
// number in the same order, so the same bits, with the numbers of a block held while they take their products.
#![tactic(auto)]

ghost use Rattle.std.specs.Prelude.{◌≡◌, true, false, ◌+◌, ◌-◌, ◌%◌, ◌≤◌, ◌<◌, length};
ghost use Rattle.numbers.specs.Each.{turns_from};
ghost use Rattle.store.specs.Columns.{columns, is_matrix};
ghost use Rattle.triangular_passes.specs.Triangular.{solved_column, solved_in_place};
ghost use Rattle.solve_by_rows.specs.Rows.{pass_of, row_of, row_sums, solved_within, row_done, all_rows, rows_from, both_passes};

// The row of turn k: upward from the last, or downward from the first. (Not `Pass::row_at`: as a value the direction stayed in the inner loop, and was slower.)
#[tactic(auto, unfolding(crate::specs::Rows::row_of))]
fn row_of<const UP: bool>(n: usize, k: usize) -> usize
    requires { k < n }
    ensures { result ≡ row_of UP n k }
{
    if UP { n - 1 - k } else { k }
}

// The rows r on of b, as many as v has, each with the products of that many turns, into v.
fn row_sums<const UP: bool>(t: &[f64], n: usize, b: &[f64], r: usize, turns: usize, v: &mut [f64])
    requires { (is_matrix t.now n n ≡ true) × (length b.now ≡ n) × (r + length v.old ≤ n) × (turns ≤ n) }
    ensures { v.new ≡ row_sums UP n (columns n n t.now) b.now r turns (length v.old) }
{
    let e = r + v.len();
    blas::copy(v, &b[r..e]);
    for k in 0..turns {
        let c = row_of::<UP>(n, k);
        let a = c * n;
        let from = a + r;
        let to = a + e;
        blas::axpy(v, -b[c], &t[from..to], 0);
    }
}

// The rows r on, which v holds with the products of the turns before them, solved by each other downward.
#[tactic(auto, using(store::proofs::Columns::sized, store::proofs::Columns::column_within))]
fn within_down(t: &[f64], n: usize, r: usize, v: &mut [f64])
    requires { (is_matrix t.now n n ≡ true) × (r + length v.old ≤ n) }
    ensures { v.new ≡ solved_within false (columns n n t.now) r v.old }
{
    let e = r + v.len();
    for p in 0..v.len() {
        let a = (r + p) * n;
        let from = a + r;
        let to = a + e;
        let x = v[p];
        blas::axpy(v, -x, &t[from..to], p + 1);
    }
}

// The same upward, each row divided. (Not one with `within_down`: start, step, part and division differ, so one for both is two bodies, and no plainer.)
#[tactic(auto, using(store::proofs::Columns::sized, store::proofs::Columns::column_within))]
fn within_up(t: &[f64], n: usize, r: usize, v: &mut [f64])
    requires { (is_matrix t.now n n ≡ true) × (r + length v.old ≤ n) }
    ensures { v.new ≡ solved_within true (columns n n t.now) r v.old }
{
    let w = v.len();
    for p in (0..w).rev() {
        let a = (r + p) * n + r;
        let to = a + p;
        let x = v[p] / t[to];
        v[p] = x;
        blas::axpy(&mut v[..p], -x, &t[a..to], 0);
    }
}

// The turns k on, as many as v has room for. What v holds does not count.
fn block<const UP: bool>(t: &[f64], n: usize, b: &mut [f64], k: usize, v: &mut [f64])
    requires { (is_matrix t.now n n ≡ true) × (length b.old ≡ n) × (k + length v.old ≤ n) }
    ensures { b.new ≡ turns_from (row_done UP n (columns n n t.now)) k (length v.old) b.old }
{
    let w = v.len();
    let r = if UP { n - k - w } else { k };
    row_sums::<UP>(t, n, b, r, k, v);
    if UP {
        within_up(t, n, r, v);
    } else {
        within_down(t, n, r, v);
    }
    let e = r + w;
    blas::copy(&mut b[r..e], v);
}

// The N turns from k on, in one block. (The direction is a value from here up: as a const parameter 48 rows and more took 1.2 times as long.)
fn rows_at_once<const N: usize>(upward: bool, t: &[f64], n: usize, b: &mut [f64], k: usize)
    requires { (is_matrix t.now n n ≡ true) × (length b.old ≡ n) × (k + N ≤ n) }
    ensures { b.new ≡ turns_from (row_done upward n (columns n n t.now)) k N b.old }
{
    let mut v = [0.0f64; N];
    if upward {
        block::<true>(t, n, b, k, &mut v);
    } else {
        block::<false>(t, n, b, k, &mut v);
    }
}

// The turns from `from` up to `to`, N at a time: those from `to` on give the rest.
fn rows_by<const N: usize>(upward: bool, t: &[f64], n: usize, b: &mut [f64], from: usize, to: usize)
    requires { (is_matrix t.now n n ≡ true) × (length b.old ≡ n) × (from ≤ to) × (to ≤ n) × ((to - from) % N ≡ 0) × (1 ≤ N) }
    ensures { rows_from upward n t.now to b.new ≡ rows_from upward n t.now from b.old }
{
    for k in (from..to).step_by(N) {
        rows_at_once::<N>(upward, t, n, b, k);
    }
}

// Solves one right-hand column in place: row by row until what is left is whole fours, since here a row has few products to take, then four rows where it is
// not whole eights, then eight at a time. (The four are no loop: with one, some sizes took 1.1 times as long.)
fn solve_column(upward: bool, t: &[f64], n: usize, b: &mut [f64])
    requires { (is_matrix t.now n n ≡ true) × (length b.old ≡ n) }
    ensures { b.new ≡ solved_column (pass_of upward) n (columns n n t.now) b.old }
{
    let after_singles = n % 4;
    let after_fours = n % 8;
    rows_by::<1>(upward, t, n, b, 0, after_singles);
    if after_singles < after_fours {
        rows_at_once::<4>(upward, t, n, b, after_singles);
    }
    rows_by::<8>(upward, t, n, b, after_fours, n);
}

// Solves the k right-hand columns in b in place by the n by n matrix t: by its upper triangle, or by its lower one with ones on the diagonal. Where a slice
// holds no such matrix, b stays as it was. (The loop of `triangular_passes` once more: one loop above both crates was slower.)
#[tactic(auto, using(triangular_passes::proofs::InPlace::column_loop))]
pub fn solve_in_place(upward: bool, t: &[f64], n: usize, b: &mut [f64], k: usize)
    ensures { b.new ≡ solved_in_place (pass_of upward) t.now n b.old k }
{
    if !store::is_matrix(t, n, n) {
        return;
    }
    if !store::is_matrix(b, n, k) {
        return;
    }
    for j in 0..k {
        let a = j * n;
        let e = a + n;
        solve_column(upward, t, n, &mut b[a..e]);
    }
}

// Both passes over a right-hand column of N rows, each as one block. The size is a constant, so that the compiler knows it where it puts the blocks in place.
fn solve_small<const N: usize>(t: &[f64], b: &mut [f64])
    requires { (is_matrix t.now N N ≡ true) × (length b.old ≡ N) }
    ensures { b.new ≡ both_passes t.now N b.old }
{
    rows_at_once::<N>(false, t, N, b, 0);
    rows_at_once::<N>(true, t, N, b, 0);
}

// Solves the right-hand column b in place by the n by n matrix t, whose lower triangle has ones on the diagonal: by the lower triangle, then by the upper one.
// Where a slice has not its length, b stays as it was.
pub fn solve_one(t: &[f64], n: usize, b: &mut [f64])
    ensures { b.new ≡ both_passes t.now n b.old }
{
    let fits = store::is_matrix(t, n, n) & (b.len() == n);
    if fits & (1 < n) & (n < 5) {
        match n {
            2 => solve_small::<2>(t, b),
            3 => solve_small::<3>(t, b),
            _ => solve_small::<4>(t, b),
        }
        return;
    }
    solve_in_place(false, t, n, b, 1);
    solve_in_place(true, t, n, b, 1);
}
