// What is read off the factors of `lu`: L, U, solutions (also of the transposed system), the inverse, the determinant and the invertible test; linalg/lu.rs
// of nalgebra 0.35.0.
#![tactic(auto)]

ghost use Rattle.std.specs.Prelude.{◌≡◌, true, ◌+◌, ◌*◌, ◌<◌, ◌≤◌, min, length};
ghost use Rattle.store.specs.Columns.{columns, flat, is_matrix};
ghost use Rattle.refusals.specs.Outcome.{outcome};
ghost use Rattle.swap_list.specs.SwapList.{good_list};
ghost use Rattle.from_factors.specs.Triangles.{lower_of, upper_of, lower_factor, upper_factor, lowering, uppering};
ghost use Rattle.from_factors.specs.Solving.{solved, tr_solved, way_of, solved_by, solving_by, solving, tr_solving, unit_column, identity, inverting};
ghost use Rattle.from_factors.specs.Determinant.{diagonal_product, producing, number_or7, determining, inverse_test};

use factors::{Asks, Record, test_held};
use refusals::Refusal;
use triangular_passes::Pass;

// Column j of L from the packed column: +0.0 above the diagonal, and one on it.
fn lower_column(dst: &mut [f64], src: &[f64], j: usize)
    requires { (length src.now ≡ length dst.old) × (j < length dst.old) }
    ensures { dst.new ≡ lower_of j src.now }
{
    blas::copy(dst, src);
    blas::fill_zero(&mut dst[..j]);
    dst[j] = 1.0;
}

// The k columns of L, each of m entries.
fn lower_columns(out: &mut [f64], m: usize, n: usize, k: usize, factors: &[f64])
    requires { (is_matrix factors.now m n ≡ true) × (is_matrix out.old m k ≡ true) × (k ≤ m) × (k ≤ n) }
    ensures { out.new ≡ flat (lower_factor k (columns m n factors.now)) }
{
    for j in 0..k {
        let a = j * m;
        let e = a + m;
        lower_column(&mut out[a..e], &factors[a..e], j);
    }
}

// The lower triangular matrix of the factors, m by min(m, n).
#[tactic(auto, unfolding(crate::specs::Triangles::lowering, refusals::specs::Outcome::tested))]
pub fn l(factors: &[f64], swaps: &[usize], told: Record, out: &mut [f64]) -> Result<(), Refusal>
    ensures result_value { outcome result ≡ (lowering factors.now swaps.now told out.old).answer }
    ensures out_after { out.new ≡ (lowering factors.now swaps.now told out.old).left }
{
    let m = told.rows;
    let n = told.columns;
    let k = store::min(m, n);
    let lengths = store::is_matrix(out, m, k);
    let asks = Asks {
        square: false,
        solves: false,
        sizes: true,
        lengths,
        list: true,
        numbers: true,
    };
    test_held(factors, swaps, told, asks)?;
    lower_columns(out, m, n, k, factors);
    Ok(())
}

// Column j of U, of as many rows as dst has, from the packed column: +0.0 below the diagonal.
fn upper_column(dst: &mut [f64], src: &[f64], j: usize)
    requires { length dst.old ≤ length src.now }
    ensures { dst.new ≡ upper_of (length dst.old) j src.now }
{
    let k = dst.len();
    blas::copy(dst, &src[..k]);
    if j < k {
        let below = j + 1;
        blas::fill_zero(&mut dst[below..]);
    }
}

// The n columns of U, each of k entries.
fn upper_columns(out: &mut [f64], m: usize, n: usize, k: usize, factors: &[f64])
    requires { (is_matrix factors.now m n ≡ true) × (is_matrix out.old k n ≡ true) × (k ≤ m) }
    ensures { out.new ≡ flat (upper_factor k n (columns m n factors.now)) }
{
    for j in 0..n {
        let a = j * k;
        let e = a + k;
        let b = j * m;
        let f = b + m;
        upper_column(&mut out[a..e], &factors[b..f], j);
    }
}

// The upper triangular matrix of the factors, min(m, n) by n.
#[tactic(auto, unfolding(crate::specs::Triangles::uppering, refusals::specs::Outcome::tested))]
pub fn u(factors: &[f64], swaps: &[usize], told: Record, out: &mut [f64]) -> Result<(), Refusal>
    ensures result_value { outcome result ≡ (uppering factors.now swaps.now told out.old).answer }
    ensures out_after { out.new ≡ (uppering factors.now swaps.now told out.old).left }
{
    let m = told.rows;
    let n = told.columns;
    let k = store::min(m, n);
    let lengths = store::is_matrix(out, k, n);
    let asks = Asks {
        square: false,
        solves: false,
        sizes: true,
        lengths,
        list: true,
        numbers: true,
    };
    test_held(factors, swaps, told, asks)?;
    upper_columns(out, m, n, k, factors);
    Ok(())
}

// Solves the k right-hand columns in x in place: rows swapped by the list, unit lower, upper; a single one of few rows by a call of its own.
fn solve_mut(factors: &[f64], swaps: &[usize], told: Record, x: &mut [f64], k: usize)
    requires rows_value { (is_matrix factors.now told.rows told.rows ≡ true) × (is_matrix x.old told.rows k ≡ true) }
    requires rows_value_2 { good_list swaps.now told.pairs told.rows told.rows ≡ true }
    ensures { x.new ≡ solved_by solved factors.now swaps.now told (columns told.rows k x.old) }
{
    let n = told.rows;
    exchanges::apply_to_rows(x, n, k, swaps, told.pairs, false);
    if (k == 1) & (n < 5) {
        solve_by_rows::solve_one(factors, n, x);
        return;
    }
    solve_by_rows::solve_in_place(false, factors, n, x, k);
    solve_by_rows::solve_in_place(true, factors, n, x, k);
}

// The same by the transposed system: transposed upper, transposed unit lower, rows swapped by the list in reverse.
fn tr_solve_mut(factors: &[f64], swaps: &[usize], told: Record, x: &mut [f64], k: usize)
    requires rows_value { (is_matrix factors.now told.rows told.rows ≡ true) × (is_matrix x.old told.rows k ≡ true) }
    requires rows_value_2 { good_list swaps.now told.pairs told.rows told.rows ≡ true }
    ensures { x.new ≡ solved_by tr_solved factors.now swaps.now told (columns told.rows k x.old) }
{
    let n = told.rows;
    triangular_passes::solve_in_place(Pass::TransposedUpper, factors, n, x, k);
    triangular_passes::solve_in_place(Pass::TransposedUnitLower, factors, n, x, k);
    exchanges::apply_to_rows(x, n, k, swaps, told.pairs, true);
}

// The one that is asked for.
fn solve_mut_by(
    transposed: bool,
    factors: &[f64],
    swaps: &[usize],
    told: Record,
    x: &mut [f64],
    k: usize,
)
    requires rows_value { (is_matrix factors.now told.rows told.rows ≡ true) × (is_matrix x.old told.rows k ≡ true) }
    requires rows_value_2 { good_list swaps.now told.pairs told.rows told.rows ≡ true }
    ensures { x.new ≡ solved_by (way_of transposed) factors.now swaps.now told (columns told.rows k x.old) }
{
    if transposed {
        tr_solve_mut(factors, swaps, told, x, k);
    } else {
        solve_mut(factors, swaps, told, x, k);
    }
}

// Solves for the k right-hand columns b, into x, by the system or by the transposed one.
#[tactic(auto, unfolding(refusals::specs::Outcome::tested))]
fn solve_by(
    transposed: bool,
    factors: &[f64],
    swaps: &[usize],
    told: Record,
    b: &[f64],
    k: usize,
    x: &mut [f64],
) -> Result<(), Refusal>
    ensures result_value { outcome result ≡ (solving_by (way_of transposed) factors.now swaps.now told b.now k x.old).answer }
    ensures x_after { x.new ≡ (solving_by (way_of transposed) factors.now swaps.now told b.now k x.old).left }
{
    let n = told.rows;
    let sizes = !refusals::outside(1, k);
    let lengths = store::is_matrix(b, n, k) & store::is_matrix(x, n, k);
    let numbers = finite::all_finite(b);
    let asks = Asks {
        square: true,
        solves: true,
        sizes,
        lengths,
        list: true,
        numbers,
    };
    test_held(factors, swaps, told, asks)?;
    blas::copy(x, b);
    solve_mut_by(transposed, factors, swaps, told, x, k);
    refusals::settle(x)
}

// Solves for the k right-hand columns b, into x.
pub fn solve(
    factors: &[f64],
    swaps: &[usize],
    told: Record,
    b: &[f64],
    k: usize,
    x: &mut [f64],
) -> Result<(), Refusal>
    ensures result_value { outcome result ≡ (solving factors.now swaps.now told b.now k x.old).answer }
    ensures x_after { x.new ≡ (solving factors.now swaps.now told b.now k x.old).left }
{
    solve_by(false, factors, swaps, told, b, k, x)
}

// Solves the transposed system for the k right-hand columns b, into x.
pub fn tr_solve(
    factors: &[f64],
    swaps: &[usize],
    told: Record,
    b: &[f64],
    k: usize,
    x: &mut [f64],
) -> Result<(), Refusal>
    ensures result_value { outcome result ≡ (tr_solving factors.now swaps.now told b.now k x.old).answer }
    ensures x_after { x.new ≡ (tr_solving factors.now swaps.now told b.now k x.old).left }
{
    solve_by(true, factors, swaps, told, b, k, x)
}

// Column j of the identity.
fn unit_column(dst: &mut [f64], j: usize)
    requires { j < length dst.old }
    ensures { dst.new ≡ unit_column (length dst.old) j }
{
    blas::fill_zero(dst);
    dst[j] = 1.0;
}

// The n by n identity.
fn fill_with_identity(x: &mut [f64], n: usize)
    requires { is_matrix x.old n n ≡ true }
    ensures { columns n n x.new ≡ identity n }
{
    for j in 0..n {
        let a = j * n;
        let e = a + n;
        unit_column(&mut x[a..e], j);
    }
}

// The inverse, into x: solve with the identity.
#[tactic(auto, unfolding(crate::specs::Solving::inverting, refusals::specs::Outcome::tested))]
pub fn inverse(factors: &[f64], swaps: &[usize], told: Record, x: &mut [f64]) -> Result<(), Refusal>
    ensures result_value { outcome result ≡ (inverting factors.now swaps.now told x.old).answer }
    ensures x_after { x.new ≡ (inverting factors.now swaps.now told x.old).left }
{
    let n = told.rows;
    let lengths = store::is_matrix(x, n, n);
    let asks = Asks {
        square: true,
        solves: true,
        sizes: true,
        lengths,
        list: true,
        numbers: true,
    };
    test_held(factors, swaps, told, asks)?;
    fill_with_identity(x, n);
    solve_mut(factors, swaps, told, x, n);
    refusals::settle(x)
}

// One times each number of the diagonal in turn.
fn diagonal_product(factors: &[f64], n: usize) -> f64
    requires { is_matrix factors.now n n ≡ true }
    ensures { result ≡ diagonal_product n (columns n n factors.now) }
{
    let mut res = 1.0;
    for i in 0..n {
        let a = i * n;
        let q = a + i;
        res = res * factors[q];
    }
    res
}

// The product of the diagonal, or the refusal before the work.
#[tactic(auto, unfolding(crate::specs::Determinant::producing, refusals::specs::Outcome::tested))]
fn product(factors: &[f64], swaps: &[usize], told: Record) -> Result<f64, Refusal>
    ensures { outcome result ≡ producing factors.now swaps.now told }
{
    let asks = Asks {
        square: true,
        solves: false,
        sizes: true,
        lengths: true,
        list: true,
        numbers: true,
    };
    test_held(factors, swaps, told, asks)?;
    Ok(diagonal_product(factors, told.rows))
}

// A finite number, or refusal 7.
#[tactic(auto, unfolding(crate::specs::Determinant::number_or7))]
fn number_or_7(x: f64) -> Result<f64, Refusal>
    ensures { outcome result ≡ number_or7 x }
{
    if numbers::is_finite(x) {
        Ok(x)
    } else {
        Err(Refusal::Overflow)
    }
}

// The determinant of the factored matrix.
#[tactic(auto, unfolding(crate::specs::Determinant::determining))]
pub fn determinant(factors: &[f64], swaps: &[usize], told: Record) -> Result<f64, Refusal>
    ensures { outcome result ≡ determining factors.now swaps.now told }
{
    let answer = product(factors, swaps, told);
    let Ok(res) = answer else {
        return answer;
    };
    number_or_7(res * permutation_sequence::determinant(told.pairs))
}

// Whether the factored matrix is invertible: no dead column.
#[tactic(auto, unfolding(crate::specs::Determinant::inverse_test, refusals::specs::Outcome::tested))]
pub fn is_invertible(factors: &[f64], swaps: &[usize], told: Record) -> Result<bool, Refusal>
    ensures { outcome result ≡ inverse_test factors.now swaps.now told }
{
    let asks = Asks {
        square: true,
        solves: false,
        sizes: true,
        lengths: true,
        list: true,
        numbers: true,
    };
    test_held(factors, swaps, told, asks)?;
    Ok(told.dead == 0)
}
