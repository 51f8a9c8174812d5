// The triangular solves, each tested first: linalg/solve.rs of nalgebra 0.35.0, for f64. The matrix and the right-hand sides lie column after column.
#![tactic(auto)]

ghost use Rattle.std.specs.Prelude.{◌≡◌};
ghost use Rattle.refusals.specs.Outcome.{outcome, number_of};
ghost use Rattle.solve.specs.Calls.{zero_on_diagonal, sizes_outside, lengths_fit, given_finite, numbers_finite, zero_divisor, refusal_of, solving};

use refusals::Refusal;
use triangular_passes::Pass;

// Whether the n by n matrix t has a zero of either sign on its diagonal; false where t is no such matrix.
#[tactic(auto, unfolding(crate::specs::Calls::zero_on_diagonal))]
pub fn zero_on_diagonal(t: &[f64], n: usize) -> bool
    ensures { result ≡ zero_on_diagonal t.now n }
{
    dead_columns::dead_of(t, n, n) != 0
}

// Whether the given diagonal is finite, where there is one.
fn given_finite(pass: Pass) -> bool
    ensures { result ≡ given_finite pass }
{
    pass.given().is_none_or(numbers::is_finite)
}

// Refusal 6: whether some row would be divided by a zero.
fn zero_divisor(pass: Pass, t: &[f64], n: usize) -> bool
    ensures { result ≡ zero_divisor pass t.now n }
{
    match pass.given() {
        Some(d) => numbers::is_zero(d),
        None => zero_on_diagonal(t, n),
    }
}

// Refusal 1: whether a size lies outside its limits.
#[tactic(auto, unfolding(crate::specs::Calls::sizes_outside))]
fn sizes_outside(n: usize, k: usize) -> bool
    ensures { result ≡ sizes_outside n k }
{
    refusals::outside(1, n) || refusals::outside(1, k)
}

// Refusal 3: whether the three slices have the lengths that the sizes ask for.
#[tactic(auto, unfolding(crate::specs::Calls::lengths_fit))]
fn lengths_fit(t: &[f64], n: usize, b: &[f64], k: usize, x: &[f64]) -> bool
    ensures { result ≡ lengths_fit t.now n b.now k x.now }
{
    store::is_matrix(t, n, n) && store::is_matrix(b, n, k) && store::is_matrix(x, n, k)
}

// Refusal 5: whether every number given is finite.
#[tactic(auto, unfolding(crate::specs::Calls::numbers_finite))]
fn numbers_finite(pass: Pass, t: &[f64], b: &[f64]) -> bool
    ensures { result ≡ numbers_finite pass t.now b.now }
{
    finite::all_finite(t) && finite::all_finite(b) && given_finite(pass)
}

// Refuses what the solves refuse before the work, by the tests in their order.
#[tactic(auto, unfolding(crate::specs::Calls::refusal_of, refusals::specs::Outcome::first_holding))]
fn test_solving(
    pass: Pass,
    t: &[f64],
    n: usize,
    b: &[f64],
    k: usize,
    x: &[f64],
) -> Result<(), Refusal>
    ensures { number_of (outcome result) ≡ refusal_of pass t.now n b.now k x.now }
{
    refusals::first_of(&[
        (Refusal::Size, sizes_outside(n, k)),
        (Refusal::Length, !lengths_fit(t, n, b, k, x)),
        (Refusal::NotFinite, !numbers_finite(pass, t, b)),
        (Refusal::Singular, zero_divisor(pass, t, n)),
    ])
}

// Solves by the n by n matrix t for the k right-hand columns b, into x.
fn solve_by(
    pass: Pass,
    t: &[f64],
    n: usize,
    b: &[f64],
    k: usize,
    x: &mut [f64],
) -> Result<(), Refusal>
    ensures result_value { outcome result ≡ (solving pass t.now n b.now k x.old).answer }
    ensures x_after { x.new ≡ (solving pass t.now n b.now k x.old).left }
{
    test_solving(pass, t, n, b, k, x)?;
    blas::copy(x, b);
    triangular_passes::solve_in_place(pass, t, n, x, k);
    refusals::settle(x)
}

// The six calls below stay, one for each kind: they are public, with theorems of their own, and docs/CONTRACTS.md names them.

// The lower triangle of t, by its own diagonal.
pub fn solve_lower_triangular(
    t: &[f64],
    n: usize,
    b: &[f64],
    k: usize,
    x: &mut [f64],
) -> Result<(), Refusal>
    ensures result_value { outcome result ≡ (solving Pass.Lower t.now n b.now k x.old).answer }
    ensures x_after { x.new ≡ (solving Pass.Lower t.now n b.now k x.old).left }
{
    solve_by(Pass::Lower, t, n, b, k, x)
}

// The upper triangle of t, by its own diagonal.
pub fn solve_upper_triangular(
    t: &[f64],
    n: usize,
    b: &[f64],
    k: usize,
    x: &mut [f64],
) -> Result<(), Refusal>
    ensures result_value { outcome result ≡ (solving Pass.Upper t.now n b.now k x.old).answer }
    ensures x_after { x.new ≡ (solving Pass.Upper t.now n b.now k x.old).left }
{
    solve_by(Pass::Upper, t, n, b, k, x)
}

// The lower triangle of t, by the diagonal `diag`, the Rust's way: its quotients drive the updates, and no entry is divided.
pub fn solve_lower_triangular_with_diag(
    t: &[f64],
    n: usize,
    b: &[f64],
    k: usize,
    x: &mut [f64],
    diag: f64,
) -> Result<(), Refusal>
    ensures result_value { outcome result ≡ (solving (Pass.GivenDiagonal diag) t.now n b.now k x.old).answer }
    ensures x_after { x.new ≡ (solving (Pass.GivenDiagonal diag) t.now n b.now k x.old).left }
{
    solve_by(Pass::GivenDiagonal(diag), t, n, b, k, x)
}

// The lower triangle of t, by the diagonal `diag`, corrected: each entry is divided by it, stored, and drives the updates.
pub fn solve_lower_triangular_with_diag_corrected(
    t: &[f64],
    n: usize,
    b: &[f64],
    k: usize,
    x: &mut [f64],
    diag: f64,
) -> Result<(), Refusal>
    ensures result_value { outcome result ≡ (solving (Pass.CorrectedDiagonal diag) t.now n b.now k x.old).answer }
    ensures x_after { x.new ≡ (solving (Pass.CorrectedDiagonal diag) t.now n b.now k x.old).left }
{
    solve_by(Pass::CorrectedDiagonal(diag), t, n, b, k, x)
}

// The lower triangle of t, transposed.
pub fn tr_solve_lower_triangular(
    t: &[f64],
    n: usize,
    b: &[f64],
    k: usize,
    x: &mut [f64],
) -> Result<(), Refusal>
    ensures result_value { outcome result ≡ (solving Pass.TransposedLower t.now n b.now k x.old).answer }
    ensures x_after { x.new ≡ (solving Pass.TransposedLower t.now n b.now k x.old).left }
{
    solve_by(Pass::TransposedLower, t, n, b, k, x)
}

// The upper triangle of t, transposed.
pub fn tr_solve_upper_triangular(
    t: &[f64],
    n: usize,
    b: &[f64],
    k: usize,
    x: &mut [f64],
) -> Result<(), Refusal>
    ensures result_value { outcome result ≡ (solving Pass.TransposedUpper t.now n b.now k x.old).answer }
    ensures x_after { x.new ≡ (solving Pass.TransposedUpper t.now n b.now k x.old).left }
{
    solve_by(Pass::TransposedUpper, t, n, b, k, x)
}
