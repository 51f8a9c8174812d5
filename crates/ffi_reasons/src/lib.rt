// The explaining calls for C and Rust (document 02, request 8), in the form of `ffi`: the number that is told is the answer, the place is written through three
// pointers. include/wejdarox.h is the caller's side.
#![tactic(auto)]

ghost use Rattle.std.specs.Prelude.{◌≡◌};
ghost use Rattle.factors.specs.Factors.{record_of};
ghost use Rattle.lu.specs.Factoring.{factoring};
ghost use Rattle.from_factors.specs.Solving.{solving};
ghost use Rattle.why.specs.Why.{told_factor, explain_factoring, told_solve, explain_solving};
ghost use Rattle.ffi_reasons.specs.Why.{place_told, spot_told};

use factors::Record;
use why::{WhyFactor, WhySolve};

// A reason as four numbers: the refusal's, and a place of three.
#[derive(Clone, Copy)]
struct Reason {
    number: usize,
    first: usize,
    second: usize,
    third: usize,
}

// The reason of a factoring: its place is step, column, row.
#[tactic(auto, unfolding(why::specs::Why::told_factor, why::specs::Why::overflowed, crate::specs::Why::place_or))]
fn of_factoring(reason: Option<WhyFactor>) -> Reason
    ensures number_value { (result.number ≡ (told_factor reason).number) × (result.first ≡ (place_told (told_factor reason)).step) }
    ensures second_value { (result.second ≡ (place_told (told_factor reason)).column) × (result.third ≡ (place_told (told_factor reason)).row) }
{
    match reason {
        None => alone(0),
        Some(WhyFactor::Refused(refusal)) => alone(usize::from(refusal)),
        Some(WhyFactor::Overflow { step, column, row }) => Reason {
            number: 7,
            first: step,
            second: column,
            third: row,
        },
    }
}

// The reason of a solve: its place is pass, right-hand column, row; for 6 the column alone.
#[tactic(auto, unfolding(why::specs::Why::told_solve, why::specs::Why::overflowed, crate::specs::Why::spot_or))]
fn of_solving(reason: Option<WhySolve>) -> Reason
    ensures number_value { (result.number ≡ (told_solve reason).number) × (result.first ≡ (spot_told (told_solve reason)).pass) }
    ensures second_value { (result.second ≡ (spot_told (told_solve reason)).column) × (result.third ≡ (spot_told (told_solve reason)).row) }
{
    match reason {
        None => alone(0),
        Some(WhySolve::Refused(refusal)) => alone(usize::from(refusal)),
        Some(WhySolve::Singular(column)) => Reason {
            number: 6,
            first: 0,
            second: column,
            third: 0,
        },
        Some(WhySolve::Overflow { pass, column, row }) => Reason {
            number: 7,
            first: pass,
            second: column,
            third: row,
        },
    }
}

// A number without a place.
fn alone(number: usize) -> Reason
    ensures { (result.number ≡ number) × (result.first ≡ 0) × (result.second ≡ 0) × (result.third ≡ 0) }
{
    Reason {
        number,
        first: 0,
        second: 0,
        third: 0,
    }
}

// Explains `wejdarox_factor`, and leaves the slices as that call does.
pub fn wejdarox_why_factor(
    a: &[f64],
    m: usize,
    n: usize,
    factors: &mut [f64],
    swaps: &mut [usize],
    step: &mut usize,
    column: &mut usize,
    row: &mut usize,
) -> usize
    ensures value { result ≡ (explain_factoring a.now m n factors.old swaps.old).number }
    ensures factors_after { factors.new ≡ (factoring a.now m n factors.old swaps.old).left.factors }
    ensures swaps_after { swaps.new ≡ (factoring a.now m n factors.old swaps.old).left.store }
    ensures step_after { step.new ≡ (place_told (explain_factoring a.now m n factors.old swaps.old)).step }
    ensures column_after { column.new ≡ (place_told (explain_factoring a.now m n factors.old swaps.old)).column }
    ensures row_after { row.new ≡ (place_told (explain_factoring a.now m n factors.old swaps.old)).row }
{
    let reason = of_factoring(why::why_factor(a, m, n, factors, swaps));
    *step = reason.first;
    *column = reason.second;
    *row = reason.third;
    reason.number
}

// Explains `wejdarox_solve`, and leaves x as that call does.
pub fn wejdarox_why_solve(
    factors: &[f64],
    swaps: &[usize],
    m: usize,
    n: usize,
    pairs: usize,
    dead: usize,
    b: &[f64],
    k: usize,
    x: &mut [f64],
    pass: &mut usize,
    column: &mut usize,
    row: &mut usize,
) -> usize
    ensures value { result ≡ (explain_solving factors.now swaps.now (record_of m n pairs dead) b.now k x.old).number }
    ensures x_after { x.new ≡ (solving factors.now swaps.now (record_of m n pairs dead) b.now k x.old).left }
    ensures pass_after { pass.new
        ≡ (spot_told (explain_solving factors.now swaps.now (record_of m n pairs dead) b.now k x.old)).pass }
    ensures column_after { column.new
        ≡ (spot_told (explain_solving factors.now swaps.now (record_of m n pairs dead) b.now k x.old)).column }
    ensures row_after { row.new
        ≡ (spot_told (explain_solving factors.now swaps.now (record_of m n pairs dead) b.now k x.old)).row }
{
    let told = Record {
        rows: m,
        columns: n,
        pairs,
        dead,
    };
    let reason = of_solving(why::why_solve(factors, swaps, told, b, k, x));
    *pass = reason.first;
    *column = reason.second;
    *row = reason.third;
    reason.number
}
