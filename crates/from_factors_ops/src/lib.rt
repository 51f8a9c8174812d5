// The ops that read factors: each hands to its call exactly the slices of its case, and puts the line of what the call answered.
// a, b and swaps are read; x is written.
#![tactic(auto)]

use cases::{Case, OfFactors, Reading};
use factors::Record;
use lines::{Part, Text, put_line};
use matrix_ops::{put_refused, put_result};
use why::WhySolve;

// The record that a case tells.
pub fn record_of(case: Case) -> Record {
    Record {
        rows: case.m,
        columns: case.n,
        pairs: case.pairs,
        dead: case.dead,
    }
}

fn determinant(text: &mut Text, case: Case, a: &[f64], swaps: &[usize]) {
    match from_factors::determinant(a, swaps, record_of(case)) {
        Ok(number) => put_line(text, 0, &[Part::Float(number)]),
        Err(refusal) => put_refused(text, refusal),
    }
}

fn scaled_determinant(text: &mut Text, case: Case, a: &[f64], swaps: &[usize]) {
    match scaled_determinant::scaled_determinant(a, swaps, record_of(case)) {
        Ok(r) => put_line(
            text,
            0,
            &[Part::Float(r.significand), Part::Exponent(r.exponent)],
        ),
        Err(refusal) => put_line(text, usize::from(refusal), &[Part::Dash, Part::Dash]),
    }
}

fn is_invertible(text: &mut Text, case: Case, a: &[f64], swaps: &[usize]) {
    match from_factors::is_invertible(a, swaps, record_of(case)) {
        Ok(yes) => put_line(text, 0, &[Part::Whole(usize::from(yes))]),
        Err(refusal) => put_refused(text, refusal),
    }
}

// The dead column of a singular matrix, or pass, right-hand column and row of an overflow.
fn why_solve(text: &mut Text, case: Case, a: &[f64], swaps: &[usize], b: &[f64], x: &mut [f64]) {
    let told = record_of(case);
    match why::why_solve(a, swaps, told, b, case.k, x) {
        None => put_line(text, 0, &[Part::Dash]),
        Some(WhySolve::Refused(refusal)) => put_refused(text, refusal),
        Some(WhySolve::Singular(column)) => put_line(text, 6, &[Part::Whole(column)]),
        Some(WhySolve::Overflow { pass, column, row }) => {
            put_line(text, 7, &[Part::Wholes(&[pass, column, row])])
        }
    }
}

// The ops whose result is x.
fn put_x(
    text: &mut Text,
    op: Reading,
    case: Case,
    a: &[f64],
    swaps: &[usize],
    b: &[f64],
    x: &mut [f64],
) {
    let told = record_of(case);
    let Case { k, .. } = case;
    let answer = match op {
        Reading::Solve => from_factors::solve(a, swaps, told, b, k, x),
        Reading::TrSolve => from_factors::tr_solve(a, swaps, told, b, k, x),
        Reading::Inverse => from_factors::inverse(a, swaps, told, x),
        Reading::L => from_factors::l(a, swaps, told, x),
        Reading::U => from_factors::u(a, swaps, told, x),
    };
    put_result(text, answer, x);
}

// Runs an op, and puts its line.
pub fn run(
    text: &mut Text,
    op: OfFactors,
    case: Case,
    a: &[f64],
    swaps: &[usize],
    b: &[f64],
    x: &mut [f64],
) {
    match op {
        OfFactors::Determinant => determinant(text, case, a, swaps),
        OfFactors::ScaledDeterminant => scaled_determinant(text, case, a, swaps),
        OfFactors::IsInvertible => is_invertible(text, case, a, swaps),
        OfFactors::WhySolve => why_solve(text, case, a, swaps, b, x),
        OfFactors::Reading(op) => put_x(text, op, case, a, swaps, b, x),
    }
}
