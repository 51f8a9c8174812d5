// The ops that make factors or change them: each hands to its call exactly the slices of its case, and puts the line of what the
// call answered. a and b are read; x and swaps are written.
#![tactic(auto)]

use cases::{Case, Making};
use factors::Record;
use from_factors_ops::record_of;
use lines::{Part, Text, put_line};
use lu::Factored;
use matrix_ops::{put_refused, told};
use refusals::{Refusal, Refused};
use why::WhyFactor;

// Puts the line of a call that makes factors: pairs, factors, swaps, toss-ups, dead columns.
fn put_factors<'x>(
    text: &mut Text,
    answer: Result<Factored, Refused<Record>>,
    x: &'x [f64],
    swaps: &'x [usize],
) {
    let (number, now) = match answer {
        Ok(made) => (0, made),
        Err(refused) => {
            let held = Factored {
                told: refused.old,
                toss_ups: 0,
            };
            (usize::from(refused.refusal), held)
        }
    };
    let parts = [
        Part::Whole(now.told.pairs),
        Part::Floats(x),
        Part::Wholes(swaps),
        Part::Whole(now.toss_ups),
        Part::Whole(now.told.dead),
    ];
    put_line(text, number, &parts);
}

// The answer of a factoring, which is refused without pairs and dead columns.
fn or_none(
    answer: Result<Factored, Refusal>,
    m: usize,
    n: usize,
) -> Result<Factored, Refused<Record>> {
    let none = Record {
        rows: m,
        columns: n,
        pairs: 0,
        dead: 0,
    };
    match answer {
        Ok(made) => Ok(made),
        Err(refusal) => Err(Refused { refusal, old: none }),
    }
}

fn factor(text: &mut Text, case: Case, a: &[f64], x: &mut [f64], swaps: &mut [usize]) {
    let Case { m, n, .. } = case;
    let answer = lu::factor(a, m, n, x, swaps);
    put_factors(text, or_none(answer, m, n), x, swaps);
}

fn build_up(text: &mut Text, case: Case, a: &[f64], x: &mut [f64], swaps: &mut [usize]) {
    let Case { m, n, .. } = case;
    let answer = building_up::build_up(a, m, n, x, swaps);
    put_factors(text, or_none(answer, m, n), x, swaps);
}

fn add_column(text: &mut Text, case: Case, b: &[f64], x: &mut [f64], swaps: &mut [usize]) {
    let held = record_of(case);
    let answer = adding::add_column(x, b, swaps, held);
    put_factors(text, answer, x, swaps);
}

// Puts the line of a removed column: pairs, factors, swaps, dead columns.
fn put_removed<'x>(
    text: &mut Text,
    (number, now): (usize, Record),
    x: &'x [f64],
    swaps: &'x [usize],
) {
    let parts = [
        Part::Whole(now.pairs),
        Part::Floats(x),
        Part::Wholes(swaps),
        Part::Whole(now.dead),
    ];
    put_line(text, number, &parts);
}

fn remove_column(text: &mut Text, case: Case, x: &mut [f64], swaps: &mut [usize]) {
    let held = record_of(case);
    let answer = removing::remove_column(x, swaps, held);
    put_removed(text, told(answer), x, swaps);
}

// Its line: step, column and row of an overflow.
fn why_factor(text: &mut Text, case: Case, a: &[f64], x: &mut [f64], swaps: &mut [usize]) {
    match why::why_factor(a, case.m, case.n, x, swaps) {
        None => put_line(text, 0, &[Part::Dash]),
        Some(WhyFactor::Refused(refusal)) => put_refused(text, refusal),
        Some(WhyFactor::Overflow { step, column, row }) => {
            put_line(text, 7, &[Part::Wholes(&[step, column, row])])
        }
    }
}

// Runs an op, and puts its line.
pub fn run(
    text: &mut Text,
    op: Making,
    case: Case,
    a: &[f64],
    b: &[f64],
    x: &mut [f64],
    swaps: &mut [usize],
) {
    match op {
        Making::Factor => factor(text, case, a, x, swaps),
        Making::AddColumn => add_column(text, case, b, x, swaps),
        Making::RemoveColumn => remove_column(text, case, x, swaps),
        Making::WhyFactor => why_factor(text, case, a, x, swaps),
        Making::BuildUp => build_up(text, case, a, x, swaps),
    }
}
