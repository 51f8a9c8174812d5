// The ops on matrices and lists that need no factors: each hands to its call exactly the slices of its case, and puts the line of
// what the call answered. a and b are read; x and swaps are written.
#![tactic(auto)]

ghost use Rattle.std.specs.Prelude.{◌≡◌, IfErr};
ghost use Rattle.refusals.specs.Outcome.{outcome_or_old, number_of};

use cases::{Case, Permuting, Slices, Triangle};
use lines::{Part, Text, put_line};
use refusals::{Refusal, Refused, number_of};

// Puts the line of a call whose result is x.
pub fn put_result(text: &mut Text, answer: Result<(), Refusal>, x: &[f64]) {
    put_line(text, number_of(answer), &[Part::Floats(x)]);
}

// Puts the line of a refused call that answers nothing else.
pub fn put_refused(text: &mut Text, refusal: Refusal) {
    put_line(text, usize::from(refusal), &[Part::Dash]);
}

// The refusal number of a call, 0 for none, and what it tells: the new value, or refused the old one.
pub fn told<T: Copy>(answer: Result<T, Refused<T>>) -> (usize, T)
    ensures number { result.0 ≡ number_of (outcome_or_old answer) }
    ensures before { IfErr answer (λ refused. result.1 ≡ refused.old) }
{
    match answer {
        Ok(now) => (0, now),
        Err(refused) => (usize::from(refused.refusal), refused.old),
    }
}

// A solve with a triangular matrix.
pub fn solve(text: &mut Text, op: Triangle, case: Case, a: &[f64], b: &[f64], x: &mut [f64]) {
    let Case { n, k, diagonal, .. } = case;
    let answer = match op {
        Triangle::Lower => solve::solve_lower_triangular(a, n, b, k, x),
        Triangle::Upper => solve::solve_upper_triangular(a, n, b, k, x),
        Triangle::LowerWithDiag => solve::solve_lower_triangular_with_diag(a, n, b, k, x, diagonal),
        Triangle::LowerWithDiagCorrected => {
            solve::solve_lower_triangular_with_diag_corrected(a, n, b, k, x, diagonal)
        }
        Triangle::TrLower => solve::tr_solve_lower_triangular(a, n, b, k, x),
        Triangle::TrUpper => solve::tr_solve_upper_triangular(a, n, b, k, x),
    };
    put_result(text, answer, x);
}

// A swap list on a matrix.
pub fn permute(text: &mut Text, op: Permuting, case: Case, swaps: &[usize], x: &mut [f64]) {
    let Case { m, n, pairs, .. } = case;
    let answer = match op {
        Permuting::Rows => permutation_sequence::permute_rows(x, m, n, swaps, pairs),
        Permuting::InvRows => permutation_sequence::inv_permute_rows(x, m, n, swaps, pairs),
        Permuting::Columns => permutation_sequence::permute_columns(x, m, n, swaps, pairs),
        Permuting::InvColumns => permutation_sequence::inv_permute_columns(x, m, n, swaps, pairs),
    };
    put_result(text, answer, x);
}

// A swap at the end of a list. Its line: pairs, swaps.
pub fn append(text: &mut Text, case: Case, swaps: &mut [usize]) {
    let Case {
        m,
        pairs,
        rows: [first, second],
        ..
    } = case;
    let answer = swap_list::append_permutation(swaps, pairs, m, first, second);
    let (number, now) = told(answer);
    put_line(text, number, &[Part::Whole(now), Part::Wholes(swaps)]);
}

// The ranks of all pads, or for m = 0 of those whose load is not zero. Its line: the number of listed pads, ranks.
pub fn rank(text: &mut Text, case: Case, a: &[f64], swaps: &mut [usize]) {
    let Case { m, n, .. } = case;
    let listed = if m == 0 {
        ranking::rank(a, n, swaps)
    } else {
        ranking::rank_all(a, n, swaps)
    };
    match listed {
        Ok(count) => put_line(text, 0, &[Part::Whole(count), Part::Wholes(swaps)]),
        Err(refusal) => put_line(
            text,
            usize::from(refusal),
            &[Part::Dash, Part::Wholes(swaps)],
        ),
    }
}

// The pivot of a column. Its line: row, toss-up.
pub fn find_pivot(text: &mut Text, case: Case, a: &[f64]) {
    let found = min_max::icamax(a, case.m);
    put_line(
        text,
        0,
        &[
            Part::Whole(found.row),
            Part::Whole(usize::from(found.tossed)),
        ],
    );
}
