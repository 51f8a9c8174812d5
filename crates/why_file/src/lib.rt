// Document 02, request 8, for a panel file: why its answer is refused, by the reader, by factoring or by the solve.
#![tactic(auto)]

ghost use Rattle.std.specs.Prelude.{◌≡◌, ◌*◌, ◌≤◌, length, take, replicate};
ghost use Rattle.numbers.specs.Column.{zeros};
ghost use Rattle.crossing.specs.Below.{packed_in};
ghost use Rattle.why.specs.Why.{told_factor, told_solve, explain_factoring};
ghost use Rattle.why_file.specs.Explaining.{in_factoring, in_solving, told_in, explain_factors, explain_loads, explain_file, told_file};
ghost use Rattle.why_file.specs.Placed.{Placed};

use factors::Record;
use lu::Factored;
use refusals::Refusal;
use why::{WhyFactor, WhySolve};

// Why a panel file's answer is refused: a refusal before the work; where the first result of factoring stands that is not finite; the lowest
// dead column; or where the first result of the solve stands that is not finite, in pass 1, the unit lower one, or 2, the upper. Places count from 0.
#[derive(Clone, Copy)]
pub enum WhyFile {
    Refused(Refusal),
    Factoring {
        step: usize,
        column: usize,
        row: usize,
    },
    Singular(usize),
    Solving {
        pass: usize,
        column: usize,
        row: usize,
    },
}

// The reason of a factoring as a file's.
#[tactic(auto, unfolding(why::specs::Why::told_factor, why::specs::Why::overflowed, crate::specs::Explaining::told_file))]
fn of_factoring(reason: WhyFactor) -> WhyFile
    ensures { told_file (Some result) ≡ told_in in_factoring (told_factor (Some reason)) }
{
    match reason {
        WhyFactor::Refused(refusal) => WhyFile::Refused(refusal),
        WhyFactor::Overflow { step, column, row } => WhyFile::Factoring { step, column, row },
    }
}

// The reason of a solve as a file's.
#[tactic(auto, unfolding(why::specs::Why::told_solve, why::specs::Why::overflowed, crate::specs::Explaining::told_file))]
fn of_solving(reason: WhySolve) -> WhyFile
    ensures { told_file (Some result) ≡ told_in in_solving (told_solve (Some reason)) }
{
    match reason {
        WhySolve::Refused(refusal) => WhyFile::Refused(refusal),
        WhySolve::Singular(column) => WhyFile::Singular(column),
        WhySolve::Overflow { pass, column, row } => WhyFile::Solving { pass, column, row },
    }
}

// Why factoring the n by n matrix in front of a store is refused.
fn why_matrix(n: usize, matrix: &[f64; 4096]) -> Option<WhyFile>
    requires { n ≤ 64 }
    ensures { told_file result ≡ told_in in_factoring (explain_factoring (take (n * n) matrix.now) n n (zeros (n * n)) (replicate 128 0)) }
{
    let mut factors = [0.0f64; 4096];
    let mut swaps = [0usize; 128];
    let entries = n * n;
    let reason = why::why_factor(
        &matrix[..entries],
        n,
        n,
        &mut factors[..entries],
        &mut swaps,
    )?;
    Some(of_factoring(reason))
}

// Why the matrix of a file is not factored.
fn why_factors(file: &[u8]) -> Option<WhyFile>
    ensures { told_file result ≡ explain_factors file.now }
{
    let mut matrix = [0.0f64; 4096];
    let mut readings = [0.0f64; 64];
    match panel_file::read(file, &mut matrix, &mut readings) {
        Ok(n) => why_matrix(n, &matrix),
        Err(refusal) => Some(WhyFile::Refused(refusal)),
    }
}

// Why the factors in front of their store do not solve for the readings in front of theirs.
fn why_loads(
    matrix: &[f64; 4096],
    swaps: &[usize],
    told: Record,
    readings: &[f64; 64],
) -> Option<WhyFile>
    requires { told.rows ≤ 64 }
    ensures { told_file result
        ≡ explain_loads (packed_in matrix.now swaps.now told) (take told.rows readings.now) }
{
    let mut loads = [0.0f64; 64];
    let n = told.rows;
    let entries = n * n;
    let reason = why::why_solve(
        &matrix[..entries],
        swaps,
        told,
        &readings[..n],
        1,
        &mut loads[..n],
    )?;
    Some(of_solving(reason))
}

// Why the answer for a panel file is refused; no reason where it is not.
pub fn why_file(file: &[u8]) -> Option<WhyFile>
    ensures result_value { told_file result ≡ explain_file file.now }
    ensures placed { Placed result }
{
    let mut matrix = [0.0f64; 4096];
    let mut readings = [0.0f64; 64];
    let mut swaps = [0usize; 128];
    match crossing::factor_file(file, &mut matrix, &mut readings, &mut swaps) {
        Ok(Factored { told, toss_ups: _ }) => why_loads(&matrix, &swaps, told, &readings),
        Err(_) => why_factors(file),
    }
}
