// Document 02, request 8: why a factoring or a solve is refused. Each call takes what the call takes that it explains, and leaves every lent slice as that
// one does. The reason is looked for by plain steps and turns, in the crate's order.
#![tactic(auto)]

ghost use Rattle.std.specs.Prelude.{◌≡◌, true, cond, ◌<◌, ◌≤◌, length};
ghost use Rattle.std.specs.Float.Ieee.Scale.{finite};
ghost use Rattle.numbers.specs.First.{first_failing};
ghost use Rattle.numbers.specs.Column.{entry};
ghost use Rattle.finite.specs.Finite.{all_finite};
ghost use Rattle.store.specs.Columns.{columns, is_matrix};
ghost use Rattle.solve.specs.Reason.{lowest_zero};
ghost use Rattle.swap_list.specs.SwapList.{good_list};
ghost use Rattle.lu.specs.Factoring.{factoring};
ghost use Rattle.from_factors.specs.Solving.{solving};
ghost use Rattle.why.specs.Results.{first_overflow};
ghost use Rattle.why.specs.Factoring.{factoring_results};
ghost use Rattle.why.specs.Inner.{Turned, Passed, column_or};
ghost use Rattle.why.specs.Why.{overflowed, told_factor, explain_factoring, told_solve, results_of, explain_solving};

use factors::Record;
use refusals::Refusal;
use triangular_passes::Pass;

// Why a factoring is refused: a refusal before the work, or where the first result stands that is not finite.
#[derive(Clone, Copy)]
pub enum WhyFactor {
    Refused(Refusal),
    Overflow {
        step: usize,
        column: usize,
        row: usize,
    },
}

// Why a solve is refused: a refusal before the work, for a singular matrix its lowest dead column, or where the first result stands that is
// not finite; pass 1 is the unit lower one, 2 the upper.
#[derive(Clone, Copy)]
pub enum WhySolve {
    Refused(Refusal),
    Singular(usize),
    Overflow {
        pass: usize,
        column: usize,
        row: usize,
    },
}

// The place of the first number that is not finite; the length where all are.
fn first_not_finite(s: &[f64]) -> usize
    ensures { result ≡ first_failing finite s.now }
{
    s.iter()
        .position(|x| !numbers::is_finite(*x))
        .unwrap_or(s.len())
}

// The reason of an overflow in the elimination of the m by n matrix in s, by plain steps.
fn overflow_in_steps(s: &mut [f64], m: usize, n: usize) -> Option<WhyFactor>
    requires { (is_matrix s.old m n ≡ true) × (all_finite s.old ≡ true) }
    ensures { told_factor result ≡ overflowed (first_overflow (factoring_results m (columns m n s.old))) }
{
    let end = store::min(m, n);
    for i in 0..end {
        lu::plain_step(s, m, n, i);
        let at = first_not_finite(s);
        if at < s.len() {
            return Some(WhyFactor::Overflow {
                step: i,
                column: at / m,
                row: at % m,
            });
        }
    }
    None
}

// Explains `lu::factor`; no reason where it is accepted.
pub fn why_factor(
    a: &[f64],
    m: usize,
    n: usize,
    out: &mut [f64],
    swaps: &mut [usize],
) -> Option<WhyFactor>
    ensures result_value { told_factor result ≡ explain_factoring a.now m n out.old swaps.old }
    ensures out_after { out.new ≡ (factoring a.now m n out.old swaps.old).left.factors }
    ensures swaps_after { swaps.new ≡ (factoring a.now m n out.old swaps.old).left.store }
{
    let Err(refusal) = lu::factor(a, m, n, out, swaps) else {
        return None;
    };
    if refusal != Refusal::Overflow {
        return Some(WhyFactor::Refused(refusal));
    }
    blas::copy(out, a);
    let reason = overflow_in_steps(out, m, n);
    blas::fill_zero(out);
    reason
}

// The first row that a turn on row `own` stored a number in that is not finite: that row itself, else from the top; the length where all are finite.
fn stored_row(b: &[f64], own: usize) -> usize
    requires { own < length b.now }
    ensures { result ≡ cond (finite (entry b.now own)) (first_failing finite b.now) own }
{
    if numbers::is_finite(b[own]) {
        return first_not_finite(b);
    }
    own
}

// The row of the first result that is not finite of a pass on the right-hand column b, by plain turns; n where there is none, and then b is solved.
fn overflow_in_column(pass: Pass, t: &[f64], n: usize, b: &mut [f64]) -> usize
    requires { (is_matrix t.now n n ≡ true) × (length b.old ≡ n) × (1 ≤ n) }
    ensures { Turned pass n (columns n n t.now) b.old result b.new }
{
    let turns = pass.turns(n);
    for k in 0..turns {
        triangular_passes::solve_turn(pass, t, n, b, k);
        let row = stored_row(b, pass.row_at(n, k));
        if row < n {
            return row;
        }
    }
    n
}

// The right-hand column and the row of the first result that is not finite of a pass.
#[derive(Clone, Copy)]
struct Found {
    column: usize,
    row: usize,
}

// The first result that is not finite of a pass over the k right-hand columns in x; column k where there is none, and then x is solved.
fn overflow_in_pass(pass: Pass, t: &[f64], n: usize, x: &mut [f64], k: usize) -> Found
    requires { (is_matrix t.now n n ≡ true) × (is_matrix x.old n k ≡ true) × (1 ≤ n) }
    ensures { Passed pass n k (columns n n t.now) (columns n k x.old) result (columns n k x.new) }
{
    for j in 0..k {
        let a = j * n;
        let e = a + n;
        let row = overflow_in_column(pass, t, n, &mut x[a..e]);
        if row < n {
            return Found { column: j, row };
        }
    }
    Found { column: k, row: 0 }
}

// The reason of an overflow in the solve of the k right-hand columns in x by the record's factors: rows swapped, unit lower, upper.
fn overflow_in_solve(
    factors: &[f64],
    swaps: &[usize],
    told: Record,
    x: &mut [f64],
    k: usize,
) -> Option<WhySolve>
    requires rows_value { (is_matrix factors.now told.rows told.rows ≡ true) × (is_matrix x.old told.rows k ≡ true) × (1 ≤ told.rows) }
    requires rows_value_2 { (good_list swaps.now told.pairs told.rows told.rows ≡ true) × (all_finite x.old ≡ true) }
    ensures { told_solve result ≡ overflowed (first_overflow
        (results_of factors.now swaps.now told (columns told.rows k x.old))) }
{
    let n = told.rows;
    exchanges::apply_to_rows(x, n, k, swaps, told.pairs, false);
    let low = overflow_in_pass(Pass::GivenDiagonal(1.0), factors, n, x, k);
    if low.column < k {
        return Some(WhySolve::Overflow {
            pass: 1,
            column: low.column,
            row: low.row,
        });
    }
    let up = overflow_in_pass(Pass::Upper, factors, n, x, k);
    if up.column < k {
        return Some(WhySolve::Overflow {
            pass: 2,
            column: up.column,
            row: up.row,
        });
    }
    None
}

// The lowest dead column of the n by n matrix t; n where there is none.
fn lowest_dead(t: &[f64], n: usize) -> usize
    requires { is_matrix t.now n n ≡ true }
    ensures { result ≡ column_or n (lowest_zero 0 (columns n n t.now)) }
{
    for j in 0..n {
        let a = j * n;
        let q = a + j;
        if numbers::is_zero(t[q]) {
            return j;
        }
    }
    n
}

// Explains `from_factors::solve`; no reason where it is accepted.
pub fn why_solve(
    factors: &[f64],
    swaps: &[usize],
    told: Record,
    b: &[f64],
    k: usize,
    x: &mut [f64],
) -> Option<WhySolve>
    ensures result_value { told_solve result ≡ explain_solving factors.now swaps.now told b.now k x.old }
    ensures x_after { x.new ≡ (solving factors.now swaps.now told b.now k x.old).left }
{
    let Err(refusal) = from_factors::solve(factors, swaps, told, b, k, x) else {
        return None;
    };
    if refusal == Refusal::Singular {
        return Some(WhySolve::Singular(lowest_dead(factors, told.rows)));
    }
    if refusal != Refusal::Overflow {
        return Some(WhySolve::Refused(refusal));
    }
    blas::copy(x, b);
    let reason = overflow_in_solve(factors, swaps, told, x, k);
    blas::fill_zero(x);
    reason
}
