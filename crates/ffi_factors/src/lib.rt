// More calls on factors for C and Rust, in the form of `ffi`: a slice is a pointer and a length, a refusal's number is the answer, and a further number is
// written through a pointer. Each hands its arguments on and adds nothing of its own; include/wejdarox.h is the caller's side.
#![tactic(auto)]

ghost use Rattle.std.specs.Prelude.{◌≡◌};
ghost use Rattle.refusals.specs.Outcome.{number_of};
ghost use Rattle.factors.specs.Factors.{record_of, record_after};
ghost use Rattle.lu.specs.Factoring.{factoring, factoring_answer, pairs_in, dead_columns_in, tossed_in};
ghost use Rattle.removing.specs.Removing.{removing};
ghost use Rattle.from_factors.specs.Triangles.{lowering, uppering};
ghost use Rattle.from_factors.specs.Solving.{tr_solving};

use factors::Record;

// Takes the last column off m by n factors with *pairs swaps and *dead dead columns. Refused: both as they were.
#[tactic(auto, unfolding(factors::specs::Factors::record_after))]
pub fn wejdarox_remove_column(
    factors: &mut [f64],
    swaps: &mut [usize],
    m: usize,
    n: usize,
    pairs: &mut usize,
    dead: &mut usize,
) -> usize
    ensures value { result ≡ number_of (removing factors.old swaps.old (record_of m n pairs.old dead.old)).answer }
    ensures factors_after { factors.new
        ≡ (removing factors.old swaps.old (record_of m n pairs.old dead.old)).left.factors }
    ensures swaps_after { swaps.new
        ≡ (removing factors.old swaps.old (record_of m n pairs.old dead.old)).left.store }
    ensures pairs_after { pairs.new
        ≡ (record_after (record_of m n pairs.old dead.old)
        (removing factors.old swaps.old (record_of m n pairs.old dead.old)).answer).pairs }
    ensures dead_after { dead.new
        ≡ (record_after (record_of m n pairs.old dead.old)
        (removing factors.old swaps.old (record_of m n pairs.old dead.old)).answer).dead }
{
    let was = *pairs;
    let died = *dead;
    let held = Record {
        rows: m,
        columns: n,
        pairs: was,
        dead: died,
    };
    match removing::remove_column(factors, swaps, held) {
        Ok(told) => {
            *pairs = told.pairs;
            *dead = told.dead;
            0
        }
        Err(refused) => usize::from(refused.refusal),
    }
}

// Factors the m by n matrix a by adding column after column: answers and leaves what `wejdarox_factor` does.
pub fn wejdarox_build_up(
    a: &[f64],
    m: usize,
    n: usize,
    factors: &mut [f64],
    swaps: &mut [usize],
    pairs: &mut usize,
    dead: &mut usize,
    toss_ups: &mut usize,
) -> usize
    ensures value { result ≡ number_of (factoring_answer a.now m n factors.old swaps.old) }
    ensures factors_after { factors.new ≡ (factoring a.now m n factors.old swaps.old).left.factors }
    ensures swaps_after { swaps.new ≡ (factoring a.now m n factors.old swaps.old).left.store }
    ensures pairs_after { pairs.new ≡ pairs_in (factoring_answer a.now m n factors.old swaps.old) }
    ensures dead_after { dead.new ≡ dead_columns_in (factoring_answer a.now m n factors.old swaps.old) }
    ensures toss_ups_after { toss_ups.new ≡ tossed_in (factoring_answer a.now m n factors.old swaps.old) }
{
    let answer = building_up::build_up(a, m, n, factors, swaps);
    ffi::tell_factored(answer, pairs, dead, toss_ups)
}

// L of m by n factors, into x.
pub fn wejdarox_l(
    factors: &[f64],
    swaps: &[usize],
    m: usize,
    n: usize,
    pairs: usize,
    dead: usize,
    x: &mut [f64],
) -> usize
    ensures value { result ≡ number_of (lowering factors.now swaps.now (record_of m n pairs dead) x.old).answer }
    ensures x_after { x.new ≡ (lowering factors.now swaps.now (record_of m n pairs dead) x.old).left }
{
    let told = Record {
        rows: m,
        columns: n,
        pairs,
        dead,
    };
    refusals::number_of(from_factors::l(factors, swaps, told, x))
}

// U of m by n factors, into x.
pub fn wejdarox_u(
    factors: &[f64],
    swaps: &[usize],
    m: usize,
    n: usize,
    pairs: usize,
    dead: usize,
    x: &mut [f64],
) -> usize
    ensures value { result ≡ number_of (uppering factors.now swaps.now (record_of m n pairs dead) x.old).answer }
    ensures x_after { x.new ≡ (uppering factors.now swaps.now (record_of m n pairs dead) x.old).left }
{
    let told = Record {
        rows: m,
        columns: n,
        pairs,
        dead,
    };
    refusals::number_of(from_factors::u(factors, swaps, told, x))
}

// Solves for the k right-hand columns b by the transposed matrix, into x.
pub fn wejdarox_tr_solve(
    factors: &[f64],
    swaps: &[usize],
    m: usize,
    n: usize,
    pairs: usize,
    dead: usize,
    b: &[f64],
    k: usize,
    x: &mut [f64],
) -> usize
    ensures value { result
        ≡ number_of (tr_solving factors.now swaps.now (record_of m n pairs dead) b.now k x.old).answer }
    ensures x_after { x.new
        ≡ (tr_solving factors.now swaps.now (record_of m n pairs dead) b.now k x.old).left }
{
    let told = Record {
        rows: m,
        columns: n,
        pairs,
        dead,
    };
    refusals::number_of(from_factors::tr_solve(factors, swaps, told, b, k, x))
}
