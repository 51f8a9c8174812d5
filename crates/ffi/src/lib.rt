// The calls for C and Rust, under plain names: a slice is a pointer and a length, a refusal's number is the answer (0 for none), and a further number is
// written through a pointer. Each hands its arguments on and adds nothing of its own; include/wejdarox.h is the caller's side.
#![tactic(auto)]

pub mod four;

ghost use Rattle.std.specs.Prelude.{◌≡◌};
ghost use Rattle.numbers.specs.Numbers.{zero64};
ghost use Rattle.refusals.specs.Outcome.{number_of, outcome};
ghost use Rattle.ranking.specs.Ranking.{loaded, every_pad, ranking};
ghost use Rattle.factors.specs.Factors.{record_of, record_after};
ghost use Rattle.lu.specs.Factoring.{factored, factoring, factoring_answer, pairs_in, dead_columns_in, tossed_in};
ghost use Rattle.adding.specs.Adding.{adding, adding_answer};
ghost use Rattle.from_factors.specs.Solving.{solving, inverting};
ghost use Rattle.from_factors.specs.Determinant.{determining, inverse_test};
ghost use Rattle.scaled_determinant.specs.Scaled.{scaled};
ghost use Rattle.scaled_determinant.specs.Determinant.{vanished, scaling};
ghost use Rattle.crossing.specs.Factors.{factors_in, toss_ups_in, tosses_given, stiffness};
ghost use Rattle.crossing_pads.specs.Ordering.{ordering, pads_ordered};
ghost use Rattle.season.specs.Season.{handing, counts_of, season_from};
ghost use Rattle.ffi.specs.Exports.{value_after, result_after, pads_in, count_in};

use crossing_pads::Order;
use factors::Record;
use lu::Factored;
use refusals::Refusal;
use season::Season;

// Tells factors' record and their toss-ups, or none, through pointers. Answers the refusal's number.
#[tactic(auto, unfolding(lu::specs::Factoring::pairs_in, lu::specs::Factoring::dead_columns_in, lu::specs::Factoring::tossed_in))]
pub fn tell_factored(
    answer: Result<Factored, Refusal>,
    pairs: &mut usize,
    dead: &mut usize,
    toss_ups: &mut usize,
) -> usize
    ensures value { result ≡ number_of (factored answer) }
    ensures pairs_after { pairs.new ≡ pairs_in (factored answer) }
    ensures dead_after { dead.new ≡ dead_columns_in (factored answer) }
    ensures toss_ups_after { toss_ups.new ≡ tossed_in (factored answer) }
{
    match answer {
        Ok(made) => {
            *pairs = made.told.pairs;
            *dead = made.told.dead;
            *toss_ups = made.toss_ups;
            0
        }
        Err(refusal) => {
            *pairs = 0;
            *dead = 0;
            *toss_ups = 0;
            usize::from(refusal)
        }
    }
}

// Factors the m by n matrix a. Refused: no pairs, no dead columns and no toss-ups.
pub fn wejdarox_factor(
    a: &[f64],
    m: usize,
    n: usize,
    factors: &mut [f64],
    swaps: &mut [usize],
    pairs: &mut usize,
    dead: &mut usize,
    toss_ups: &mut usize,
) -> usize
    ensures value { result ≡ number_of (factoring_answer a.now m n factors.old swaps.old) }
    ensures factors_after { factors.new ≡ (factoring a.now m n factors.old swaps.old).left.factors }
    ensures swaps_after { swaps.new ≡ (factoring a.now m n factors.old swaps.old).left.store }
    ensures pairs_after { pairs.new ≡ pairs_in (factoring_answer a.now m n factors.old swaps.old) }
    ensures dead_after { dead.new ≡ dead_columns_in (factoring_answer a.now m n factors.old swaps.old) }
    ensures toss_ups_after { toss_ups.new ≡ tossed_in (factoring_answer a.now m n factors.old swaps.old) }
{
    tell_factored(lu::factor(a, m, n, factors, swaps), pairs, dead, toss_ups)
}

// Adds a raw column to m by n factors with *pairs swaps and *dead dead columns. Refused: both as they were, and no toss-ups.
#[tactic(auto, unfolding(lu::specs::Factoring::tossed_in))]
pub fn wejdarox_add_column(
    factors: &mut [f64],
    column: &[f64],
    swaps: &mut [usize],
    m: usize,
    n: usize,
    pairs: &mut usize,
    dead: &mut usize,
    toss_ups: &mut usize,
) -> usize
    ensures value { result ≡ number_of (adding_answer factors.old column.now swaps.old
        (record_of m n pairs.old dead.old)) }
    ensures factors_after { factors.new
        ≡ (adding factors.old column.now swaps.old (record_of m n pairs.old dead.old)).left.factors }
    ensures swaps_after { swaps.new
        ≡ (adding factors.old column.now swaps.old (record_of m n pairs.old dead.old)).left.store }
    ensures pairs_after { pairs.new
        ≡ (record_after (record_of m n pairs.old dead.old)
        (adding factors.old column.now swaps.old (record_of m n pairs.old dead.old)).answer).pairs }
    ensures dead_after { dead.new
        ≡ (record_after (record_of m n pairs.old dead.old)
        (adding factors.old column.now swaps.old (record_of m n pairs.old dead.old)).answer).dead }
    ensures toss_ups_after { toss_ups.new
        ≡ tossed_in (adding_answer factors.old column.now swaps.old (record_of m n pairs.old dead.old)) }
{
    let was = *pairs;
    let died = *dead;
    let held = Record {
        rows: m,
        columns: n,
        pairs: was,
        dead: died,
    };
    match adding::add_column(factors, column, swaps, held) {
        Ok(grown) => {
            *pairs = grown.told.pairs;
            *dead = grown.told.dead;
            *toss_ups = grown.toss_ups;
            0
        }
        Err(refused) => {
            *toss_ups = 0;
            usize::from(refused.refusal)
        }
    }
}

// Solves for the k right-hand columns b, into x, by m by n factors with that many pairs of swaps.
pub fn wejdarox_solve(
    factors: &[f64],
    swaps: &[usize],
    m: usize,
    n: usize,
    pairs: usize,
    dead: usize,
    b: &[f64],
    k: usize,
    x: &mut [f64],
) -> usize
    ensures value { result ≡ number_of (solving factors.now swaps.now (record_of m n pairs dead) b.now k
        x.old).answer }
    ensures x_after { x.new ≡ (solving factors.now swaps.now (record_of m n pairs dead) b.now k x.old).left }
{
    let told = Record {
        rows: m,
        columns: n,
        pairs,
        dead,
    };
    refusals::number_of(from_factors::solve(factors, swaps, told, b, k, x))
}

// The inverse, into x.
pub fn wejdarox_inverse(
    factors: &[f64],
    swaps: &[usize],
    m: usize,
    n: usize,
    pairs: usize,
    dead: usize,
    x: &mut [f64],
) -> usize
    ensures value { result ≡ number_of (inverting factors.now swaps.now (record_of m n pairs dead) x.old).answer }
    ensures x_after { x.new ≡ (inverting factors.now swaps.now (record_of m n pairs dead) x.old).left }
{
    let told = Record {
        rows: m,
        columns: n,
        pairs,
        dead,
    };
    refusals::number_of(from_factors::inverse(factors, swaps, told, x))
}

// The determinant, through value. Refused with 7 it is +0.0, else refused as it was.
pub fn wejdarox_determinant(
    factors: &[f64],
    swaps: &[usize],
    m: usize,
    n: usize,
    pairs: usize,
    dead: usize,
    value: &mut f64,
) -> usize
    ensures value { result ≡ number_of (determining factors.now swaps.now (record_of m n pairs dead)) }
    ensures value_after { value.new ≡ result_after zero64 (determining factors.now swaps.now (record_of m n pairs dead))
        value.old }
{
    let told = Record {
        rows: m,
        columns: n,
        pairs,
        dead,
    };
    match from_factors::determinant(factors, swaps, told) {
        Ok(d) => {
            *value = d;
            0
        }
        Err(refusal) => {
            if refusal == Refusal::Overflow {
                *value = 0.0;
            }
            usize::from(refusal)
        }
    }
}

// The determinant as a significand and a binary exponent. Refused: both as they were.
pub fn wejdarox_scaled_determinant(
    factors: &[f64],
    swaps: &[usize],
    m: usize,
    n: usize,
    pairs: usize,
    dead: usize,
    significand: &mut f64,
    exponent: &mut i32,
) -> usize
    ensures value { result ≡ number_of (scaling factors.now swaps.now (record_of m n pairs dead)) }
    ensures significand_after { significand.new
        ≡ (value_after (scaling factors.now swaps.now (record_of m n pairs dead))
        (scaled significand.old exponent.old)).significand }
    ensures exponent_after { exponent.new
        ≡ (value_after (scaling factors.now swaps.now (record_of m n pairs dead))
        (scaled significand.old exponent.old)).exponent }
{
    let told = Record {
        rows: m,
        columns: n,
        pairs,
        dead,
    };
    match scaled_determinant::scaled_determinant(factors, swaps, told) {
        Ok(d) => {
            let power = d.exponent;
            *significand = d.significand;
            *exponent = power;
            0
        }
        Err(refusal) => usize::from(refusal),
    }
}

// Whether the factored matrix is invertible, through invertible. Refused: as it was.
pub fn wejdarox_is_invertible(
    factors: &[f64],
    swaps: &[usize],
    m: usize,
    n: usize,
    pairs: usize,
    dead: usize,
    invertible: &mut bool,
) -> usize
    ensures value { result ≡ number_of (inverse_test factors.now swaps.now (record_of m n pairs dead)) }
    ensures invertible_after { invertible.new
        ≡ value_after (inverse_test factors.now swaps.now (record_of m n pairs dead)) invertible.old }
{
    let told = Record {
        rows: m,
        columns: n,
        pairs,
        dead,
    };
    match from_factors::is_invertible(factors, swaps, told) {
        Ok(holds) => {
            *invertible = holds;
            0
        }
        Err(refusal) => usize::from(refusal),
    }
}

// Tells a count through a pointer, 0 where there is none. Answers the refusal's number.
pub fn tell_count(answer: Result<usize, Refusal>, count: &mut usize) -> usize
    ensures value { result ≡ number_of (outcome answer) }
    ensures count_after { count.new ≡ count_in (outcome answer) }
{
    match answer {
        Ok(counted) => {
            *count = counted;
            0
        }
        Err(refusal) => {
            *count = 0;
            usize::from(refusal)
        }
    }
}

// Ranks those of the n loads that are not zero, their number through count. Refused: none.
pub fn wejdarox_rank(loads: &[f64], n: usize, ranks: &mut [usize], count: &mut usize) -> usize
    ensures value { result ≡ number_of (ranking (loaded loads.now) loads.now n ranks.old).answer }
    ensures ranks_after { ranks.new ≡ (ranking (loaded loads.now) loads.now n ranks.old).left }
    ensures count_after { count.new ≡ count_in (ranking (loaded loads.now) loads.now n ranks.old).answer }
{
    tell_count(ranking::rank(loads, n, ranks), count)
}

// Ranks all of the n loads. Refused: none.
pub fn wejdarox_rank_all(loads: &[f64], n: usize, ranks: &mut [usize], count: &mut usize) -> usize
    ensures value { result ≡ number_of (ranking every_pad loads.now n ranks.old).answer }
    ensures ranks_after { ranks.new ≡ (ranking every_pad loads.now n ranks.old).left }
    ensures count_after { count.new ≡ count_in (ranking every_pad loads.now n ranks.old).answer }
{
    tell_count(ranking::rank_all(loads, n, ranks), count)
}

// Tells the numbers of pads and of toss-ups, or none, through pointers. Answers the refusal's number.
#[tactic(auto, unfolding(lu::specs::Factoring::tossed_in))]
pub fn tell_order(answer: Result<Order, Refusal>, pads: &mut usize, toss_ups: &mut usize) -> usize
    ensures value { result ≡ number_of (pads_ordered answer) }
    ensures pads_after { pads.new ≡ pads_in (pads_ordered answer) }
    ensures toss_ups_after { toss_ups.new ≡ tossed_in (pads_ordered answer) }
{
    match answer {
        Ok(order) => {
            *pads = order.pads;
            *toss_ups = order.toss_ups;
            0
        }
        Err(refusal) => {
            *pads = 0;
            *toss_ups = 0;
            usize::from(refusal)
        }
    }
}

// The whole answer for a panel file, its number of pads through pads and of toss-ups through toss_ups. Refused: no pads and no toss-ups.
pub fn wejdarox_pad_order(
    file: &[u8],
    ranks: &mut [usize; 64],
    loads: &mut [f64; 64],
    pads: &mut usize,
    toss_ups: &mut usize,
) -> usize
    ensures value { result ≡ number_of (ordering file.now ranks.old loads.old).answer }
    ensures ranks_after { ranks.new ≡ (ordering file.now ranks.old loads.old).left.ranks }
    ensures loads_after { loads.new ≡ (ordering file.now ranks.old loads.old).left.loads }
    ensures pads_after { pads.new ≡ pads_in (ordering file.now ranks.old loads.old).answer }
    ensures toss_ups_after { toss_ups.new ≡ tossed_in (ordering file.now ranks.old loads.old).answer }
{
    tell_order(crossing_pads::pad_order(file, ranks, loads), pads, toss_ups)
}

// The stiffness of a panel file's crossing, as a significand and a binary exponent, with its number of toss-ups. Refused with 7 it is
// +0.0 with 0, else refused as it was; refused there are no toss-ups.
pub fn wejdarox_stiffness(
    file: &[u8],
    significand: &mut f64,
    exponent: &mut i32,
    toss_ups: &mut usize,
) -> usize
    ensures value { result ≡ number_of (stiffness file.now) }
    ensures significand_after { significand.new
        ≡ (result_after vanished (stiffness file.now) (scaled significand.old exponent.old)).significand }
    ensures exponent_after { exponent.new
        ≡ (result_after vanished (stiffness file.now) (scaled significand.old exponent.old)).exponent }
    ensures toss_ups_after { toss_ups.new ≡ tosses_given (factors_in file.now) (toss_ups_in file.now) }
{
    let check = crossing::stiffness(file);
    *toss_ups = check.toss_ups;
    let determinant = check.determinant;
    match determinant {
        Ok(d) => {
            let power = d.exponent;
            *significand = d.significand;
            *exponent = power;
            0
        }
        Err(refusal) => {
            if refusal == Refusal::Overflow {
                *significand = 0.0;
                *exponent = 0;
            }
            usize::from(refusal)
        }
    }
}

// Hands a panel file over to a season, which stands as its sixteen counts and the number of files. Refused with 10, the season being full: all as it was.
pub fn wejdarox_with_file(file: &[u8], season: &mut [usize; 17]) -> usize
    ensures value { result ≡ number_of (handing (season_from season.old) file.now).answer }
    ensures season_after { season.new ≡ counts_of (handing (season_from season.old) file.now).left }
{
    let counts = *season;
    match Season::from_counts(counts).with_file(file) {
        Ok(after) => {
            *season = after.counts();
            0
        }
        Err(full) => {
            *season = full.old.counts();
            usize::from(full.refusal)
        }
    }
}
