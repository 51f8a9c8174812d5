// Factors as slices hold them: the record beside them, what every call on factors tests, and a swap recorded in the store.
#![tactic(auto)]

ghost use Rattle.std.specs.Prelude.{◌≡◌, cond, length, replicate};
ghost use Rattle.refusals.specs.Outcome.{outcome, number_of};
ghost use Rattle.factors.specs.Factors.{pairs_with, store_with};
ghost use Rattle.factors.specs.Held.{held_refusal};

use refusals::Refusal;

// What factoring tells beside the lent factors and swap store: the sizes, the recorded pairs and the dead columns. Every call on factors takes the three
// together.
#[derive(Clone, Copy)]
pub struct Record {
    pub rows: usize,
    pub columns: usize,
    pub pairs: usize,
    pub dead: usize,
}

// What a call on factors asks besides: a square matrix, one that can be solved, and that its further sizes, lengths and numbers, and what it asks of the
// list, are good.
#[derive(Clone, Copy)]
pub struct Asks {
    pub square: bool,
    pub solves: bool,
    pub sizes: bool,
    pub lengths: bool,
    pub list: bool,
    pub numbers: bool,
}

// Refuses what every call on factors refuses: the factors, the swap store and the record tested together, in the order of the numbers but for 9, which
// comes before 6.
#[tactic(auto, unfolding(crate::specs::Held::held_refusal, refusals::specs::Outcome::first_holding))]
pub fn test_held(factors: &[f64], swaps: &[usize], told: Record, asks: Asks) -> Result<(), Refusal>
    ensures { number_of (outcome result) ≡ held_refusal factors.now swaps.now told asks }
{
    let m = told.rows;
    let n = told.columns;
    let sizes = refusals::outside(1, m) | refusals::outside(0, n) | !asks.sizes;
    let lengths = store::is_matrix(factors, m, n) & (swaps.len() == 128) & asks.lengths;
    let good = swap_list::is_good_list(swaps, told.pairs, m, store::min(m, n));
    let numbers = finite::all_finite_long(factors) & asks.numbers;
    let dead = dead_columns::dead_of(factors, m, n);
    refusals::first_of(&[
        (Refusal::Size, sizes),
        (Refusal::NotSquare, asks.square & (m != n)),
        (Refusal::Length, !lengths),
        (Refusal::SwapList, !(good & asks.list)),
        (Refusal::NotFinite, !numbers),
        (Refusal::DeadColumns, told.dead != dead),
        (Refusal::Singular, asks.solves & (told.dead != 0)),
    ])
}

// A truth as a number.
pub fn count(holds: bool) -> usize
    ensures { result ≡ cond holds 1 0 }
{
    usize::from(holds)
}

// Records the swap of the rows i and piv behind the pairs, unless the two are one or the store is full. Answers the number of pairs.
pub fn record_swap(swaps: &mut [usize], pairs: usize, i: usize, piv: usize) -> usize
    ensures value { result ≡ pairs_with swaps.old pairs i piv }
    ensures swaps_after { swaps.new ≡ store_with swaps.old pairs i piv }
{
    if piv == i {
        return pairs;
    }
    if swaps.len() / 2 <= pairs {
        return pairs;
    }
    swaps[2 * pairs] = i;
    swaps[2 * pairs + 1] = piv;
    pairs + 1
}

// Every number of the store becomes 0.
pub fn clear(swaps: &mut [usize])
    ensures { swaps.new ≡ replicate (length swaps.old) 0 }
{
    swaps.fill(0);
}
