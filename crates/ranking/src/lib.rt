// Document 01, "Ranking and program": the pads of a crossing, greatest load first; and document 02, request 9: all of them, or those that carry something.
#![tactic(auto)]

ghost use Rattle.std.specs.Prelude.{◌≡◌, ◌++◌, ℕ, ◌+◌, ◌<◌, length, get_or, take, drop};
ghost use Rattle.ranking.specs.Ranking.{IsPad, ahead, loaded, every_pad, insert_pad, listing, ranking_refusal, padded, ranking};
ghost use Rattle.refusals.specs.Outcome.{outcome, number_of};
ghost use Rattle.ranking.specs.Inner.{choice_by};

use refusals::Refusal;

// Whether pad p comes before pad q: the greater magnitude first, equal magnitudes by the lower number.
fn is_ahead(loads: &[f64], p: usize, q: usize) -> bool
    requires { IsPad (length loads.now) p × IsPad (length loads.now) q }
    ensures { result ≡ ahead loads.now p q }
{
    let a = loads[p - 1];
    let b = loads[q - 1];
    let x = numbers::magnitude(a);
    let y = numbers::magnitude(b);
    if y < x {
        return true;
    }
    if x < y {
        return false;
    }
    p < q
}

// Whether pad p is listed: all are, or those whose load is not zero.
fn is_listed(loads: &[f64], all: bool, p: usize) -> bool
    requires { IsPad (length loads.now) p }
    ensures { result ≡ choice_by all loads.now p }
{
    if all {
        return true;
    }
    !numbers::is_zero(loads[p - 1])
}

// Puts a pad among the `count` pads that are ranked: at each place the pad that is ahead stays, and the other is carried on.
fn insert(loads: &[f64], ranks: &mut [usize], count: usize, pad: usize)
    requires pad { IsPad (length loads.now) pad × (count < length ranks.old) }
    requires by_index { (i : ℕ) → i < count → IsPad (length loads.now) (get_or ranks.old i 0) }
    ensures { ranks.new ≡ insert_pad loads.now pad (take count ranks.old) ++ drop (count + 1) ranks.old }
{
    let mut carried = pad;
    for j in 0..count {
        let held = ranks[j];
        if is_ahead(loads, carried, held) {
            ranks[j] = carried;
            carried = held;
        }
    }
    ranks[count] = carried;
}

// Refuses what ranking refuses, by the tests in their order.
#[tactic(auto, unfolding(crate::specs::Ranking::ranking_refusal, refusals::specs::Outcome::first_holding))]
fn test_ranking(loads: &[f64], n: usize, ranks: &[usize]) -> Result<(), Refusal>
    ensures { number_of (outcome result) ≡ ranking_refusal loads.now n ranks.now }
{
    let lengths = (loads.len() == n) & (ranks.len() == n);
    refusals::first_of(&[
        (Refusal::Size, refusals::outside(1, n)),
        (Refusal::Length, !lengths),
        (Refusal::NotFinite, !finite::all_finite(loads)),
    ])
}

// Lists the pads, all or those that carry something, in a slice as long as the loads: pad after pad its slot becomes 0, and one that is listed is put
// among those before it. Answers how many are listed.
fn list(loads: &[f64], all: bool, ranks: &mut [usize]) -> usize
    requires { length ranks.old ≡ length loads.now }
    ensures value { result ≡ length (listing (choice_by all loads.now) loads.now (length loads.now)) }
    ensures ranks_after { ranks.new
        ≡ padded (length loads.now) (listing (choice_by all loads.now) loads.now (length loads.now)) }
{
    let mut count = 0;
    for k in 0..loads.len() {
        ranks[k] = 0;
        if is_listed(loads, all, k + 1) {
            insert(loads, ranks, count, k + 1);
            count += 1;
        }
    }
    count
}

// Ranks the n loads, all or those that are not zero. Answers how many pads are listed.
fn rank_chosen(loads: &[f64], n: usize, all: bool, ranks: &mut [usize]) -> Result<usize, Refusal>
    ensures result_value { outcome result ≡ (ranking (choice_by all loads.now) loads.now n ranks.old).answer }
    ensures ranks_after { ranks.new ≡ (ranking (choice_by all loads.now) loads.now n ranks.old).left }
{
    test_ranking(loads, n, ranks)?;
    Ok(list(loads, all, ranks))
}

// Ranks those of the n loads that are not zero: the pads' numbers from 1, greatest magnitude first, equal magnitudes by lower number, and 0 behind them.
pub fn rank(loads: &[f64], n: usize, ranks: &mut [usize]) -> Result<usize, Refusal>
    ensures result_value { outcome result ≡ (ranking (loaded loads.now) loads.now n ranks.old).answer }
    ensures ranks_after { ranks.new ≡ (ranking (loaded loads.now) loads.now n ranks.old).left }
{
    rank_chosen(loads, n, false, ranks)
}

// Ranks all of the n loads.
pub fn rank_all(loads: &[f64], n: usize, ranks: &mut [usize]) -> Result<usize, Refusal>
    ensures result_value { outcome result ≡ (ranking every_pad loads.now n ranks.old).answer }
    ensures ranks_after { ranks.new ≡ (ranking every_pad loads.now n ranks.old).left }
{
    rank_chosen(loads, n, true, ranks)
}
