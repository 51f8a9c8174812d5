// Swap lists: what a list is, whether it is good, and a pair written behind its last; the list of linalg/permutation_sequence.rs of nalgebra 0.35.0.
// A list is a store of whole numbers, two a pair, and a count of pairs.
#![tactic(auto)]

ghost use Rattle.std.specs.Prelude.{◌≡◌};
ghost use Rattle.swap_list.specs.SwapList.{good_pair, good_list};
ghost use Rattle.refusals.specs.Outcome.{outcome, number_of};
ghost use Rattle.swap_list.specs.Appending.{appending_refusal, appending, appended, count_of};

use refusals::{Refusal, Refused};

// Whether i and j are two different numbers below the bound.
fn is_good_pair(i: usize, j: usize, bound: usize) -> bool
    ensures { result ≡ good_pair bound (i, j) }
{
    (i != j) & (i < bound) & (j < bound)
}

// Whether the list has at most `most` pairs, the store holds them, and each is of two different numbers below the bound.
// No branch for a pair: most lists are good.
pub fn is_good_list(swaps: &[usize], pairs: usize, bound: usize, most: usize) -> bool
    ensures { result ≡ good_list swaps.now pairs bound most }
{
    if most < pairs {
        return false;
    }
    if swaps.len() / 2 < pairs {
        return false;
    }
    let mut good = true;
    for k in 0..pairs {
        let i = swaps[2 * k];
        let j = swaps[2 * k + 1];
        good = good & is_good_pair(i, j, bound);
    }
    good
}

// Refuses to append (i, i2) to a list for dimension d, by the tests in their order.
#[tactic(auto, unfolding(crate::specs::Appending::appending_refusal, refusals::specs::Outcome::first_holding))]
fn test_appending(
    swaps: &[usize],
    pairs: usize,
    d: usize,
    i: usize,
    i2: usize,
) -> Result<(), Refusal>
    ensures { number_of (outcome result) ≡ appending_refusal swaps.now pairs d i i2 }
{
    refusals::first_of(&[
        (Refusal::Size, refusals::outside(1, d)),
        (Refusal::Length, swaps.len() != 128),
        (Refusal::SwapList, !is_good_list(swaps, pairs, 64, d)),
        (Refusal::SwapList, (64 <= i) | (64 <= i2)),
        (Refusal::SwapList, (i != i2) & (pairs == d)),
    ])
}

// Appends the pair (i, i2) to a list for dimension d; two equal numbers add nothing. Answers how many pairs there are then, refused too.
#[tactic(auto, using(crate::proofs::Appending::room))]
pub fn append_permutation(
    swaps: &mut [usize],
    pairs: usize,
    d: usize,
    i: usize,
    i2: usize,
) -> Result<usize, Refused<usize>>
    ensures result_value { appended result ≡ (appending swaps.old pairs d i i2).answer }
    ensures count_value { count_of result ≡ (appending swaps.old pairs d i i2).left.pairs }
    ensures swaps_after { swaps.new ≡ (appending swaps.old pairs d i i2).left.store }
{
    match test_appending(swaps, pairs, d, i, i2) {
        Ok(()) => {}
        Err(refusal) => {
            return Err(Refused {
                refusal,
                old: pairs,
            });
        }
    }
    if i == i2 {
        return Ok(pairs);
    }
    swaps[2 * pairs] = i;
    swaps[2 * pairs + 1] = i2;
    Ok(pairs + 1)
}
