// Permuting by a swap list: linalg/permutation_sequence.rs of nalgebra 0.35.0, for f64 matrices that lie column after column in a slice.
#![tactic(auto)]

ghost use Rattle.std.specs.Prelude.{◌≡◌, true, false};
ghost use Rattle.refusals.specs.Outcome.{outcome, number_of};
ghost use Rattle.exchanges.specs.Permute.{exchange_of};
ghost use Rattle.permutation_sequence.specs.Calls.{permuting_refusal, permuting, permuting_rows, permuting_columns, sign_of};

use refusals::Refusal;

// The determinant of the permutation, which is its sign.
pub fn determinant(pairs: usize) -> f64
    ensures { result ≡ sign_of pairs }
{
    if pairs % 2 == 0 { 1.0 } else { -1.0 }
}

// Refuses what permuting refuses, by the tests in their order; the bound is the row count, for columns the column count.
#[tactic(auto, unfolding(crate::specs::Calls::permuting_refusal, refusals::specs::Outcome::first_holding))]
pub fn test_permuting(
    s: &[f64],
    m: usize,
    n: usize,
    swaps: &[usize],
    pairs: usize,
    bound: usize,
) -> Result<(), Refusal>
    ensures { number_of (outcome result) ≡ permuting_refusal s.now m n swaps.now pairs bound }
{
    let sizes = refusals::outside(1, m) | refusals::outside(0, n);
    let lengths = store::is_matrix(s, m, n) & (swaps.len() == 128);
    let good = swap_list::is_good_list(swaps, pairs, bound, 64);
    refusals::first_of(&[
        (Refusal::Size, sizes),
        (Refusal::Length, !lengths),
        (Refusal::SwapList, !good),
        (Refusal::NotFinite, !finite::all_finite(s)),
    ])
}

// Permutes, or refuses; the bound is the row count, for columns the column count.
fn permute_or_refuse(
    s: &mut [f64],
    m: usize,
    n: usize,
    swaps: &[usize],
    pairs: usize,
    bound: usize,
    columns: bool,
    reverse: bool,
) -> Result<(), Refusal>
    ensures result_value { outcome result ≡ (permuting (exchange_of columns) bound reverse s.old m n swaps.now pairs).answer }
    ensures s_after { s.new ≡ (permuting (exchange_of columns) bound reverse s.old m n swaps.now pairs).left }
{
    test_permuting(s, m, n, swaps, pairs, bound)?;
    exchanges::apply(s, m, n, swaps, pairs, columns, reverse);
    Ok(())
}

// Applies the list to the rows of s, first pair first.
pub fn permute_rows(
    s: &mut [f64],
    m: usize,
    n: usize,
    swaps: &[usize],
    pairs: usize,
) -> Result<(), Refusal>
    ensures result_value { outcome result ≡ (permuting_rows false s.old m n swaps.now pairs).answer }
    ensures s_after { s.new ≡ (permuting_rows false s.old m n swaps.now pairs).left }
{
    permute_or_refuse(s, m, n, swaps, pairs, m, false, false)
}

// Applies the list in reverse to the rows of s, last pair first.
pub fn inv_permute_rows(
    s: &mut [f64],
    m: usize,
    n: usize,
    swaps: &[usize],
    pairs: usize,
) -> Result<(), Refusal>
    ensures result_value { outcome result ≡ (permuting_rows true s.old m n swaps.now pairs).answer }
    ensures s_after { s.new ≡ (permuting_rows true s.old m n swaps.now pairs).left }
{
    permute_or_refuse(s, m, n, swaps, pairs, m, false, true)
}

// Applies the list to the columns of s, first pair first.
pub fn permute_columns(
    s: &mut [f64],
    m: usize,
    n: usize,
    swaps: &[usize],
    pairs: usize,
) -> Result<(), Refusal>
    ensures result_value { outcome result ≡ (permuting_columns false s.old m n swaps.now pairs).answer }
    ensures s_after { s.new ≡ (permuting_columns false s.old m n swaps.now pairs).left }
{
    permute_or_refuse(s, m, n, swaps, pairs, n, true, false)
}

// Applies the list in reverse to the columns of s, last pair first.
pub fn inv_permute_columns(
    s: &mut [f64],
    m: usize,
    n: usize,
    swaps: &[usize],
    pairs: usize,
) -> Result<(), Refusal>
    ensures result_value { outcome result ≡ (permuting_columns true s.old m n swaps.now pairs).answer }
    ensures s_after { s.new ≡ (permuting_columns true s.old m n swaps.now pairs).left }
{
    permute_or_refuse(s, m, n, swaps, pairs, n, true, true)
}
