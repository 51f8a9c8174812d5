// Document 01, "Refusal numbers": what the calls share of testing their input and of answering.
#![tactic(auto)]

ghost use Rattle.std.specs.Prelude.{◌≡◌};
ghost use Rattle.refusals.specs.Outcome.{outcome, number, number_of, first_holding, numbered};
ghost use Rattle.refusals.specs.Refusals.{outside, seventh};

// Why a call refuses: the kinds of document 01, "Refusal numbers", and of document 02's requests 7 and 13.
#[derive(Clone, Copy, Debug, PartialEq, Eq)]
pub enum Refusal {
    Size,
    NotSquare,
    Length,
    SwapList,
    NotFinite,
    Singular,
    Overflow,
    NotAPanelFile,
    DeadColumns,
    SeasonFull,
}

impl From<Refusal> for usize {
    ghost from_gives = { λ refusal n. n ≡ number refusal };

    fn from(refusal: Refusal) -> usize {
        match refusal {
            Refusal::Size => 1,
            Refusal::NotSquare => 2,
            Refusal::Length => 3,
            Refusal::SwapList => 4,
            Refusal::NotFinite => 5,
            Refusal::Singular => 6,
            Refusal::Overflow => 7,
            Refusal::NotAPanelFile => 8,
            Refusal::DeadColumns => 9,
            Refusal::SeasonFull => 10,
        }
    }
}

// A refusal of a call that goes on from a value: why, and that value as it was handed in.
#[derive(Clone, Copy, Debug, PartialEq, Eq)]
pub struct Refused<T> {
    pub refusal: Refusal,
    pub old: T,
}

// Whether a size lies outside `least` to 64.
#[tactic(auto, unfolding(crate::specs::Refusals::outside))]
pub fn outside(least: usize, size: usize) -> bool
    ensures { result ≡ outside least size }
{
    if size < least {
        return true;
    }
    64 < size
}

// "Tested in this order; the first that holds is given": the refusals with their tests, all of which are made.
pub fn first_of(tests: &[(Refusal, bool)]) -> Result<(), Refusal>
    ensures { number_of (outcome result) ≡ first_holding (numbered tests.now) }
{
    for (refusal, holds) in tests {
        if *holds {
            return Err(*refusal);
        }
    }
    Ok(())
}

// Refusal 7: where some result is not finite, all results become +0.0.
#[tactic(auto, unfolding(crate::specs::Refusals::seventh))]
pub fn settle(res: &mut [f64]) -> Result<(), Refusal>
    ensures value { outcome result ≡ (seventh res.old).answer }
    ensures res_after { res.new ≡ (seventh res.old).left }
{
    if finite::all_finite(res) {
        return Ok(());
    }
    blas::fill_zero(res);
    Err(Refusal::Overflow)
}

// The refusal's number, 0 for none: what a call for C answers.
pub fn number_of(answer: Result<(), Refusal>) -> usize
    ensures { result ≡ number_of (outcome answer) }
{
    match answer {
        Ok(()) => 0,
        Err(refusal) => usize::from(refusal),
    }
}
