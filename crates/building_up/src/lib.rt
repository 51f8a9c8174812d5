// Factors built up from no columns, one column added after another.
#![tactic(auto)]

ghost use Rattle.std.specs.Prelude.{◌≡◌, []};
ghost use Rattle.factors.specs.Factors.{store_of};
ghost use Rattle.lu.specs.Factoring.{factoring_refusal, factoring, factored, factoring_answer};
ghost use Rattle.building_up.specs.Inner.{AllAdded};

use factors::Record;
use lu::Factored;
use refusals::Refusal;

// Adds the columns of the m by n matrix a one by one, from none on. Answers the last record, or refusal 7 where a column is refused.
fn add_all(
    a: &[f64],
    m: usize,
    n: usize,
    out: &mut [f64],
    swaps: &mut [usize],
) -> Result<Factored, Refusal>
    requires swaps_value { factoring_refusal a.now m n out.old swaps.old ≡ 0 }
    requires swaps_value_2 { swaps.old ≡ store_of [] }
    ensures { AllAdded a.now m n result out.new swaps.new }
{
    let mut told = Record {
        rows: m,
        columns: 0,
        pairs: 0,
        dead: 0,
    };
    let mut tossed = 0;
    for k in 0..n {
        let b = k * m;
        let e = b + m;
        let Ok(added) = adding::add_column(&mut out[..e], &a[b..e], swaps, told) else {
            return Err(Refusal::Overflow);
        };
        told = added.told;
        tossed += added.toss_ups;
    }
    Ok(Factored {
        told,
        toss_ups: tossed,
    })
}

// Factors the m by n matrix a into out by adding its columns one by one: the same outcome as `factor`, on every input.
pub fn build_up(
    a: &[f64],
    m: usize,
    n: usize,
    out: &mut [f64],
    swaps: &mut [usize],
) -> Result<Factored, Refusal>
    ensures result_value { factored result ≡ factoring_answer a.now m n out.old swaps.old }
    ensures out_after { out.new ≡ (factoring a.now m n out.old swaps.old).left.factors }
    ensures swaps_after { swaps.new ≡ (factoring a.now m n out.old swaps.old).left.store }
{
    lu::test_factoring(a, m, n, out, swaps)?;
    factors::clear(swaps);
    let answer = add_all(a, m, n, out, swaps);
    if answer.is_err() {
        blas::fill_zero(out);
        factors::clear(swaps);
    }
    answer
}
