// The calls of `ffi_reasons` for C, under the same names: include/wejdarox.h is the caller's side.
#![tactic(auto)]

ghost use Rattle.std.specs.Prelude.{◌≡◌};
ghost use Rattle.factors.specs.Factors.{record_of};
ghost use Rattle.lu.specs.Factoring.{factoring};
ghost use Rattle.from_factors.specs.Solving.{solving};
ghost use Rattle.why.specs.Why.{explain_factoring, explain_solving};
ghost use Rattle.ffi_reasons.specs.Why.{place_told, spot_told};

// Explains `wejdarox_factor`, and leaves the slices as that call does.
#[unsafe(no_mangle)]
pub extern "C" fn wejdarox_why_factor(
    a: &[f64],
    m: usize,
    n: usize,
    factors: &mut [f64],
    swaps: &mut [usize],
    step: &mut usize,
    column: &mut usize,
    row: &mut usize,
) -> usize
    ensures value { result ≡ (explain_factoring a.now m n factors.old swaps.old).number }
    ensures factors_after { factors.new ≡ (factoring a.now m n factors.old swaps.old).left.factors }
    ensures swaps_after { swaps.new ≡ (factoring a.now m n factors.old swaps.old).left.store }
    ensures step_after { step.new ≡ (place_told (explain_factoring a.now m n factors.old swaps.old)).step }
    ensures column_after { column.new ≡ (place_told (explain_factoring a.now m n factors.old swaps.old)).column }
    ensures row_after { row.new ≡ (place_told (explain_factoring a.now m n factors.old swaps.old)).row }
{
    ffi_reasons::wejdarox_why_factor(a, m, n, factors, swaps, step, column, row)
}

// Explains `wejdarox_solve`, and leaves x as that call does.
#[unsafe(no_mangle)]
pub extern "C" fn wejdarox_why_solve(
    factors: &[f64],
    swaps: &[usize],
    m: usize,
    n: usize,
    pairs: usize,
    dead: usize,
    b: &[f64],
    k: usize,
    x: &mut [f64],
    pass: &mut usize,
    column: &mut usize,
    row: &mut usize,
) -> usize
    ensures value { result ≡ (explain_solving factors.now swaps.now (record_of m n pairs dead) b.now k x.old).number }
    ensures x_after { x.new ≡ (solving factors.now swaps.now (record_of m n pairs dead) b.now k x.old).left }
    ensures pass_after { pass.new
        ≡ (spot_told (explain_solving factors.now swaps.now (record_of m n pairs dead) b.now k x.old)).pass }
    ensures column_after { column.new
        ≡ (spot_told (explain_solving factors.now swaps.now (record_of m n pairs dead) b.now k x.old)).column }
    ensures row_after { row.new
        ≡ (spot_told (explain_solving factors.now swaps.now (record_of m n pairs dead) b.now k x.old)).row }
{
    ffi_reasons::wejdarox_why_solve(
        factors, swaps, m, n, pairs, dead, b, k, x, pass, column, row,
    )
}
