// The triangular solves and the swap lists for C and Rust, in the form of `ffi`: a slice is a pointer and a length, a refusal's number is the answer, and a
// further number is written through a pointer. Each hands its arguments on and adds nothing of its own; include/wejdarox.h is the caller's side.
#![tactic(auto)]

ghost use Rattle.std.specs.Prelude.{◌≡◌, true, false};
ghost use Rattle.refusals.specs.Outcome.{number_of};
ghost use Rattle.permutation_sequence.specs.Calls.{sign_of};
ghost use Rattle.permutation_sequence.specs.Calls.{permuting_rows, permuting_columns};
ghost use Rattle.swap_list.specs.Appending.{appending};
ghost use Rattle.triangular_passes.specs.declared.Pass.{Pass};
ghost use Rattle.triangular_passes.specs.declared.Pass.TheVariants.{Lower, Upper, GivenDiagonal, CorrectedDiagonal, TransposedLower, TransposedUpper};
ghost use Rattle.solve.specs.Calls.{solving};

// Solves by the lower triangle of the n by n matrix t for the k right-hand columns b, into x.
pub fn wejdarox_solve_lower_triangular(
    t: &[f64],
    n: usize,
    b: &[f64],
    k: usize,
    x: &mut [f64],
) -> usize
    ensures value { result ≡ number_of (solving Lower t.now n b.now k x.old).answer }
    ensures x_after { x.new ≡ (solving Lower t.now n b.now k x.old).left }
{
    refusals::number_of(solve::solve_lower_triangular(t, n, b, k, x))
}

// The same by the upper triangle.
pub fn wejdarox_solve_upper_triangular(
    t: &[f64],
    n: usize,
    b: &[f64],
    k: usize,
    x: &mut [f64],
) -> usize
    ensures value { result ≡ number_of (solving Upper t.now n b.now k x.old).answer }
    ensures x_after { x.new ≡ (solving Upper t.now n b.now k x.old).left }
{
    refusals::number_of(solve::solve_upper_triangular(t, n, b, k, x))
}

// The same by the lower triangle with diag in place of each number of its diagonal, as the original does it.
pub fn wejdarox_solve_lower_triangular_with_diag(
    t: &[f64],
    n: usize,
    b: &[f64],
    k: usize,
    x: &mut [f64],
    diag: f64,
) -> usize
    ensures value { result ≡ number_of (solving (GivenDiagonal diag) t.now n b.now k x.old).answer }
    ensures x_after { x.new ≡ (solving (GivenDiagonal diag) t.now n b.now k x.old).left }
{
    refusals::number_of(solve::solve_lower_triangular_with_diag(t, n, b, k, x, diag))
}

// The same, corrected: every row is divided by diag.
pub fn wejdarox_solve_lower_triangular_with_diag_corrected(
    t: &[f64],
    n: usize,
    b: &[f64],
    k: usize,
    x: &mut [f64],
    diag: f64,
) -> usize
    ensures value { result ≡ number_of (solving (CorrectedDiagonal diag) t.now n b.now k x.old).answer }
    ensures x_after { x.new ≡ (solving (CorrectedDiagonal diag) t.now n b.now k x.old).left }
{
    refusals::number_of(solve::solve_lower_triangular_with_diag_corrected(t, n, b, k, x, diag))
}

// The same by the transposed lower triangle.
pub fn wejdarox_tr_solve_lower_triangular(
    t: &[f64],
    n: usize,
    b: &[f64],
    k: usize,
    x: &mut [f64],
) -> usize
    ensures value { result ≡ number_of (solving TransposedLower t.now n b.now k x.old).answer }
    ensures x_after { x.new ≡ (solving TransposedLower t.now n b.now k x.old).left }
{
    refusals::number_of(solve::tr_solve_lower_triangular(t, n, b, k, x))
}

// The same by the transposed upper triangle.
pub fn wejdarox_tr_solve_upper_triangular(
    t: &[f64],
    n: usize,
    b: &[f64],
    k: usize,
    x: &mut [f64],
) -> usize
    ensures value { result ≡ number_of (solving TransposedUpper t.now n b.now k x.old).answer }
    ensures x_after { x.new ≡ (solving TransposedUpper t.now n b.now k x.old).left }
{
    refusals::number_of(solve::tr_solve_upper_triangular(t, n, b, k, x))
}

// Appends the pair (i, i2) to a list of *pairs pairs for dimension d; equal numbers append nothing. Refused: all as it was.
pub fn wejdarox_append_permutation(
    swaps: &mut [usize],
    pairs: &mut usize,
    d: usize,
    i: usize,
    i2: usize,
) -> usize
    ensures value { result ≡ number_of (appending swaps.old pairs.old d i i2).answer }
    ensures swaps_after { swaps.new ≡ (appending swaps.old pairs.old d i i2).left.store }
    ensures pairs_after { pairs.new ≡ (appending swaps.old pairs.old d i i2).left.pairs }
{
    let was = *pairs;
    match swap_list::append_permutation(swaps, was, d, i, i2) {
        Ok(count) => {
            *pairs = count;
            0
        }
        Err(refused) => {
            *pairs = refused.old;
            usize::from(refused.refusal)
        }
    }
}

// Exchanges rows of the m by n matrix a, the first pair first.
pub fn wejdarox_permute_rows(
    a: &mut [f64],
    m: usize,
    n: usize,
    swaps: &[usize],
    pairs: usize,
) -> usize
    ensures value { result ≡ number_of (permuting_rows false a.old m n swaps.now pairs).answer }
    ensures a_after { a.new ≡ (permuting_rows false a.old m n swaps.now pairs).left }
{
    refusals::number_of(permutation_sequence::permute_rows(a, m, n, swaps, pairs))
}

// The same, the last pair first.
pub fn wejdarox_inv_permute_rows(
    a: &mut [f64],
    m: usize,
    n: usize,
    swaps: &[usize],
    pairs: usize,
) -> usize
    ensures value { result ≡ number_of (permuting_rows true a.old m n swaps.now pairs).answer }
    ensures a_after { a.new ≡ (permuting_rows true a.old m n swaps.now pairs).left }
{
    refusals::number_of(permutation_sequence::inv_permute_rows(a, m, n, swaps, pairs))
}

// Exchanges columns of the m by n matrix a, the first pair first.
pub fn wejdarox_permute_columns(
    a: &mut [f64],
    m: usize,
    n: usize,
    swaps: &[usize],
    pairs: usize,
) -> usize
    ensures value { result ≡ number_of (permuting_columns false a.old m n swaps.now pairs).answer }
    ensures a_after { a.new ≡ (permuting_columns false a.old m n swaps.now pairs).left }
{
    refusals::number_of(permutation_sequence::permute_columns(a, m, n, swaps, pairs))
}

// The same, the last pair first.
pub fn wejdarox_inv_permute_columns(
    a: &mut [f64],
    m: usize,
    n: usize,
    swaps: &[usize],
    pairs: usize,
) -> usize
    ensures value { result ≡ number_of (permuting_columns true a.old m n swaps.now pairs).answer }
    ensures a_after { a.new ≡ (permuting_columns true a.old m n swaps.now pairs).left }
{
    refusals::number_of(permutation_sequence::inv_permute_columns(a, m, n, swaps, pairs))
}

// The sign of a list of so many pairs: 1.0 or -1.0.
pub fn wejdarox_permutation_sign(pairs: usize) -> f64
    ensures { result ≡ sign_of pairs }
{
    permutation_sequence::determinant(pairs)
}
