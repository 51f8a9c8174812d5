// LU decomposition with partial (row) pivoting: linalg/lu.rs of nalgebra 0.35.0, for f64 matrices that lie column after column. A column more or less is in
// `adding` and `columns`, what is read off the factors in `from_factors`.
#![tactic(auto)]

ghost use Rattle.std.specs.Prelude.{◌≡◌, true, [], ◌+◌, ◌<◌, ◌≤◌, length};
ghost use Rattle.store.specs.Columns.{columns, is_matrix};
ghost use Rattle.store.specs.Steps.{column, swap_in_all};
ghost use Rattle.one_step.specs.OneStep.{eliminated};
ghost use Rattle.refusals.specs.Outcome.{outcome, number_of};
ghost use Rattle.factors.specs.Factors.{Factors, store_of};
ghost use Rattle.elimination.specs.Elimination.{scaled, step, eliminate};
ghost use Rattle.elimination.specs.TossUps.{toss_at, toss_ups};
ghost use Rattle.lu.specs.Factoring.{factoring_refusal, factoring, factored, factoring_answer};
ghost use Rattle.lu.specs.PlainStep.{plain_step};
ghost use Rattle.lu.specs.Inner.{Held, Stepped, Settled};

use factors::Record;
use refusals::Refusal;

// What a call answers that makes factors: their record, and at how many of the columns that it worked on the pivot was a toss-up.
#[derive(Clone, Copy)]
pub struct Factored {
    pub told: Record,
    pub toss_ups: usize,
}

// What the steps count as they go.
#[derive(Clone, Copy)]
struct Counts {
    pairs: usize,
    tossed: usize,
}

// Refuses what factoring refuses before the work, by the tests in their order.
#[tactic(auto, unfolding(crate::specs::Factoring::factoring_refusal, refusals::specs::Outcome::first_holding))]
pub fn test_factoring(
    a: &[f64],
    m: usize,
    n: usize,
    out: &[f64],
    swaps: &[usize],
) -> Result<(), Refusal>
    ensures { number_of (outcome result) ≡ factoring_refusal a.now m n out.now swaps.now }
{
    let sizes = refusals::outside(1, m) | refusals::outside(0, n);
    let lengths = store::is_matrix(a, m, n) & store::is_matrix(out, m, n) & (swaps.len() == 128);
    refusals::first_of(&[
        (Refusal::Size, sizes),
        (Refusal::Length, !lengths),
        (Refusal::NotFinite, !finite::all_finite(a)),
    ])
}

// Steps 3 to 5 of step i with pivot row piv: the Rust's swap of the columns before i, and its gauss_step or gauss_step_swap on the rest.
fn gauss_step(s: &mut [f64], m: usize, n: usize, i: usize, piv: usize)
    requires { (is_matrix s.old m n ≡ true) × (i < m) × (i < n) }
    ensures { columns m n s.new ≡ eliminated i (scaled i (swap_in_all i piv (columns m n s.old))) }
{
    let a = i * m;
    let e = a + m;
    let q = a + i;
    store::swap_rows(s, m, n, i, piv, 0, n);
    let inv_diag = 1.0 / s[q];
    blas::scale(&mut s[a..e], i + 1, inv_diag);
    one_step::eliminate(s, m, n, i);
}

// Step i by itself on an m by n matrix, its swap not recorded; nothing where s is none such or has no row or no column i.
pub fn plain_step(s: &mut [f64], m: usize, n: usize, i: usize)
    ensures { s.new ≡ plain_step s.old m n i }
{
    if !store::is_matrix(s, m, n) {
        return;
    }
    if store::min(m, n) <= i {
        return;
    }
    let a = i * m;
    let e = a + m;
    let found = min_max::icamax(&s[a..e], i);
    let piv = found.row;
    let q = a + piv;
    if numbers::is_zero(s[q]) {
        return;
    }
    gauss_step(s, m, n, i, piv);
}

// Step i. Answers the counts with it.
fn factor_step(
    s: &mut [f64],
    m: usize,
    n: usize,
    i: usize,
    swaps: &mut [usize],
    counts: Counts,
) -> Counts
    requires i_lt_m { (i < m) × (i < n) × (counts.pairs ≤ i) × (counts.tossed ≤ i) }
    requires n_value { (is_matrix s.old m n ≡ true) × (length swaps.old ≡ 128) }
    ensures held { (f : Factors) → Held s.old m n swaps.old counts.pairs f
        → Held s.new m n swaps.new result.pairs (step i f) }
    ensures pairs_bound { (result.pairs ≤ i + 1) × (result.tossed ≤ i + 1) × (counts.pairs ≤ result.pairs) }
    ensures tossed_value { result.tossed ≡ counts.tossed + toss_at i (column (columns m n s.old) i) }
{
    let pairs = counts.pairs;
    let tossed = counts.tossed;
    let a = i * m;
    let e = a + m;
    let found = min_max::icamax(&s[a..e], i);
    let piv = found.row;
    let toss_up = found.tossed;
    let q = a + piv;
    let diag = s[q];
    if numbers::is_zero(diag) {
        return Counts { pairs, tossed };
    }
    gauss_step(s, m, n, i, piv);
    let now_pairs = factors::record_swap(swaps, pairs, i, piv);
    let own = factors::count(toss_up);
    Counts {
        pairs: now_pairs,
        tossed: tossed + own,
    }
}

// The steps from `from` up to but not `to`. Answers the counts with them.
fn factor_steps(
    s: &mut [f64],
    m: usize,
    n: usize,
    from: usize,
    to: usize,
    swaps: &mut [usize],
    counts: Counts,
) -> Counts
    requires from_le_to { (from ≤ to) × (to ≤ m) × (to ≤ n) × (counts.pairs ≤ from) × (counts.tossed ≤ from) }
    requires n_value { (is_matrix s.old m n ≡ true) × (length swaps.old ≡ 128) }
    ensures { Stepped s.old m n from to swaps.old counts result s.new swaps.new }
{
    let mut now = counts;
    for i in from..to {
        now = factor_step(s, m, n, i, swaps, now);
    }
    now
}

// The steps i to i + 3 as a panel: on their own columns first, then their swaps and updates on the columns to the right.
fn factor_panel(
    s: &mut [f64],
    m: usize,
    n: usize,
    i: usize,
    swaps: &mut [usize],
    counts: Counts,
) -> Counts
    requires i_bound { (i + 4 ≤ m) × (i + 4 ≤ n) × (counts.pairs ≤ i) × (counts.tossed ≤ i) }
    requires n_value { (is_matrix s.old m n ≡ true) × (length swaps.old ≡ 128) }
    ensures { Stepped s.old m n i (i + 4) swaps.old counts result s.new swaps.new }
{
    let pairs = counts.pairs;
    let e = i + 4;
    let z = e * m;
    let right = n - e;
    let now = factor_steps(&mut s[..z], m, e, i, e, swaps, counts);
    let first = 2 * pairs;
    let more = now.pairs - pairs;
    exchanges::apply_to_rows(&mut s[z..], m, right, &swaps[first..], more, false);
    updates::update_columns(s, m, n, i, e, e);
    now
}

// All steps of the m by n matrix in s, in panels as long as more than eight are left. Answers what they counted.
fn factor_in_place(s: &mut [f64], m: usize, n: usize, swaps: &mut [usize]) -> Counts
    requires { (is_matrix s.old m n ≡ true) × (swaps.old ≡ store_of []) }
    ensures held { Held s.new m n swaps.new result.pairs (eliminate m (columns m n s.old)) }
    ensures tossed_value { result.tossed ≡ toss_ups m (columns m n s.old) }
{
    let min_nrows_ncols = store::min(m, n);
    let mut counts = Counts {
        pairs: 0,
        tossed: 0,
    };
    let mut i = 0;
    // A while, since a for is no plainer: the steps that are left begin where the panels end.
    while 8 < min_nrows_ncols - i {
        counts = factor_panel(s, m, n, i, swaps, counts);
        i += 4;
    }
    factor_steps(s, m, n, i, min_nrows_ncols, swaps, counts)
}

// Factors the m by n matrix in s where it lies, past the tests.
fn factor_tested(
    s: &mut [f64],
    m: usize,
    n: usize,
    swaps: &mut [usize],
) -> Result<Factored, Refusal>
    requires { (is_matrix s.old m n ≡ true) × (length swaps.old ≡ 128) }
    ensures { Settled s.old m n result s.new swaps.new }
{
    factors::clear(swaps);
    let counts = factor_in_place(s, m, n, swaps);
    let pairs = counts.pairs;
    let toss_ups = counts.tossed;
    if finite::all_finite(s) {
        let dead = dead_columns::dead_of(s, m, n);
        let told = Record {
            rows: m,
            columns: n,
            pairs,
            dead,
        };
        return Ok(Factored { told, toss_ups });
    }
    blas::fill_zero(s);
    factors::clear(swaps);
    Err(Refusal::Overflow)
}

// Factors the m by n matrix a into out, and records the swaps.
pub fn factor(
    a: &[f64],
    m: usize,
    n: usize,
    out: &mut [f64],
    swaps: &mut [usize],
) -> Result<Factored, Refusal>
    ensures result_value { factored result ≡ factoring_answer a.now m n out.old swaps.old }
    ensures out_after { out.new ≡ (factoring a.now m n out.old swaps.old).left.factors }
    ensures swaps_after { swaps.new ≡ (factoring a.now m n out.old swaps.old).left.store }
{
    test_factoring(a, m, n, out, swaps)?;
    blas::copy(out, a);
    factor_tested(out, m, n, swaps)
}

// The same where the matrix lies: its slice is read as the matrix and holds the factors afterwards.
pub fn factor_mut(
    s: &mut [f64],
    m: usize,
    n: usize,
    swaps: &mut [usize],
) -> Result<Factored, Refusal>
    ensures result_value { factored result ≡ factoring_answer s.old m n s.old swaps.old }
    ensures s_after { s.new ≡ (factoring s.old m n s.old swaps.old).left.factors }
    ensures swaps_after { swaps.new ≡ (factoring s.old m n s.old swaps.old).left.store }
{
    test_factoring(s, m, n, s, swaps)?;
    factor_tested(s, m, n, swaps)
}
