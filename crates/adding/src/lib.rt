// Document 01, "Adding a column": one column more for the factors of `lu`.
#![tactic(auto)]

ghost use Rattle.std.specs.Prelude.{◌≡◌, true, cond, ◌+◌, ◌*◌, ◌≤◌, min, length};
ghost use Rattle.min_max.specs.TossUp.{toss_up};
ghost use Rattle.store.specs.Columns.{columns, is_matrix};
ghost use Rattle.swap_list.specs.SwapList.{good_list};
ghost use Rattle.refusals.specs.Outcome.{outcome, number_of};
ghost use Rattle.factors.specs.Factors.{record_after};
ghost use Rattle.elimination.specs.Own.{own_row, own_column};
ghost use Rattle.adding.specs.Adding.{adding_refusal, adding, added, record_in, adding_answer};
ghost use Rattle.adding.specs.Inner.{Ready, with_reduced, Joined, AddedTo};

use factors::Record;
use lu::Factored;
use min_max::FoundPivot;
use refusals::{Refusal, Refused};

// Whether s holds n columns of m entries and room for one more.
fn has_room(s: &[f64], m: usize, n: usize) -> bool
    ensures { result ≡ is_matrix s.now m (n + 1) }
{
    if 63 < n {
        return false;
    }
    store::is_matrix(s, m, n + 1)
}

// How many numbers stand before the slot of a store that has one; else 0.
fn older(s: &[f64], m: usize, n: usize, room: bool) -> usize
    requires { room ≡ is_matrix s.now m (n + 1) }
    ensures { (result ≡ cond room (n * m) 0) × (result ≤ length s.now) }
{
    // With no slot the tests of numbers go over the first 0: that is a length, and an Option would have it put in again.
    if room {
        return n * m;
    }
    0
}

// Refuses what adding refuses before the work, by the tests in their order.
fn test_adding(s: &[f64], c: &[f64], swaps: &[usize], told: Record) -> Result<(), Refusal>
    ensures { number_of (outcome result) ≡ adding_refusal s.now c.now swaps.now told }
{
    let m = told.rows;
    let n = told.columns;
    let sizes = refusals::outside(1, m) | (63 < n);
    let room = has_room(s, m, n);
    let lengths = room & (swaps.len() == 128) & (c.len() == m);
    let list = swap_list::is_good_list(swaps, told.pairs, m, store::min(m, n));
    let a = older(s, m, n, room);
    let front = &s[..a];
    let numbers = finite::all_finite_long(front) & finite::all_finite(c);
    let dead = dead_columns::dead_of(front, m, n);
    refusals::first_of(&[
        (Refusal::Size, sizes),
        (Refusal::Length, !lengths),
        (Refusal::SwapList, !list),
        (Refusal::NotFinite, !numbers),
        (Refusal::DeadColumns, told.dead != dead),
    ])
}

// The raw column c in the slot behind the n columns: permuted by the list, then updated by the older columns.
fn reduce_column(s: &mut [f64], m: usize, n: usize, c: &[f64], swaps: &[usize], pairs: usize)
    requires n_value { (is_matrix s.old m (n + 1) ≡ true) × (length c.now ≡ m) × (good_list swaps.now pairs m (min m n) ≡ true) }
    requires m_in_bounds { n * m + m ≤ length s.old }
    ensures { columns m (n + 1) s.new ≡ with_reduced s.old m n c.now swaps.now pairs }
{
    let a = n * m;
    let e = a + m;
    blas::copy(&mut s[a..e], c);
    exchanges::apply_to_rows(&mut s[a..e], m, 1, swaps, pairs, false);
    updates::update_last(s, m, n);
}

// The new column's own step, n being its number. Answers the row that row n was exchanged with, and whether the pivot was a toss-up.
fn own_step(col: &mut [f64], n: usize) -> FoundPivot
    ensures row_value { (result.row ≡ own_row n col.old) × (result.tossed ≡ toss_up n col.old) }
    ensures col_after { col.new ≡ own_column n col.old }
{
    if col.len() <= n {
        return FoundPivot {
            row: n,
            tossed: false,
        };
    }
    let found = min_max::icamax(col, n);
    let piv = found.row;
    let tossed = found.tossed;
    let diag = col[piv];
    if numbers::is_zero(diag) {
        return FoundPivot {
            row: n,
            tossed: false,
        };
    }
    blas::swap(col, n, piv);
    let inv_diag = 1.0 / col[n];
    blas::scale(col, n + 1, inv_diag);
    FoundPivot { row: piv, tossed }
}

// The column, reduced and stepped in its slot, joined to the older ones: their two rows exchanged, and the swap recorded. Answers the new record, with so many
// dead columns.
fn join(s: &mut [f64], swaps: &mut [usize], told: Record, piv: usize, dead: usize) -> Record
    requires { told.columns ≤ 63 }
    ensures { Joined s.old swaps.old told piv dead result s.new swaps.new }
{
    let m = told.rows;
    let n = told.columns;
    let all = n + 1;
    store::swap_rows(s, m, all, n, piv, 0, n);
    let pairs = factors::record_swap(swaps, told.pairs, n, piv);
    Record {
        rows: m,
        columns: all,
        pairs,
        dead,
    }
}

// Adds the raw column, past the tests.
fn add_tested(
    s: &mut [f64],
    c: &[f64],
    swaps: &mut [usize],
    told: Record,
) -> Result<Factored, Refused<Record>>
    requires { Ready s.old c.now swaps.old told }
    ensures { AddedTo s.old c.now swaps.old told result s.new swaps.new }
{
    let m = told.rows;
    let n = told.columns;
    let a = n * m;
    let e = a + m;
    reduce_column(s, m, n, c, swaps, told.pairs);
    let found = own_step(&mut s[a..e], n);
    if !finite::all_finite(&s[a..e]) {
        blas::fill_zero(&mut s[a..e]);
        return Err(Refused {
            refusal: Refusal::Overflow,
            old: told,
        });
    }
    let toss_ups = factors::count(found.tossed);
    let own = dead_columns::dead_at(&s[a..e], n);
    let dead = told.dead + own;
    let new = join(s, swaps, told, found.row, dead);
    Ok(Factored {
        told: new,
        toss_ups,
    })
}

// Adds the raw column c to the factors in s, which has room for it behind its columns. Answers the new record, and 0 or 1 for a toss-up of the column's own
// pivot; refused, the old record.
#[tactic(auto, using(crate::proofs::Adds::ready))]
pub fn add_column(
    s: &mut [f64],
    c: &[f64],
    swaps: &mut [usize],
    told: Record,
) -> Result<Factored, Refused<Record>>
    ensures result_value { added result ≡ adding_answer s.old c.now swaps.old told }
    ensures record_value { record_in result ≡ record_after told (adding s.old c.now swaps.old told).answer }
    ensures s_after { s.new ≡ (adding s.old c.now swaps.old told).left.factors }
    ensures swaps_after { swaps.new ≡ (adding s.old c.now swaps.old told).left.store }
{
    match test_adding(s, c, swaps, told) {
        Ok(()) => add_tested(s, c, swaps, told),
        Err(refusal) => Err(Refused { refusal, old: told }),
    }
}
