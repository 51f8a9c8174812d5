// The last column taken off the factors of `lu` (document 02, request 2).
#![tactic(auto)]

ghost use Rattle.std.specs.Prelude.{◌≡◌, ◌+◌, ◌-◌, ◌*◌, ◌<◌, ◌≤◌, min, length, get_or, set};
ghost use Rattle.store.specs.Columns.{on_columns};
ghost use Rattle.store.specs.Steps.{rows_swapped};
ghost use Rattle.swap_list.specs.SwapList.{pairs_of};
ghost use Rattle.refusals.specs.Outcome.{outcome, outcome_or_old, number_of};
ghost use Rattle.factors.specs.Factors.{record_after};
ghost use Rattle.elimination.specs.Removing.{undoes};
ghost use Rattle.removing.specs.Removing.{good_undoing, removing_refusal, removing, record_in};
ghost use Rattle.removing.specs.Inner.{RemovableIf, Ready, RemovedFrom};

use factors::{Asks, Record};
use refusals::{Refusal, Refused};

// Whether the last pair begins with the number of the last column.
fn undoes_swap(swaps: &[usize], pairs: usize, last: usize) -> bool
    requires { 2 * pairs ≤ length swaps.now }
    ensures { result ≡ undoes last (pairs_of pairs swaps.now) }
{
    if pairs == 0 {
        return false;
    }
    swaps[2 * pairs - 2] == last
}

// Whether the last column, number `last`, can be taken off a good list.
fn is_removable(swaps: &[usize], pairs: usize, m: usize, last: usize) -> bool
    requires { (2 * pairs ≤ length swaps.now) × (pairs ≤ min m (last + 1)) }
    ensures { result ≡ good_undoing m last (pairs_of pairs swaps.now) }
{
    if undoes_swap(swaps, pairs, last) {
        return last <= swaps[2 * pairs - 1];
    }
    pairs <= store::min(m, last)
}

// The same of any list; a list that is not good is not removable.
fn is_good_to_remove(swaps: &[usize], told: Record) -> bool
    ensures { RemovableIf swaps.now told result }
{
    let m = told.rows;
    let n = told.columns;
    let pairs = told.pairs;
    if swap_list::is_good_list(swaps, pairs, m, store::min(m, n)) {
        return is_removable(swaps, pairs, m, n.saturating_sub(1));
    }
    false
}

// Refuses what removing refuses.
#[tactic(auto, using(crate::proofs::Removes::refusal_found))]
fn test_removing(s: &[f64], swaps: &[usize], told: Record) -> Result<(), Refusal>
    ensures { number_of (outcome result) ≡ removing_refusal s.now swaps.now told }
{
    let asks = Asks {
        square: false,
        solves: false,
        sizes: 1 <= told.columns,
        lengths: true,
        list: is_good_to_remove(swaps, told),
        numbers: true,
    };
    factors::test_held(s, swaps, told, asks)
}

// Undoes the last pair: its two rows exchanged in the n older columns, and the pair zero.
fn undo(s: &mut [f64], m: usize, n: usize, swaps: &mut [usize], pairs: usize)
    requires { (n < 64) × (0 < pairs) × (pairs ≤ 64) × (length swaps.old ≡ 128) }
    ensures s_after { s.new ≡ on_columns m (n + 1) (rows_swapped n (get_or swaps.old (2 * pairs - 1) 0) 0 n) s.old }
    ensures swaps_after { swaps.new ≡ set (set swaps.old (2 * pairs - 2) 0) (2 * pairs - 1) 0 }
{
    let second = swaps[2 * pairs - 1];
    store::swap_rows(s, m, n + 1, n, second, 0, n);
    swaps[2 * pairs - 2] = 0;
    swaps[2 * pairs - 1] = 0;
}

// Takes the last column off, past the tests.
fn remove_tested(s: &mut [f64], swaps: &mut [usize], told: Record) -> Record
    requires { Ready s.old swaps.old told }
    ensures { RemovedFrom s.old swaps.old told (Ok result) s.new swaps.new }
{
    let m = told.rows;
    let n = told.columns - 1;
    let pairs = told.pairs;
    let a = n * m;
    let e = a + m;
    let own = dead_columns::dead_at(&s[a..e], n);
    let dead = told.dead - own;
    blas::fill_zero(&mut s[a..e]);
    if undoes_swap(swaps, pairs, n) {
        undo(s, m, n, swaps, pairs);
        return Record {
            rows: m,
            columns: n,
            pairs: pairs - 1,
            dead,
        };
    }
    Record {
        rows: m,
        columns: n,
        pairs,
        dead,
    }
}

// Takes the last column off the factors in s: the factors before it was added, its slot zero. Answers the new record; refused, the old one.
#[tactic(auto, using(crate::proofs::Removes::ready), unfolding(crate::specs::Removing::removing, refusals::specs::Outcome::tested))]
pub fn remove_column(
    s: &mut [f64],
    swaps: &mut [usize],
    told: Record,
) -> Result<Record, Refused<Record>>
    ensures result_value { outcome_or_old result ≡ (removing s.old swaps.old told).answer }
    ensures record_value { record_in result ≡ record_after told (removing s.old swaps.old told).answer }
    ensures s_after { s.new ≡ (removing s.old swaps.old told).left.factors }
    ensures swaps_after { swaps.new ≡ (removing s.old swaps.old told).left.store }
{
    match test_removing(s, swaps, told) {
        Ok(()) => Ok(remove_tested(s, swaps, told)),
        Err(refusal) => Err(Refused { refusal, old: told }),
    }
}
