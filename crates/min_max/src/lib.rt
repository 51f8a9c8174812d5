// The pivot search: base/min_max.rs of nalgebra 0.35.0, for f64, and whether the pivot was a toss-up.
#![tactic(auto)]

ghost use Rattle.std.specs.Prelude.{◌≡◌, ◌≤◌, ◌<◌, ◌+◌, length, drop};
ghost use Rattle.min_max.specs.TossUp.{shared_from, above_from, pivot_of};

// What the pivot search answers: the row, and whether another one at or below has its magnitude, this not being zero.
#[derive(Clone, Copy)]
pub struct FoundPivot {
    pub row: usize,
    pub tossed: bool,
}

// The first row from `from` on whose magnitude is above `top`, or the row behind the last. A loop of its own, so that the search goes from
// one greatest row so far to the next by a jump that the processor foresees, and waits for no comparison between them.
fn next_above(col: &[f64], from: usize, top: f64) -> usize
    requires { from ≤ length col.now }
    ensures { result ≡ above_from top from (drop from col.now) }
{
    let mut k = from;
    // No `for`, which would be no plainer: k is the answer at the end too. With two answers the pivot search took 7 to 11 % longer at 16 and 30 rows.
    while k < col.len() {
        if numbers::magnitude(col[k]) > top {
            return k;
        }
        k += 1;
    }
    k
}

// Whether a row below `row` has the magnitude `top`.
fn is_shared(col: &[f64], row: usize, top: f64) -> bool
    requires { row < length col.now }
    ensures { result ≡ shared_from top row (row + 1) (drop (row + 1) col.now) }
{
    for k in row + 1..col.len() {
        if numbers::magnitude(col[k]) == top {
            return true;
        }
    }
    false
}

// The first row at or below `from` with the greatest magnitude, and whether it was a toss-up: no row above the pivot row can share its
// magnitude. With no row to look at, the row is `from`.
pub fn icamax(col: &[f64], from: usize) -> FoundPivot
    ensures { result ≡ pivot_of from col.now }
{
    if col.len() <= from {
        return FoundPivot {
            row: from,
            tossed: false,
        };
    }
    let mut the_i = from;
    let mut i = next_above(col, from + 1, numbers::magnitude(col[from]));
    // No `for`: the next row is what the search answers, so a range or an iterator over the rows would be no plainer.
    while i < col.len() {
        the_i = i;
        i = next_above(col, i + 1, numbers::magnitude(col[i]));
    }
    let the_max = numbers::magnitude(col[the_i]);
    let tossed = !numbers::is_zero(the_max) & is_shared(col, the_i, the_max);
    FoundPivot { row: the_i, tossed }
}
