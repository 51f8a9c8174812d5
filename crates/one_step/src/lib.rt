// One step of the elimination, step 5 of document 01, on the columns of a matrix that lie column after column in a slice. A slice that does not hold n columns
// of m entries, both at most 64, stays as it was.
#![tactic(auto)]

ghost use Rattle.std.specs.Prelude.{◌≡◌, true, ◌<◌, length, set};
ghost use Rattle.std.specs.Float.{binary64};
ghost use Rattle.std.specs.Float.Ieee.{add};
ghost use Rattle.numbers.specs.Column.{entry};
ghost use Rattle.store.specs.Columns.{columns, is_matrix, on_columns};
ghost use Rattle.one_step.specs.OneStep.{stepped_in, eliminated};

// One entry of a column in step 5: p, the product of minus the pivot row's entry and the entry's multiplier, plus itself.
fn step_entry(c: &mut [f64], k: usize, p: f64)
    requires { k < length c.old }
    ensures { c.new ≡ set c.old k (add binary64 p (entry c.old k)) }
{
    c[k] = p + c[k];
}

// Step i on column j, by column i of the same store: each entry below row i takes minus the entry of row i, the one number copied, times its multiplier.
// Column j is handed on as its own part of the store, to be written there.
fn step_inner(s: &mut [f64], m: usize, n: usize, i: usize, j: usize)
    requires { (is_matrix s.old m n ≡ true) × (i < m) × (i < n) × (j < n) }
    ensures { columns m n s.new ≡ stepped_in i j (columns m n s.old) }
{
    let a = i * m;
    let b = j * m;
    let e = b + m;
    let u = -s[b + i];
    for k in i + 1..m {
        let p = u * s[a + k];
        step_entry(&mut s[b..e], k, p);
    }
}

// That, where the columns and row i are there.
pub fn step_within(s: &mut [f64], m: usize, n: usize, i: usize, j: usize)
    ensures { s.new ≡ on_columns m n (stepped_in i j) s.old }
{
    if !store::is_matrix(s, m, n) {
        return;
    }
    if n <= j {
        return;
    }
    if store::min(m, n) <= i {
        return;
    }
    step_inner(s, m, n, i, j);
}

// Step i on the columns right of column i, whose entries below row i are the multipliers.
pub fn eliminate(s: &mut [f64], m: usize, n: usize, i: usize)
    ensures { s.new ≡ on_columns m n (eliminated i) s.old }
{
    if !store::is_matrix(s, m, n) {
        return;
    }
    if store::min(m, n) <= i {
        return;
    }
    for j in i + 1..n {
        step_inner(s, m, n, i, j);
    }
}
