// Step 5 of several elimination steps on columns right of theirs: one by one, or four steps at once (`four_steps`) where all four were made.
#![tactic(auto)]

ghost use Rattle.std.specs.Prelude.{◌≡◌, true, ◌+◌, ◌-◌, ◌<◌, ◌≤◌, min};
ghost use Rattle.numbers.specs.Each.{turns_from};
ghost use Rattle.store.specs.Columns.{columns, is_matrix, on_columns};
ghost use Rattle.updates.specs.Updates.{updated_at, live, after_panel, updated_from};

// Step 5 on column j by column i left of it; nothing where the packed diagonal is zero.
fn update_by(s: &mut [f64], m: usize, n: usize, i: usize, j: usize)
    requires { (is_matrix s.old m n ≡ true) × (i < j) × (j < n) × (i < m) }
    ensures { columns m n s.new ≡ updated_at j i (columns m n s.old) }
{
    let diag = s[i * m + i];
    if numbers::is_zero(diag) {
        return;
    }
    one_step::step_within(s, m, n, i, j);
}

// That by each column from `from` up to but not `to`, in turn.
fn update_each(s: &mut [f64], m: usize, n: usize, from: usize, to: usize, j: usize)
    requires { (is_matrix s.old m n ≡ true) × (from ≤ to) × (to ≤ j) × (j < n) × (to ≤ m) }
    ensures { columns m n s.new ≡ turns_from (updated_at j) from (to - from) (columns m n s.old) }
{
    for i in from..to {
        update_by(s, m, n, i, j);
    }
}

// Whether no step from i to i + 3 was skipped: no zero on their packed diagonal.
fn are_live(s: &[f64], m: usize, n: usize, i: usize) -> bool
    requires { (is_matrix s.now m n ≡ true) × (i + 4 ≤ m) × (i + 4 ≤ n) }
    ensures { result ≡ live i (columns m n s.now) }
{
    let i1 = i + 1;
    let i2 = i + 2;
    let i3 = i + 3;
    let dead = numbers::is_zero(s[i * m + i]) | numbers::is_zero(s[i1 * m + i1]);
    let later_dead = numbers::is_zero(s[i2 * m + i2]) | numbers::is_zero(s[i3 * m + i3]);
    !(dead | later_dead)
}

// Step 5 on each column from `from` on by the columns from i up to but not `to`, which lie left of them, one by one.
fn update_columns_each(s: &mut [f64], m: usize, n: usize, i: usize, to: usize, from: usize)
    requires { (is_matrix s.old m n ≡ true) × (i ≤ to) × (to ≤ m) × (to ≤ from) × (from ≤ n) }
    ensures { columns m n s.new ≡ after_panel i (to - i) from (columns m n s.old) }
{
    for j in from..n {
        update_each(s, m, n, i, to, j);
    }
}

// The same, at once where it is four steps and all were made.
fn update_right(s: &mut [f64], m: usize, n: usize, i: usize, to: usize, from: usize)
    requires { (is_matrix s.old m n ≡ true) × (i ≤ to) × (to ≤ m) × (to ≤ from) × (from ≤ n) }
    ensures { columns m n s.new ≡ after_panel i (to - i) from (columns m n s.old) }
{
    if to - i == 4 {
        if are_live(s, m, n, i) {
            four_steps::four_steps(s, m, n, i, from);
            return;
        }
    }
    update_columns_each(s, m, n, i, to, from);
}

// Step 5 on the last column, number n, by the columns from i up to but not `to`: at once where it is four steps and all were made, one by one where it is
// fewer, else as for all columns to the right.
fn update_new(s: &mut [f64], m: usize, n: usize, i: usize, to: usize)
    requires { (is_matrix s.old m (n + 1) ≡ true) × (i ≤ to) × (to ≤ m) × (to ≤ n) }
    ensures { columns m (n + 1) s.new ≡ turns_from (updated_at n) i (to - i) (columns m (n + 1) s.old) }
{
    let all = n + 1;
    if to - i != 4 {
        update_each(s, m, all, i, to, n);
        return;
    }
    if are_live(s, m, all, i) {
        four_steps::four_steps_on(s, m, all, i, n);
        return;
    }
    update_right(s, m, all, i, to, n);
}

// That by each column i below min(m, n), four at a time.
fn update_all(s: &mut [f64], m: usize, n: usize)
    requires { is_matrix s.old m (n + 1) ≡ true }
    ensures { columns m (n + 1) s.new ≡ turns_from (updated_at n) 0 (min m n) (columns m (n + 1) s.old) }
{
    let all = store::min(m, n);
    for i in (0..all).step_by(4) {
        let to = store::min(i + 4, all);
        update_new(s, m, n, i, to);
    }
}

// Step 5 by the columns from i up to but not `to` on each column from `from` on, where they lie left of those and have so many rows.
pub fn update_columns(s: &mut [f64], m: usize, n: usize, i: usize, to: usize, from: usize)
    ensures { s.new ≡ on_columns m n (updated_from m i to from) s.old }
{
    if !store::is_matrix(s, m, n) {
        return;
    }
    if store::min(m, from) < to {
        return;
    }
    if to < i {
        return;
    }
    if n < from {
        return;
    }
    update_right(s, m, n, i, to, from);
}

// Step 5 on the last column of an m by n + 1 matrix, by each column before it that has a row on the diagonal: fewer than four of them one by one.
pub fn update_last(s: &mut [f64], m: usize, n: usize)
    ensures { s.new ≡ on_columns m (n + 1) (updated_from m 0 (min m n) n) s.old }
{
    if 63 < n {
        return;
    }
    if !store::is_matrix(s, m, n + 1) {
        return;
    }
    let by = store::min(m, n);
    if by < 4 {
        update_each(s, m, n + 1, 0, by, n);
        return;
    }
    update_all(s, m, n);
}
