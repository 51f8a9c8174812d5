// Four elimination steps at once: what four columns do to the columns right of them, number by number as the steps in turn do.
// A slice that does not hold n columns of m entries, both at most 64, stays as it was.
#![tactic(auto)]

ghost use Rattle.std.specs.Prelude.{◌≡◌, true, ◌+◌, ◌≤◌, ◌<◌, length, set};
ghost use Rattle.store.specs.Columns.{columns, is_matrix, on_columns};
ghost use Rattle.store.specs.Steps.{column};
ghost use Rattle.numbers.specs.Column.{entry};
ghost use Rattle.four_steps.specs.FourSteps.{four_steps, four_steps_in, four_stepped, four_stepped_on, set_two, Onward};
ghost use Rattle.four_steps.specs.FourSteps.{Reaches, head_in, minus_of, add_four, four_rows, written_four, tail_left, tails_left};

// The numbers of four rows of a column, from above down.
#[derive(Clone, Copy)]
struct Four {
    first: f64,
    second: f64,
    third: f64,
    fourth: f64,
}

// The rows i + 1 to i + 3 of column j after the four steps.
fn head(s: &mut [f64], m: usize, n: usize, i: usize, j: usize)
    requires n_value { (is_matrix s.old m n ≡ true) × (i + 4 ≤ m) × (i + 4 ≤ j) × (j < n) }
    requires reaches { Reaches m i j (length s.old) }
    ensures { columns m n s.new ≡ head_in i j (columns m n s.old) }
{
    let r1 = i + 1;
    let r2 = i + 2;
    let r3 = i + 3;
    let a0 = i * m;
    let a1 = r1 * m;
    let a2 = r2 * m;
    let b = j * m;
    let f0 = -s[b + i];
    let u1 = f0 * s[a0 + r1] + s[b + r1];
    let f1 = -u1;
    let v2 = f0 * s[a0 + r2] + s[b + r2];
    let u2 = f1 * s[a1 + r2] + v2;
    let v3 = f0 * s[a0 + r3] + s[b + r3];
    let w3 = f1 * s[a1 + r3] + v3;
    let u3 = -u2 * s[a2 + r3] + w3;
    s[b + r1] = u1;
    s[b + r2] = u2;
    s[b + r3] = u3;
}

// Minus the numbers of the rows i to i + 3 of column j: what its steps multiply by.
fn minus(s: &[f64], m: usize, n: usize, i: usize, j: usize) -> Four
    requires { (is_matrix s.now m n ≡ true) × (i + 4 ≤ m) × (j < n) }
    ensures { result ≡ minus_of i (column (columns m n s.now) j) }
{
    let r1 = i + 1;
    let r2 = i + 2;
    let r3 = i + 3;
    let b = j * m;
    Four {
        first: -s[b + i],
        second: -s[b + r1],
        third: -s[b + r2],
        fourth: -s[b + r3],
    }
}

// Row r of column j after the steps, f being what they multiply by.
fn number(s: &[f64], m: usize, n: usize, i: usize, f: Four, j: usize, r: usize) -> f64
    requires { (is_matrix s.now m n ≡ true) × (i + 4 ≤ j) × (j < n) × (r < m) }
    ensures { result ≡ add_four i (columns m n s.now) f r (entry (column (columns m n s.now) j) r) }
{
    let a0 = i * m;
    let a1 = (i + 1) * m;
    let a2 = (i + 2) * m;
    let a3 = (i + 3) * m;
    let b = j * m;
    let v1 = f.first * s[a0 + r] + s[b + r];
    let v2 = f.second * s[a1 + r] + v1;
    let v3 = f.third * s[a2 + r] + v2;
    f.fourth * s[a3 + r] + v3
}

// The rows k to k + 3 in the same way.
fn numbers(s: &[f64], m: usize, n: usize, i: usize, f: Four, j: usize, k: usize) -> Four
    requires { (is_matrix s.now m n ≡ true) × (i + 4 ≤ j) × (j < n) × (k + 4 ≤ m) }
    ensures { result ≡ four_rows i (columns m n s.now) f k (column (columns m n s.now) j) }
{
    let first = number(s, m, n, i, f, j, k);
    let second = number(s, m, n, i, f, j, k + 1);
    let third = number(s, m, n, i, f, j, k + 2);
    let fourth = number(s, m, n, i, f, j, k + 3);
    Four {
        first,
        second,
        third,
        fourth,
    }
}

// Writes x over the rows k to k + 3 of column j.
fn write_four(s: &mut [f64], m: usize, n: usize, j: usize, k: usize, x: Four)
    requires { (is_matrix s.old m n ≡ true) × (j < n) × (k + 4 ≤ m) }
    ensures { columns m n s.new ≡ set (columns m n s.old) j (written_four k x (column (columns m n s.old) j)) }
{
    let k1 = k + 1;
    let k2 = k + 2;
    let k3 = k + 3;
    let b = j * m;
    s[b + k] = x.first;
    s[b + k1] = x.second;
    s[b + k2] = x.third;
    s[b + k3] = x.fourth;
}

// Row r of column j, below row i + 3.
fn row(s: &mut [f64], m: usize, n: usize, i: usize, f: Four, j: usize, r: usize)
    requires { (is_matrix s.old m n ≡ true) × (i + 4 ≤ j) × (j < n) × (i + 4 ≤ r) × (r < m) × (f ≡ minus_of i (column (columns m n s.old) j)) }
    ensures s_after { tail_left i j (r + 1) (columns m n s.new) ≡ tail_left i j r (columns m n s.old) }
    ensures f_value { f ≡ minus_of i (column (columns m n s.new) j) }
{
    let b = j * m;
    s[b + r] = number(s, m, n, i, f, j, r);
}

// The rows of column j from row i + 4 on.
fn tail(s: &mut [f64], m: usize, n: usize, i: usize, j: usize)
    requires { (is_matrix s.old m n ≡ true) × (i + 4 ≤ m) × (i + 4 ≤ j) × (j < n) }
    ensures { columns m n s.new ≡ tail_left i j (i + 4) (columns m n s.old) }
{
    let f = minus(s, m, n, i, j);
    for k in i + 4..m {
        row(s, m, n, i, f, j, k);
    }
}

// The rows of the columns j and j + 1 from row i + 4 on, four at a time: a multiplier is read once for both columns. Answers the first row that is left.
fn two_by_four(s: &mut [f64], m: usize, n: usize, i: usize, j: usize) -> usize
    requires { (is_matrix s.old m n ≡ true) × (i + 4 ≤ m) × (i + 4 ≤ j) × (j + 1 < n) }
    ensures lower_bound { (i + 4 ≤ result) × (result ≤ m) × (m < result + 4) }
    ensures s_after { tails_left i j result (columns m n s.new) ≡ tails_left i j (i + 4) (columns m n s.old) }
{
    let j1 = j + 1;
    let f = minus(s, m, n, i, j);
    let g = minus(s, m, n, i, j1);
    let mut k = i + 4;
    // No `for`: the row behind the last four is the answer, and turns that are counted beforehand would have both it and each row worked out from their number.
    while k + 4 <= m {
        let x = numbers(s, m, n, i, f, j, k);
        let y = numbers(s, m, n, i, g, j1, k);
        write_four(s, m, n, j, k, x);
        write_four(s, m, n, j1, k, y);
        k += 4;
    }
    k
}

// Writes x and y over the rows k and k + 1 of a column. The column is lent by itself: so the compiler sees that the two can be worked out at once.
fn write_two(col: &mut [f64], k: usize, x: f64, y: f64)
    requires { k + 2 ≤ length col.old }
    ensures { col.new ≡ set (set col.old k x) (k + 1) y }
{
    let k1 = k + 1;
    col[k] = x;
    col[k1] = y;
}

// The rows k and k + 1 of the columns j and j + 1, where both are there. Answers the first row that is left.
fn two_by_two(s: &mut [f64], m: usize, n: usize, i: usize, j: usize, k: usize) -> usize
    requires { (is_matrix s.old m n ≡ true) × (i + 4 ≤ m) × (i + 4 ≤ j) × (j + 1 < n) × (i + 4 ≤ k) × (k ≤ m) × (m < k + 4) }
    ensures lower_bound { (i + 4 ≤ result) × (result ≤ m) × (m < result + 2) }
    ensures s_after { tails_left i j result (columns m n s.new) ≡ tails_left i j k (columns m n s.old) }
{
    if m < k + 2 {
        return k;
    }
    let j1 = j + 1;
    let k1 = k + 1;
    let b = j * m;
    let e = b + m;
    let b1 = j1 * m;
    let e1 = b1 + m;
    let f = minus(s, m, n, i, j);
    let g = minus(s, m, n, i, j1);
    let x = number(s, m, n, i, f, j, k);
    let x1 = number(s, m, n, i, f, j, k1);
    let y = number(s, m, n, i, g, j1, k);
    let y1 = number(s, m, n, i, g, j1, k1);
    write_two(&mut s[b..e], k, x, x1);
    write_two(&mut s[b1..e1], k, y, y1);
    k + 2
}

// Row k of the columns j and j + 1, where it is there.
fn two_by_one(s: &mut [f64], m: usize, n: usize, i: usize, j: usize, k: usize)
    requires { (is_matrix s.old m n ≡ true) × (i + 4 ≤ m) × (i + 4 ≤ j) × (j + 1 < n) × (i + 4 ≤ k) × (m < k + 2) }
    ensures { columns m n s.new ≡ tails_left i j k (columns m n s.old) }
{
    if m <= k {
        return;
    }
    let j1 = j + 1;
    let f = minus(s, m, n, i, j);
    row(s, m, n, i, f, j, k);
    let g = minus(s, m, n, i, j1);
    row(s, m, n, i, g, j1, k);
}

// The steps i to i + 3 on column j, by those columns.
fn steps_on(s: &mut [f64], m: usize, n: usize, i: usize, j: usize)
    requires { (is_matrix s.old m n ≡ true) × (i + 4 ≤ m) × (i + 4 ≤ j) × (j < n) }
    ensures { columns m n s.new ≡ four_steps_in i j (columns m n s.old) }
{
    head(s, m, n, i, j);
    tail(s, m, n, i, j);
}

// The same on the columns j and j + 1.
fn steps_on_two(s: &mut [f64], m: usize, n: usize, i: usize, j: usize)
    requires { (is_matrix s.old m n ≡ true) × (i + 4 ≤ m) × (i + 4 ≤ j) × (j + 1 < n) }
    ensures { columns m n s.new ≡ set_two j (four_steps i (columns m n s.old)) (columns m n s.old) }
{
    let j1 = j + 1;
    head(s, m, n, i, j);
    head(s, m, n, i, j1);
    let after_fours = two_by_four(s, m, n, i, j);
    let after_two = two_by_two(s, m, n, i, j, after_fours);
    two_by_one(s, m, n, i, j, after_two);
}

// The same on column j and, where there is one, the next. Answers the column behind.
fn steps_from(s: &mut [f64], m: usize, n: usize, i: usize, j: usize) -> usize
    requires { (is_matrix s.old m n ≡ true) × (i + 4 ≤ m) × (i + 4 ≤ j) × (j < n) }
    ensures { (j < result) × Onward i j (columns m n s.old) result (columns m n s.new) }
{
    let next = j + 1;
    if next == n {
        steps_on(s, m, n, i, j);
        return next;
    }
    steps_on_two(s, m, n, i, j);
    j + 2
}

// The steps on each column from `from` on, where these lie right of those columns and there is a row i + 3.
pub fn four_steps(s: &mut [f64], m: usize, n: usize, i: usize, from: usize)
    ensures { s.new ≡ on_columns m n (four_stepped m i from) s.old }
{
    if !store::is_matrix(s, m, n) {
        return;
    }
    let most = store::min(m, from);
    if most < 4 {
        return;
    }
    if most - 4 < i {
        return;
    }
    let mut j = from;
    // No `for`: a turn takes one column or two and answers the next, so a range would be no plainer.
    while j < n {
        j = steps_from(s, m, n, i, j);
    }
}

// The steps on column j alone, where it is there and lies right of those columns, and there is a row i + 3.
pub fn four_steps_on(s: &mut [f64], m: usize, n: usize, i: usize, j: usize)
    ensures { s.new ≡ on_columns m n (four_stepped_on m i j) s.old }
{
    if !store::is_matrix(s, m, n) {
        return;
    }
    if n <= j {
        return;
    }
    let most = store::min(m, j);
    if most < 4 {
        return;
    }
    if most - 4 < i {
        return;
    }
    steps_on(s, m, n, i, j);
}
