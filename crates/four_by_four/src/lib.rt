// Four columns of four numbers, held by value, and their elimination. Every size is constant, so that the work stays in registers; what comes out is what the
// general steps give, bit for bit.
#![tactic(auto)]

ghost use Rattle.std.specs.Prelude.{◌≡◌, ◌+◌, ◌<◌, ◌≤◌};
ghost use Rattle.numbers.specs.Column.{entry};
ghost use Rattle.min_max.specs.Pivot.{pivot_row};
ghost use Rattle.blas.specs.Blas.{swap_rows, scale_from, axpy_from};
ghost use Rattle.store.specs.Steps.{column, swap_in_all};
ghost use Rattle.four_by_four.specs.System.{listed, matrix_of, Eliminated};
ghost use Rattle.four_by_four.specs.Inner.{next_of, stepped_by, columns_by, Stepped};

// A column's entries from row 0 down.
#[derive(Clone, Copy)]
pub struct Rows(pub f64, pub f64, pub f64, pub f64);

// The columns, and the readings, which take part in the swaps.
#[derive(Clone, Copy)]
pub struct System {
    pub c0: Rows,
    pub c1: Rows,
    pub c2: Rows,
    pub c3: Rows,
    pub x: Rows,
}

// The greatest magnitude so far, and its row.
#[derive(Clone, Copy)]
struct Found {
    top: f64,
    row: usize,
}

// A system after a step, and the row that was swapped with the step's.
#[derive(Clone, Copy)]
struct After {
    system: System,
    row: usize,
}

// A system after all steps, and the rows that the first three swapped with their own. The swaps are recorded from these where nothing can refuse any more:
// recorded before the solve, the whole took 70 ns in a trial, and 55 so.
#[derive(Clone, Copy)]
pub struct Reduced {
    pub system: System,
    pub p: usize,
    pub q: usize,
    pub r: usize,
}

// The entry in row k.
fn entry(c: Rows, k: usize) -> f64
    requires { k < 4 }
    ensures { result ≡ entry (listed c) k }
{
    match k {
        0 => c.0,
        1 => c.1,
        2 => c.2,
        _ => c.3,
    }
}

// The column number j.
fn column(s: System, j: usize) -> Rows
    requires { j < 4 }
    ensures { listed result ≡ column (matrix_of s) j }
{
    match j {
        0 => s.c0,
        1 => s.c1,
        2 => s.c2,
        _ => s.c3,
    }
}

// The search for the pivot of step i goes on in row k, where this is below row i.
fn next(f: Found, i: usize, k: usize, x: f64) -> Found
    ensures { result ≡ next_of f i k x }
{
    if k <= i {
        return f;
    }
    let v = numbers::magnitude(x);
    if v > f.top {
        Found { top: v, row: k }
    } else {
        f
    }
}

// The pivot row of step i.
fn pivot(c: Rows, i: usize) -> usize
    requires { i < 3 }
    ensures { result ≡ pivot_row i (listed c) }
{
    let top = numbers::magnitude(entry(c, i));
    let f0 = Found { top, row: i };
    let f1 = next(f0, i, 1, c.1);
    let f2 = next(f1, i, 2, c.2);
    let f3 = next(f2, i, 3, c.3);
    f3.row
}

// The rows i and p of a column exchanged.
fn exchanged(c: Rows, i: usize, p: usize) -> Rows
    requires { (i < 3) × (i ≤ p) × (p < 4) }
    ensures { listed result ≡ swap_rows i p (listed c) }
{
    match i {
        0 => match p {
            0 => c,
            1 => Rows(c.1, c.0, c.2, c.3),
            2 => Rows(c.2, c.1, c.0, c.3),
            _ => Rows(c.3, c.1, c.2, c.0),
        },
        1 => match p {
            1 => c,
            2 => Rows(c.0, c.2, c.1, c.3),
            _ => Rows(c.0, c.3, c.2, c.1),
        },
        _ => match p {
            2 => c,
            _ => Rows(c.0, c.1, c.3, c.2),
        },
    }
}

// The same in every column, and of the readings.
fn swapped(s: System, i: usize, p: usize) -> System
    requires { (i < 3) × (i ≤ p) × (p < 4) }
    ensures { (matrix_of result ≡ swap_in_all i p (matrix_of s)) × (listed result.x ≡ swap_rows i p (listed s.x)) }
{
    let c0 = s.c0;
    let c1 = s.c1;
    let c2 = s.c2;
    let c3 = s.c3;
    let x = s.x;
    System {
        c0: exchanged(c0, i, p),
        c1: exchanged(c1, i, p),
        c2: exchanged(c2, i, p),
        c3: exchanged(c3, i, p),
        x: exchanged(x, i, p),
    }
}

// The entries below row i times r.
fn scaled(c: Rows, i: usize, r: f64) -> Rows
    requires { i < 3 }
    ensures { listed result ≡ scale_from (i + 1) r (listed c) }
{
    match i {
        0 => Rows(c.0, c.1 * r, c.2 * r, c.3 * r),
        1 => Rows(c.0, c.1, c.2 * r, c.3 * r),
        _ => Rows(c.0, c.1, c.2, c.3 * r),
    }
}

// The entries below row i with u times l's added.
pub fn updated(c: Rows, i: usize, u: f64, l: Rows) -> Rows
    ensures { listed result ≡ axpy_from (i + 1) u (listed l) (listed c) }
{
    match i {
        0 => Rows(c.0, u * l.1 + c.1, u * l.2 + c.2, u * l.3 + c.3),
        1 => Rows(c.0, c.1, u * l.2 + c.2, u * l.3 + c.3),
        2 => Rows(c.0, c.1, c.2, u * l.3 + c.3),
        _ => c,
    }
}

// Column j after step i, l being column i with its multipliers.
fn stepped(c: Rows, i: usize, j: usize, l: Rows) -> Rows
    requires { i < 3 }
    ensures { listed result ≡ stepped_by i j (listed l) (listed c) }
{
    if j < i {
        return c;
    }
    if j == i {
        return l;
    }
    updated(c, i, -entry(c, i), l)
}

// Every column after step i.
fn eliminated(t: System, i: usize, l: Rows) -> System
    requires { i < 3 }
    ensures { (matrix_of result ≡ columns_by i t (listed l)) × (result.x ≡ t.x) }
{
    let c0 = t.c0;
    let c1 = t.c1;
    let c2 = t.c2;
    let c3 = t.c3;
    let x = t.x;
    System {
        c0: stepped(c0, i, 0, l),
        c1: stepped(c1, i, 1, l),
        c2: stepped(c2, i, 2, l),
        c3: stepped(c3, i, 3, l),
        x,
    }
}

// Step i; a dead column skips it.
fn step(s: System, i: usize) -> After
    requires { i < 3 }
    ensures { Stepped i s result }
{
    let c = column(s, i);
    let p = pivot(c, i);
    let t = swapped(s, i, p);
    let q = column(t, i);
    let d = entry(q, i);
    if numbers::is_zero(d) {
        return After { system: s, row: i };
    }
    let l = scaled(q, i, 1.0 / d);
    let system = eliminated(t, i, l);
    After { system, row: p }
}

// All steps; the last changes nothing.
pub fn reduce(s: System) -> Reduced
    ensures { Eliminated s result }
{
    let s0 = step(s, 0);
    let t0 = s0.system;
    let s1 = step(t0, 1);
    let t1 = s1.system;
    let s2 = step(t1, 2);
    let system = s2.system;
    Reduced {
        system,
        p: s0.row,
        q: s1.row,
        r: s2.row,
    }
}
