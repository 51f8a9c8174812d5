// What four columns of four numbers are asked, and the two passes of their solve, with every size constant.
#![tactic(auto)]

ghost use Rattle.std.specs.Prelude.{◌≡◌};
ghost use Rattle.finite.specs.Finite.{all_finite};
ghost use Rattle.store.specs.Columns.{flat};
ghost use Rattle.four_by_four.specs.System.{listed, matrix_of};
ghost use Rattle.four_passes.specs.Passes.{is_dead, lower_by, upper_by};

use four_by_four::{Rows, System};

// Whether no entry is an infinity or a NaN.
pub fn finite(c: Rows) -> bool
    ensures { result ≡ all_finite (listed c) }
{
    numbers::is_finite(c.0)
        & (numbers::is_finite(c.1) & (numbers::is_finite(c.2) & numbers::is_finite(c.3)))
}

// The same for the columns, by eight products of two entries: each starts at 0.0, stays a zero over finite factors, and is a NaN after any other.
pub fn finite_matrix(s: System) -> bool
    ensures { result ≡ all_finite (flat (matrix_of s)) }
{
    let c0 = s.c0;
    let c1 = s.c1;
    let c2 = s.c2;
    let c3 = s.c3;
    let t0 = 0.0 * c0.0 * c2.0;
    let t1 = 0.0 * c0.1 * c2.1;
    let t2 = 0.0 * c0.2 * c2.2;
    let t3 = 0.0 * c0.3 * c2.3;
    let t4 = 0.0 * c1.0 * c3.0;
    let t5 = 0.0 * c1.1 * c3.1;
    let t6 = 0.0 * c1.2 * c3.2;
    let t7 = 0.0 * c1.3 * c3.3;
    let t = (t0 * t4) * (t2 * t6) * ((t1 * t5) * (t3 * t7));
    t == t
}

// Whether a column is dead: its diagonal is a zero of either sign.
pub fn is_dead(s: System) -> bool
    ensures { result ≡ is_dead s }
{
    let c0 = s.c0;
    let c1 = s.c1;
    let c2 = s.c2;
    let c3 = s.c3;
    numbers::is_zero(c0.0)
        | (numbers::is_zero(c1.1) | (numbers::is_zero(c2.2) | numbers::is_zero(c3.3)))
}

// The readings through the unit lower pass. Its divisions by one are the definition's, and the compiler leaves them out.
pub fn lower(s: System) -> Rows
    ensures { listed result ≡ lower_by s (listed s.x) }
{
    let c0 = s.c0;
    let c1 = s.c1;
    let c2 = s.c2;
    let x = s.x;
    let y = four_by_four::updated(x, 0, -(x.0 / 1.0), c0);
    let z = four_by_four::updated(y, 1, -(y.1 / 1.0), c1);
    four_by_four::updated(z, 2, -(z.2 / 1.0), c2)
}

// The upper pass.
pub fn upper(s: System, y: Rows) -> Rows
    ensures { listed result ≡ upper_by s (listed y) }
{
    let c0 = s.c0;
    let c1 = s.c1;
    let c2 = s.c2;
    let c3 = s.c3;
    let d = y.3 / c3.3;
    let c = (-d * c3.2 + y.2) / c2.2;
    let b = (-c * c2.1 + (-d * c3.1 + y.1)) / c1.1;
    let a = (-b * c1.0 + (-c * c2.0 + (-d * c3.0 + y.0))) / c0.0;
    Rows(a, b, c, d)
}
