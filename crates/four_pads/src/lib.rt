// Document 02, request 11: the short panel with exactly four pads, its matrix held by value as four columns of four numbers. What comes out is what the general
// path gives, bit for bit.
#![tactic(auto)]

ghost use Rattle.std.specs.Prelude.{◌≡◌};
ghost use Rattle.store.specs.Columns.{flat};
ghost use Rattle.four_by_four.specs.System.{listed, matrix_of, recorded_by};
ghost use Rattle.four_pads.specs.Profile.{refused_with, four_of, four_pads};
ghost use Rattle.four_pads.specs.Inner.{held_as, loaded_by};

use four_by_four::{Reduced, Rows, System};

// What the profile answers: the refusal's number, 0 for none, the packed factors by column, how many swaps are recorded, their row numbers, two a pair and then
// zeros, and the loads. A refusal's are zeros. It is no Result: "any refusal returns zeros" (request 11), and the contract of `four_pads` says so.
#[derive(Clone, Copy)]
pub struct FourPads {
    pub number: usize,
    pub factors: [f64; 16],
    pub pairs: usize,
    pub swaps: [usize; 8],
    pub loads: [f64; 4],
}

// How many swaps are recorded, and the front of the store that holds them.
#[derive(Clone, Copy)]
struct Pairs(usize, [usize; 8]);

// A refusal's number, and zeros.
pub fn refused(number: usize) -> FourPads
    ensures { result ≡ refused_with number }
{
    FourPads {
        number,
        factors: [0.0f64; 16],
        pairs: 0,
        swaps: [0usize; 8],
        loads: [0.0f64; 4],
    }
}

// The entries of an array by name.
fn entries(c: [f64; 4]) -> Rows
    ensures { listed result ≡ c }
{
    Rows(c[0], c[1], c[2], c[3])
}

// The swaps that three steps record, p, q and r being the rows that they swapped with their own.
fn recorded(p: usize, q: usize, r: usize) -> Pairs
    ensures { result ≡ held_as (recorded_by p q r) }
{
    if p == 0 {
        if q == 1 {
            if r == 2 {
                return Pairs(0, [0usize; 8]);
            }
            return Pairs(1, [2, r, 0, 0, 0, 0, 0, 0]);
        }
        if r == 2 {
            return Pairs(1, [1, q, 0, 0, 0, 0, 0, 0]);
        }
        return Pairs(2, [1, q, 2, r, 0, 0, 0, 0]);
    }
    if q == 1 {
        if r == 2 {
            return Pairs(1, [0, p, 0, 0, 0, 0, 0, 0]);
        }
        return Pairs(2, [0, p, 2, r, 0, 0, 0, 0]);
    }
    if r == 2 {
        return Pairs(2, [0, p, 1, q, 0, 0, 0, 0]);
    }
    Pairs(3, [0, p, 1, q, 2, r, 0, 0])
}

// The columns in a row.
fn packed(s: System) -> [f64; 16]
    ensures { result ≡ flat (matrix_of s) }
{
    let p = s.c0;
    let q = s.c1;
    let r = s.c2;
    let t = s.c3;
    [
        p.0, p.1, p.2, p.3, q.0, q.1, q.2, q.3, r.0, r.1, r.2, r.3, t.0, t.1, t.2, t.3,
    ]
}

// What finite factors come to: the profile with its loads, or a refusal.
fn loaded(e: Reduced) -> FourPads
    ensures { result ≡ loaded_by e }
{
    let f = e.system;
    if four_passes::is_dead(f) {
        return refused(6);
    }
    let y = four_passes::lower(f);
    let x = four_passes::upper(f, y);
    if !four_passes::finite(x) {
        return refused(7);
    }
    let pairs = recorded(e.p, e.q, e.r);
    let factors = packed(f);
    let swaps = pairs.1;
    FourPads {
        number: 0,
        factors,
        pairs: pairs.0,
        swaps,
        loads: [x.0, x.1, x.2, x.3],
    }
}

// The profile of a system: tested, eliminated, tested again and solved.
fn solved(s: System) -> FourPads
    ensures { result ≡ four_of (flat (matrix_of s)) (listed s.x) }
{
    let x = s.x;
    let ok = four_passes::finite_matrix(s) & four_passes::finite(x);
    if !ok {
        return refused(5);
    }
    let e = four_by_four::reduce(s);
    let f = e.system;
    if !four_passes::finite_matrix(f) {
        return refused(7);
    }
    loaded(e)
}

// The factors, swaps and loads of a crossing of four pads, by its matrix column by column and its readings.
pub fn four_pads(matrix: [[f64; 4]; 4], readings: [f64; 4]) -> FourPads
    ensures { result ≡ four_pads matrix readings }
{
    let a = matrix[0];
    let b = matrix[1];
    let c = matrix[2];
    let d = matrix[3];
    let s = System {
        c0: entries(a),
        c1: entries(b),
        c2: entries(c),
        c3: entries(d),
        x: entries(readings),
    };
    solved(s)
}
