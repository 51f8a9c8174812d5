// Document 02, request 10: the determinant of factored matrices as a significand and a binary exponent, so that it neither vanishes nor overflows.
#![tactic(auto)]

ghost use Rattle.std.specs.Prelude.{◌≡◌, true, false, ◌<◌, ◌/◌, ◌%◌};
ghost use Rattle.std.specs.Int.Signed.{mag};
ghost use Rattle.std.specs.Float.{binary64};
ghost use Rattle.std.specs.Float.Ieee.{to_bits};
ghost use Rattle.finite.specs.Finite.{all_finite};
ghost use Rattle.store.specs.Columns.{columns, is_matrix};
ghost use Rattle.solve.specs.Calls.{zero_on_diagonal};
ghost use Rattle.scaled_determinant.specs.Scaled.{parts_of, halved_at_two, scaled_times};
ghost use Rattle.refusals.specs.Outcome.{outcome};
ghost use Rattle.scaled_determinant.specs.Determinant.{scaled_product, signed_by, scaling};
ghost use Rattle.scaled_determinant.specs.Range.{InRange, AnswerRanged};
ghost use Rattle.scaled_determinant.specs.Inner.{Parted};

use factors::{Asks, Record, test_held};
use refusals::Refusal;

// The significand times two to the exponent. The significand is of magnitude from 1 up to but not 2; or it is +0.0, with the exponent 0.
#[derive(Clone, Copy)]
pub struct Scaled {
    pub significand: f64,
    pub exponent: i32,
}

// The parts of a normal number: its bits with the exponent's field of 1.0, and its own field less that one.
fn normal_parts(x: f64) -> Scaled
    requires { Parted x × (0 < to_bits binary64 x / 0x10_0000_0000_0000 % 2048) }
    ensures { result ≡ parts_of x }
{
    let bits = f64::to_bits(x);
    let field = bits / 0x10_0000_0000_0000 % 2048;
    let s = f64::from_bits(bits - field * 0x10_0000_0000_0000 + 0x3ff0_0000_0000_0000);
    Scaled {
        significand: s,
        exponent: field as i32 - 1023,
    }
}

// The parts of a finite number that is not zero. A subnormal one is first made normal, times 2^54, which is exact.
fn parts_of(x: f64) -> Scaled
    requires { Parted x }
    ensures { result ≡ parts_of x }
{
    let field = f64::to_bits(x) / 0x10_0000_0000_0000 % 2048;
    if field == 0 {
        let p = normal_parts(x * 18014398509481984.0);
        return Scaled {
            significand: p.significand,
            exponent: p.exponent - 54,
        };
    }
    normal_parts(x)
}

// A product of significands with its exponent: from magnitude 2 on halved, and one added.
fn halved_at_two(s: f64, e: i32) -> Scaled
    requires { mag e < 0x5000_0000 }
    ensures { result ≡ halved_at_two s e }
{
    if numbers::magnitude(s) >= 2.0 {
        return Scaled {
            significand: s * 0.5,
            exponent: e + 1,
        };
    }
    Scaled {
        significand: s,
        exponent: e,
    }
}

// One diagonal more: the significands multiplied and rounded once, the exponents added.
fn times(r: Scaled, x: f64) -> Scaled
    requires { Parted x × (mag r.exponent < 0x4000_0000) }
    ensures { result ≡ scaled_times r x }
{
    let parts = parts_of(x);
    halved_at_two(
        r.significand * parts.significand,
        r.exponent + parts.exponent,
    )
}

// One times each number of the diagonal in turn, none of which is zero.
fn scaled_product(factors: &[f64], n: usize) -> Scaled
    requires { (is_matrix factors.now n n ≡ true) × (all_finite factors.now ≡ true) × (zero_on_diagonal factors.now n ≡ false) }
    ensures { result ≡ scaled_product n (columns n n factors.now) }
{
    let mut r = Scaled {
        significand: 1.0,
        exponent: 0,
    };
    for i in 0..n {
        let a = i * n;
        let q = a + i;
        r = times(r, factors[q]);
    }
    r
}

// The same with the sign of the swaps.
fn signed_product(factors: &[f64], n: usize, pairs: usize) -> Scaled
    requires { (is_matrix factors.now n n ≡ true) × (all_finite factors.now ≡ true) × (zero_on_diagonal factors.now n ≡ false) }
    ensures value { result ≡ signed_by pairs (scaled_product n (columns n n factors.now)) }
    ensures in_range { InRange result }
{
    let r = scaled_product(factors, n);
    Scaled {
        significand: r.significand * permutation_sequence::determinant(pairs),
        exponent: r.exponent,
    }
}

// The determinant of the factored matrix as a significand and an exponent: +0.0 with 0 where a column is dead.
pub fn scaled_determinant(factors: &[f64], swaps: &[usize], told: Record) -> Result<Scaled, Refusal>
    ensures result_value { outcome result ≡ scaling factors.now swaps.now told }
    ensures answer_ranged { AnswerRanged result }
{
    let asks = Asks {
        square: true,
        solves: false,
        sizes: true,
        lengths: true,
        list: true,
        numbers: true,
    };
    test_held(factors, swaps, told, asks)?;
    if told.dead != 0 {
        return Ok(Scaled {
            significand: 0.0,
            exponent: 0,
        });
    }
    Ok(signed_product(factors, told.rows, told.pairs))
}
