// Document 02, request 13: the band of a crossing, by the least magnitude on the diagonal of its factors.
#![tactic(auto)]

ghost use Rattle.std.specs.Prelude.{◌≡◌, ◌<◌, true, not, T, IfSome};
ghost use Rattle.std.specs.Float.Ieee.{is_nan};
ghost use Rattle.store.specs.Columns.{columns, is_matrix};
ghost use Rattle.bands.specs.Bands.{least_on_diagonal, biased, band_of, band_on, band_number};

// The least magnitude on the diagonal of n by n factors; an infinity where they have no number.
#[tactic(auto, using(store::proofs::Columns::sized, store::proofs::Columns::column_within))]
fn least_on_diagonal(t: &[f64], n: usize) -> f64
    requires { is_matrix t.now n n ≡ true }
    ensures { result ≡ least_on_diagonal n (columns n n t.now) }
{
    let mut least = f64::from_bits(0x7ff0_0000_0000_0000);
    for i in 0..n {
        let a = i * n;
        let p = a + i;
        let x = numbers::magnitude(t[p]);
        let lower = x < least;
        if lower {
            least = x;
        }
    }
    least
}

// The 11 bits of the biased exponent.
fn exponent(x: f64) -> u64
    requires { T (not (is_nan x)) }
    ensures { result ≡ biased x }
{
    f64::to_bits(x) / 0x10_0000_0000_0000 % 2048
}

// The band of a biased exponent, from 0.
fn band_of(exponent: u64) -> Option<usize>
    ensures value { band_number result ≡ band_of exponent }
    ensures below_five { IfSome result (λ band. band < 5) }
{
    match exponent {
        0 => Some(0),
        1..=511 => Some(1),
        512..=1022 => Some(2),
        1023..=1534 => Some(3),
        1535..=2046 => Some(4),
        _ => None,
    }
}

// The band of the n by n factors t, from 0, by the least magnitude on their diagonal; none where t holds no such factors or none of these numbers is finite.
pub fn band(t: &[f64], n: usize) -> Option<usize>
    ensures value { band_number result ≡ band_on t.now n }
    ensures below_five { IfSome result (λ band. band < 5) }
{
    if store::is_matrix(t, n, n) {
        band_of(exponent(least_on_diagonal(t, n)))
    } else {
        None
    }
}
