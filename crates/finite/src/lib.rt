// Whether all numbers of a slice are finite.
#![tactic(auto)]

ghost use Rattle.std.specs.Prelude.{◌≡◌, ◌≤◌, length, drop};
ghost use Rattle.std.specs.Float.{binary64};
ghost use Rattle.std.specs.Float.Ieee.{mul};
ghost use Rattle.numbers.specs.Each.{each_from};
ghost use Rattle.numbers.specs.Column.{entry};
ghost use Rattle.finite.specs.Finite.{all_finite};

// Whether no entry from row `from` on is an infinity or a NaN.
fn rest_finite(s: &[f64], from: usize) -> bool
    ensures { result ≡ all_finite (drop from s.now) }
{
    for k in from..s.len() {
        if !numbers::is_finite(s[k]) {
            return false;
        }
    }
    true
}

// Whether no entry from row `from` on is an infinity or a NaN. By eight products, with no branch for an entry: each starts at 0.0, stays a zero over
// finite factors, and is a NaN after any other. Fewer than eight entries are tested one by one.
fn finite_by_eight(s: &[f64], from: usize) -> bool
    requires { from ≤ length s.now }
    ensures { result ≡ all_finite (drop from s.now) }
{
    if s.len() - from < 8 {
        return rest_finite(s, from);
    }
    let mut t0 = 0.0f64;
    let mut t1 = 0.0f64;
    let mut t2 = 0.0f64;
    let mut t3 = 0.0f64;
    let mut t4 = 0.0f64;
    let mut t5 = 0.0f64;
    let mut t6 = 0.0f64;
    let mut t7 = 0.0f64;
    let (blocks, rest) = s[from..].as_chunks::<8>();
    for block in blocks {
        t0 = t0 * block[0];
        t1 = t1 * block[1];
        t2 = t2 * block[2];
        t3 = t3 * block[3];
        t4 = t4 * block[4];
        t5 = t5 * block[5];
        t6 = t6 * block[6];
        t7 = t7 * block[7];
    }
    let t = (t0 * t4) * (t2 * t6) * ((t1 * t5) * (t3 * t7));
    (t == t) & rest_finite(rest, 0)
}

// Multiplies each product by the entry at its own place of a block.
fn times_block(products: &mut [f64], x: &[f64])
    requires { length products.old ≤ length x.now }
    ensures { products.new ≡ each_from (λ k t. mul binary64 t (entry x.now k)) 0 products.old }
{
    for k in 0..products.len() {
        products[k] = products[k] * x[k];
    }
}

// Whether no entry is an infinity or a NaN.
pub fn all_finite(s: &[f64]) -> bool
    ensures { result ≡ all_finite s.now }
{
    finite_by_eight(s, 0)
}

// The same, for slices that may be long: from 128 entries on by 24 such products, as many as keep the processor busy while each waits for
// its last factor.
pub fn all_finite_long(s: &[f64]) -> bool
    ensures { result ≡ all_finite s.now }
{
    if s.len() < 128 {
        return finite_by_eight(s, 0);
    }
    let mut products = [0.0f64; 24];
    let (blocks, rest) = s.as_chunks::<24>();
    for block in blocks {
        times_block(&mut products, block);
    }
    finite_by_eight(&products, 0) & finite_by_eight(rest, 0)
}
