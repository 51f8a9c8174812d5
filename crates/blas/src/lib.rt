// Arithmetic on single columns: base/blas.rs and base/blas_uninit.rs of nalgebra 0.35.0, for f64. Where sizes do not fit, a function leaves all as it was.
#![tactic(auto)]

ghost use Rattle.std.specs.Prelude.{◌≡◌, ◌≤◌, ◌-◌, length};
ghost use Rattle.numbers.specs.Each.{each_from, turns_from};
ghost use Rattle.numbers.specs.Column.{zeros};
ghost use Rattle.blas.specs.Blas.{swap_rows, scale_from, axpy_from, copied};
ghost use Rattle.blas.specs.Dot.{add_product, dot_of};

// Exchanges the entries i and j.
pub fn swap(col: &mut [f64], i: usize, j: usize)
    ensures { col.new ≡ swap_rows i j col.old }
{
    if i < col.len() && j < col.len() {
        col.swap(i, j);
    }
}

// col[k] = col[k] * r for each k from `from` on.
pub fn scale(col: &mut [f64], from: usize, r: f64)
    ensures { col.new ≡ scale_from from r col.old }
{
    for k in from..col.len() {
        col[k] = col[k] * r;
    }
}

// y[k] = a * x[k] + y[k] for each k from `from` on.
pub fn axpy(y: &mut [f64], a: f64, x: &[f64], from: usize)
    ensures { y.new ≡ axpy_from from a x.now y.old }
{
    if x.len() != y.len() {
        return;
    }
    for k in from..y.len() {
        y[k] = a * x[k] + y[k];
    }
}

// Writes src over dst, which is as long. Not by `copy_from_slice`, a call of `memmove`: most slices are short, and an inverse at 2 took 1.28 times as long.
pub fn copy(dst: &mut [f64], src: &[f64])
    ensures { dst.new ≡ copied src.now dst.old }
{
    if src.len() != dst.len() {
        return;
    }
    for k in 0..dst.len() {
        dst[k] = src[k];
    }
}

// Every entry becomes +0.0.
pub fn fill_zero(s: &mut [f64])
    ensures { s.new ≡ zeros (length s.old) }
{
    s.fill(0.0);
}

// Adds to each running sum the product at its own place of a block.
fn add_block(sums: &mut [f64], x: &[f64], y: &[f64])
    requires { (length sums.old ≤ length x.now) × (length sums.old ≤ length y.now) }
    ensures { sums.new ≡ each_from (add_product x.now y.now) 0 sums.old }
{
    // `times_block` of finite differs in this line alone; a function of both, with the line as a closure, would be no plainer.
    for k in 0..sums.len() {
        sums[k] = sums[k] + x[k] * y[k];
    }
}

// Adds to t the products from row `from` on, in order.
fn add_rest(t: f64, x: &[f64], y: &[f64], from: usize) -> f64
    requires { length x.now ≡ length y.now }
    ensures { result ≡ turns_from (add_product x.now y.now) from (length x.now - from) t }
{
    let mut res = t;
    for k in from..x.len() {
        res = res + x[k] * y[k];
    }
    res
}

// The dot product, summed as `dotx` sums it: eight running sums over blocks of eight, then these, then the rest in order.
pub fn dot(x: &[f64], y: &[f64]) -> f64
    ensures { result ≡ dot_of x.now y.now }
{
    if x.len() != y.len() {
        // The contract's `dot_of` is a NaN here, so this is no Option; 0 / 0 gives its bits.
        let none = 0.0f64;
        return none / none;
    }
    let blocks = x.len() / 8;
    let mut acc = [0.0f64; 8];
    for j in 0..blocks {
        let i = j * 8;
        let e = i + 8;
        add_block(&mut acc, &x[i..e], &y[i..e]);
    }
    let res = 0.0 + (acc[0] + acc[4]) + (acc[1] + acc[5]) + (acc[2] + acc[6]) + (acc[3] + acc[7]);
    add_rest(res, x, y, blocks * 8)
}
