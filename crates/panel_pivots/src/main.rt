// Prints how the elimination of a panel file's matrix went, or the refusal: the number of toss-ups, the greatest magnitude of the matrix, and the greatest and
// the least magnitude on the diagonal of its factors. The panel file is standard input. A file that is longer than what is read is refused for its length.
#![tactic(auto)]

ghost use Rattle.std.specs.Prelude.{◌≡◌, not, ◌*◌, ◌≤◌, T, length, take};
ghost use Rattle.std.specs.Float.Ieee.{is_nan};
ghost use Rattle.panel_file.specs.File.{pads_of, matrix_of};
ghost use Rattle.panel_file.specs.Reading.{file_refusal};
ghost use Rattle.crossing.specs.Factors.{factors_in};
ghost use Rattle.panel_pivots.specs.Outermost.{Greatest, Least, diagonal_of};
ghost use Rattle.panel_pivots.specs.Pivots.{Spanned, MeasuredAs};

use lu::Factored;
use refusals::Refusal;

// How the elimination went: the number of toss-ups, the greatest magnitude of the matrix, and the greatest and the least of the pivots.
#[derive(Clone, Copy)]
struct Pivots {
    toss_ups: usize,
    matrix: f64,
    greatest: f64,
    least: f64,
}

// The greatest magnitude of the numbers, +0.0 where there is none.
fn greatest(numbers: &[f64]) -> f64
    ensures { Greatest numbers.now (length numbers.now) result }
{
    let mut found = 0.0;
    for &number in numbers {
        let x = numbers::magnitude(number);
        let higher = found < x;
        if higher {
            found = x;
        }
    }
    found
}

// The least magnitude of the numbers, an infinity where there is none.
// (A walk shared with `greatest` would share its test, which the edit least_for_greatest turns round for that one alone.)
fn least(numbers: &[f64]) -> f64
    ensures { Least numbers.now (length numbers.now) result }
{
    let mut found = f64::from_bits(0x7ff0_0000_0000_0000);
    for &number in numbers {
        let x = numbers::magnitude(number);
        if x < found {
            found = x;
        }
    }
    found
}

// Copies the diagonal of the n by n factors t.
fn fill_diagonal(t: &[f64], n: usize, pivots: &mut [f64])
    requires { (n ≤ 64) × (length t.now ≡ n * n) × (length pivots.old ≡ n) }
    ensures { pivots.new ≡ diagonal_of t.now n }
{
    for (i, pivot) in pivots.iter_mut().enumerate() {
        *pivot = t[i * n + i];
    }
}

// The greatest magnitude of a file's matrix; +0.0 where the file is refused.
fn greatest_of(file: &[u8]) -> f64
    ensures { file_refusal file.now ≡ 0 → Greatest (matrix_of (pads_of file.now) file.now)
        (length (matrix_of (pads_of file.now) file.now)) result }
{
    let mut matrix = [0.0f64; 4096];
    let mut readings = [0.0f64; 64];
    match panel_file::read(file, &mut matrix, &mut readings) {
        Ok(n) => {
            let entries = n * n;
            greatest(&matrix[..entries])
        }
        Err(_) => 0.0,
    }
}

// The pivots of the n by n factors t, beside what is known already; pivots is room for them.
fn span(toss_ups: usize, most: f64, t: &[f64], n: usize, pivots: &mut [f64]) -> Pivots
    requires { (n ≤ 64) × (length t.now ≡ n * n) × (length pivots.old ≡ n) }
    ensures { Spanned t.now n toss_ups most result }
{
    fill_diagonal(t, n, pivots);
    Pivots {
        toss_ups,
        matrix: most,
        greatest: greatest(pivots),
        least: least(pivots),
    }
}

// The same for the factors in front of a store.
fn span_front(toss_ups: usize, most: f64, matrix: &[f64; 4096], n: usize) -> Pivots
    requires { n ≤ 64 }
    ensures { Spanned (take (n * n) matrix.now) n toss_ups most result }
{
    let entries = n * n;
    let mut pivots = [0.0f64; 64];
    span(toss_ups, most, &matrix[..entries], n, &mut pivots[..n])
}

// What a file comes to.
fn pivots_of(file: &[u8]) -> Result<Pivots, Refusal>
    ensures { MeasuredAs file.now (factors_in file.now) result }
{
    let most = greatest_of(file);
    let mut matrix = [0.0f64; 4096];
    let mut readings = [0.0f64; 64];
    let mut swaps = [0usize; 128];
    let Factored { told, toss_ups } = crossing::factor_file(
        file,
        &mut matrix,
        &mut readings,
        &mut swaps,
    )?;
    Ok(span_front(toss_ups, most, &matrix, told.rows))
}

// Prints a word, and the bits of a magnitude as 16 small hex digits. A zero is printed without its sign.
fn print_bits(word: &[u8], x: f64)
    requires { T (not (is_nan x)) }
{
    io::write_all(1, word);
    io::print_hex(1, f64::to_bits(x) % 0x8000_0000_0000_0000, 16);
    io::write_all(1, b"\n");
}

// Prints a word and a number.
fn print_count(word: &[u8], number: usize) {
    io::write_all(1, word);
    io::print_decimal(1, number as u64);
    io::write_all(1, b"\n");
}

// Prints what a file comes to.
fn print_pivots(file: &[u8]) {
    match pivots_of(file) {
        Ok(
            Pivots {
                toss_ups,
                matrix,
                greatest,
                least,
            },
        ) => {
            print_count(b"toss-ups ", toss_ups);
            print_bits(b"matrix ", matrix);
            print_bits(b"greatest ", greatest);
            print_bits(b"least ", least);
        }
        Err(refusal) => print_count(b"refused ", usize::from(refusal)),
    }
}

fn main() {
    let mut file = [0u8; 33287];
    let held = io::read_full(0, &mut file);
    print_pivots(&file[..held])
}
