// Document 01, "Ranking and program": the panel file, read. Its meaning is in specs/File, the writer's too; the reader tests in the document's order.
#![tactic(auto)]

ghost use Rattle.std.specs.Prelude.{◌≡◌, true, ℕ, ◌+◌, ◌*◌, ◌<◌, ◌≤◌, length, get_or};
ghost use Rattle.std.specs.Float.{binary64};
ghost use Rattle.std.specs.Float.Ieee.{of_bits};
ghost use Rattle.std.specs.Float.Ieee.Scale.{finite};
ghost use Rattle.numbers.specs.Each.{list_of};
ghost use Rattle.finite.specs.Finite.{all_finite};
ghost use Rattle.refusals.specs.Outcome.{first_holding, outcome, number_of};
ghost use Rattle.panel_file.specs.File.{bits_at, headed, pads_of, number_at};
ghost use Rattle.panel_file.specs.Inner.{Holds, reading_beside};
ghost use Rattle.panel_file.specs.Reading.{file_tests, file_refusal, stores, reading, reading_sized};

use refusals::Refusal;

// The 64 bits at a place, least byte first.
fn bits_at(file: &[u8], at: usize) -> u64
    requires { at + 8 ≤ length file.now }
    ensures { result ≡ bits_at file.now at }
{
    // Byte by byte: `copy_from_slice` into an array looks whether the two overlap, and the file of four pads took 1.28 times as long.
    u64::from_le_bytes([
        file[at],
        file[at + 1],
        file[at + 2],
        file[at + 3],
        file[at + 4],
        file[at + 5],
        file[at + 6],
        file[at + 7],
    ])
}

// Whether the double with these bits is finite: its exponent is not the greatest one.
fn is_finite_bits(bits: u64) -> bool
    ensures { result ≡ finite (of_bits binary64 bits) }
{
    // `from_bits` asks for bits that are no NaN's, so `is_finite` of a float cannot tell.
    bits % 0x8000_0000_0000_0000 / 0x10_0000_0000_0000 != 2047
}

// Whether the first `count` numbers of the file are finite.
fn numbers_finite(file: &[u8], count: usize) -> bool
    requires { 6 + 8 * count ≤ length file.now }
    ensures { result ≡ all_finite (list_of count (number_at file.now)) }
{
    // `rest_finite` of finite goes over floats, and these are bytes yet: the two share the `for` and no more.
    for k in 0..count {
        if !is_finite_bits(bits_at(file, 6 + 8 * k)) {
            return false;
        }
    }
    true
}

// Writes the numbers of the file from number `from` on over dst.
fn fill(file: &[u8], from: usize, dst: &mut [f64])
    requires dst_in_bounds { 6 + 8 * (from + length dst.old) ≤ length file.now }
    requires by_index { (k : ℕ) → k < length dst.old → finite (number_at file.now (from + k)) ≡ true }
    ensures { dst.new ≡ list_of (length dst.old) (λ k. number_at file.now (from + k)) }
{
    for (k, x) in dst.iter_mut().enumerate() {
        *x = f64::from_bits(bits_at(file, 6 + 8 * (from + k)));
    }
}

// Whether the file has its six bytes of head, with the mark and version 1.
fn is_headed(file: &[u8]) -> bool
    ensures { result ≡ headed file.now }
{
    if file.len() < 6 {
        return false;
    }
    file.starts_with(b"LXP") & (u16::from_le_bytes([file[3], file[4]]) == 1)
}

// The number of pads that the head tells, 0 where there is none.
pub fn pads_of(file: &[u8]) -> usize
    ensures { (result ≡ pads_of file.now) × (result < 256) }
{
    match file.get(5) {
        Some(&pads) => usize::from(pads),
        // The contract's `pads_of` reads 0 past the end, so this is no Option.
        None => 0,
    }
}

// Refuses what is no panel file, where the stores that are lent besides fit or not. Its numbers are looked at where its length is right.
fn test_beside(file: &[u8], fit: bool) -> Result<(), Refusal>
    ensures { number_of (outcome result) ≡ first_holding (file_tests fit file.now) }
{
    let n = pads_of(file);
    let lengths = fit & (file.len() == 6 + 8 * (n * n + n));
    refusals::first_of(&[
        (Refusal::NotAPanelFile, !is_headed(file)),
        (Refusal::Size, refusals::outside(1, n)),
        (Refusal::Length, !lengths),
    ])?;
    refusals::first_of(&[(Refusal::NotFinite, !numbers_finite(file, n * n + n))])
}

// Refuses what is no panel file, by its bytes alone.
#[tactic(auto, unfolding(crate::specs::Reading::file_refusal))]
pub fn test_file(file: &[u8]) -> Result<(), Refusal>
    ensures { number_of (outcome result) ≡ file_refusal file.now }
{
    test_beside(file, true)
}

// Reads a file into the front of two stores that fit or not. Answers how many pads it has. What lies past the file's own numbers stays as it was.
fn read_front(
    file: &[u8],
    fit: bool,
    matrix: &mut [f64],
    readings: &mut [f64],
) -> Result<usize, Refusal>
    requires { fit ≡ true → pads_of file.now ≤ 64 → Holds (pads_of file.now) (stores matrix.old readings.old) }
    ensures result_value { outcome result ≡ (reading_beside fit file.now (stores matrix.old readings.old)).answer }
    ensures readings_after { stores matrix.new readings.new
        ≡ (reading_beside fit file.now (stores matrix.old readings.old)).left }
{
    test_beside(file, fit)?;
    let n = pads_of(file);
    let entries = n * n;
    fill(file, 0, &mut matrix[..entries]);
    fill(file, entries, &mut readings[..n]);
    Ok(n)
}

// Reads a file into two stores, of 4096 and 64 numbers.
pub fn read(file: &[u8], matrix: &mut [f64], readings: &mut [f64]) -> Result<usize, Refusal>
    ensures result_value { outcome result ≡ (reading file.now (stores matrix.old readings.old)).answer }
    ensures matrix_after { matrix.new ≡ (reading file.now (stores matrix.old readings.old)).left.matrix }
    ensures readings_after { readings.new ≡ (reading file.now (stores matrix.old readings.old)).left.readings }
{
    // `read` and `read_sized` stay two: their contracts name `reading` and `reading_sized`, and `read_front` is what they share.
    let fit = (matrix.len() == 4096) & (readings.len() == 64);
    read_front(file, fit, matrix, readings)
}

// Reads a file of n pads, and of no other size, into two stores that are as long as its matrix and its readings.
pub fn read_sized(
    file: &[u8],
    n: usize,
    matrix: &mut [f64],
    readings: &mut [f64],
) -> Result<usize, Refusal>
    ensures result_value { outcome result ≡ (reading_sized file.now n (stores matrix.old readings.old)).answer }
    ensures readings_after { stores matrix.new readings.new
        ≡ (reading_sized file.now n (stores matrix.old readings.old)).left }
{
    let pads = pads_of(file);
    if is_headed(file) & (pads != n) {
        return Err(Refusal::Size);
    }
    let fit = (matrix.len() == pads * pads) & (readings.len() == pads);
    read_front(file, fit, matrix, readings)
}
