// Prints the panel file of a crossing, or the refusal. Standard input is text: a line with the number of pads, then a line for each number of the matrix,
// column by column, and of the readings, with the 16 small hex digits of its bits. The bytes are those of `panel_file_writer::write`.
#![tactic(auto)]

ghost use Rattle.std.specs.Prelude.{◌≡◌, true, ◌+◌, ◌*◌, ◌%◌, ◌<◌, ◌≤◌, length};
ghost use Rattle.std.specs.Option.{SomeIff, MatchOption};
ghost use Rattle.std.specs.Float.{binary64};
ghost use Rattle.std.specs.Float.Ieee.{of_bits};
ghost use Rattle.panel_file_writer.specs.Writing.{written};
ghost use Rattle.panel_write.specs.Text.{digit_of, four_at, bits_at, LineAt, AreLines, numbers_in, LinesWritten, head_in, TextWritten};

use refusals::Refusal;

// The bytes of the longest text, of 64 pads: a line of 3 and 64 * 64 + 64 lines of 17. One more is held, so that a longer text is refused for its length.
const TEXT: usize = 70724;

// The most bytes of a file.
const FILE: usize = 33286;

// What the first line tells: the number of pads, and the place behind the line.
#[derive(Clone, Copy)]
struct Head {
    pads: usize,
    end: usize,
}

// A hex digit's value. `to_digit` would take capitals too.
fn digit(byte: u8) -> Option<u64>
    ensures { SomeIff result (digit_of byte < 16) (digit_of byte) }
{
    match byte {
        b'0'..=b'9' => Some((byte - b'0') as u64),
        b'a'..=b'f' => Some((byte - b'a') as u64 + 10),
        _ => None,
    }
}

// A hex digit's value where the line is known to hold one.
fn value(byte: u8) -> u64
    ensures { (result ≡ digit_of byte % 16) × (result < 16) }
{
    digit(byte).unwrap_or(0)
}

// A decimal digit's value, as in panel_moves: a crate for one match, of two programs, would be no plainer.
fn decimal(byte: u8) -> Option<usize>
    ensures { SomeIff result (digit_of byte ≤ 9) (digit_of byte) }
{
    match byte {
        b'0'..=b'9' => Some((byte - b'0') as usize),
        _ => None,
    }
}

// Reads the first line: one or two digits.
fn head_of(text: &[u8]) -> Option<Head>
    ensures { MatchOption result ((head_in text.now).0 ≡ 0)
        (λ head. (head.pads ≡ (head_in text.now).0) × (head.end ≡ (head_in text.now).1) × (head.end ≤ length text.now)) }
{
    if text.len() < 3 {
        return None;
    }
    if text[1] == b'\n' {
        let pads = decimal(text[0])?;
        return Some(Head { pads, end: 2 });
    }
    if text[2] == b'\n' {
        let pads = 10 * decimal(text[0])? + decimal(text[1])?;
        return Some(Head { pads, end: 3 });
    }
    None
}

// Whether the 17 bytes at a place are 16 hex digits and a newline.
fn is_line(text: &[u8], at: usize) -> bool
    requires { at + 17 ≤ length text.now }
    ensures { (result ≡ true → LineAt text.now at) × (LineAt text.now at → result ≡ true) }
{
    let digits = text[at..at + 16].iter().all(|&byte| digit(byte).is_some());
    digits & (text[at + 16] == b'\n')
}

// The number of the four digits at a place.
fn four_at(text: &[u8], at: usize) -> u64
    requires { at + 4 ≤ length text.now }
    ensures { (result ≡ four_at text.now at) × (result < 65536) }
{
    // `from_str_radix` takes capitals and signs too, and a line has neither.
    4096 * value(text[at])
        + 256 * value(text[at + 1])
        + 16 * value(text[at + 2])
        + value(text[at + 3])
}

// The bits that the 16 digits at a place stand for.
fn bits_at(text: &[u8], at: usize) -> u64
    requires { at + 16 ≤ length text.now }
    ensures { result ≡ bits_at text.now at }
{
    0x1_0000_0000_0000 * four_at(text, at)
        + 0x1_0000_0000 * four_at(text, at + 4)
        + 0x1_0000 * four_at(text, at + 8)
        + four_at(text, at + 12)
}

// The float that has these bits; the NaN where they are a NaN's.
fn float_of(bits: u64) -> f64
    ensures { result ≡ of_bits binary64 bits }
{
    // `from_bits` asks for no NaN's bits. `float_of` of cases is the same: a crate for two lines, of a program and the replay, would be no plainer.
    if 0x7ff0_0000_0000_0000 < bits % 0x8000_0000_0000_0000 {
        return 0.0 / 0.0;
    }
    f64::from_bits(bits)
}

// Reads a number for each line from line `from` on. Answers whether all are lines.
fn fill(lines: &[u8], from: usize, numbers: &mut [f64]) -> bool
    requires { 17 * (from + length numbers.old) ≤ length lines.now }
    ensures are_lines { result ≡ true → AreLines lines.now from (length numbers.old)
        × (numbers.new ≡ numbers_in lines.now from (length numbers.old)) }
    ensures value { AreLines lines.now from (length numbers.old) → result ≡ true }
    ensures numbers_len_unchanged { length numbers.new ≡ length numbers.old }
{
    for (k, number) in numbers.iter_mut().enumerate() {
        let at = 17 * (from + k);
        if is_line(lines, at) {
            *number = float_of(bits_at(lines, at));
        } else {
            return false;
        }
    }
    true
}

// Writes the file of n pads with these lines; matrix and readings are room for their numbers.
fn write_filled(
    n: usize,
    lines: &[u8],
    matrix: &mut [f64],
    readings: &mut [f64],
    out: &mut [u8],
) -> Result<usize, Refusal>
    requires { (n ≤ 64) × (length lines.now ≡ 17 * (n * n + n)) × (length matrix.old ≡ n * n) × (length readings.old ≡ n) }
    ensures { LinesWritten n lines.now out.old (written result out.new) }
{
    if fill(lines, 0, matrix) {
        if fill(lines, n * n, readings) {
            return panel_file_writer::write(n, matrix, readings, out);
        }
    }
    Err(Refusal::Length)
}

// The same in front of two stores, for any lines.
fn write_lines(
    n: usize,
    lines: &[u8],
    matrix: &mut [f64],
    readings: &mut [f64],
    out: &mut [u8],
) -> Result<usize, Refusal>
    requires { (n ≤ 64) × (length matrix.old ≡ 4096) × (length readings.old ≡ 64) }
    ensures { LinesWritten n lines.now out.old (written result out.new) }
{
    let entries = n * n;
    if lines.len() != 17 * (entries + n) {
        return Err(Refusal::Length);
    }
    write_filled(n, lines, &mut matrix[..entries], &mut readings[..n], out)
}

// Writes the file that a text stands for.
fn write_text(text: &[u8], out: &mut [u8]) -> Result<usize, Refusal>
    ensures { TextWritten text.now out.old (written result out.new) }
{
    let Some(head) = head_of(text) else {
        return Err(Refusal::Size);
    };
    let n = head.pads;
    if refusals::outside(1, n) {
        return Err(Refusal::Size);
    }
    let mut matrix = [0.0f64; 4096];
    let mut readings = [0.0f64; 64];
    write_lines(n, &text[head.end..], &mut matrix, &mut readings, out)
}

// Prints the refusal. With no heap the program prints by pieces, and makes no text by `format!`.
fn refuse(refusal: Refusal) {
    io::write_all(1, b"refused ");
    io::print_decimal(1, usize::from(refusal) as u64);
    io::write_all(1, b"\n");
}

// Prints what a text comes to.
fn print_text(text: &[u8]) {
    let mut file = [0u8; FILE];
    match write_text(text, &mut file) {
        Ok(count) => {
            io::write_all(1, &file[..count]);
        }
        Err(refusal) => refuse(refusal),
    }
}

fn main() {
    let mut text = [0u8; TEXT];
    let held = io::read_full(0, &mut text);
    print_text(&text[..held])
}
