// The ops on a panel file's bytes.
#![tactic(auto)]

use cases::{Case, OfFile};
use lines::{Part, Text, put_line, put_parts};

// The digit of the refusal number in what a program prints, 0 where it prints pads or no reason.
fn digit_of(printed: &[u8]) -> u8 {
    match printed {
        [b'r', _, _, _, _, _, _, _, digit, ..] => *digit,
        _ => b'0',
    }
}

// Puts the line of what a program prints on a file, which ops 20 and 29 ask of one text and the other.
fn put_printed<F: FnOnce(&[u8], &mut [u8; 1288]) -> usize>(text: &mut Text, file: &[u8], print: F)
    requires { F.IsAlwaysCallable print }
{
    let mut printed = [0; 1288];
    let n = print(file, &mut printed);
    let printed = printed.get(..n).unwrap_or(&[]);
    text.put(digit_of(printed));
    put_parts(text, &[Part::Shown(printed)]);
}

fn moves(text: &mut Text, pad: usize, file: &[u8]) {
    let mut numbers = [0.0f64; 64];
    match crossing_pads::moves(file, pad, &mut numbers) {
        Ok(order) => {
            let moves = numbers.get(..order.pads).unwrap_or(&[]);
            put_line(text, 0, &[Part::Floats(moves)]);
        }
        Err(refusal) => put_line(text, usize::from(refusal), &[Part::Dash]),
    }
}

fn stiffness(text: &mut Text, file: &[u8]) {
    match crossing::stiffness(file).determinant {
        Ok(r) => put_line(
            text,
            0,
            &[Part::Float(r.significand), Part::Exponent(r.exponent)],
        ),
        Err(refusal) => put_line(text, usize::from(refusal), &[Part::Dash, Part::Dash]),
    }
}

// The count, and the bytes that are lent.
fn write(text: &mut Text, case: Case, a: &[f64], b: &[f64], bytes: &mut [u8]) {
    let Case { n, .. } = case;
    match panel_file_writer::write(n, a, b, bytes) {
        Ok(count) => put_line(text, 0, &[Part::Whole(count), Part::Bytes(bytes)]),
        Err(refusal) => put_line(
            text,
            usize::from(refusal),
            &[Part::Dash, Part::Bytes(bytes)],
        ),
    }
}

// Runs an op, and puts its line.
pub fn run(text: &mut Text, op: OfFile, case: Case, a: &[f64], b: &[f64], bytes: &mut [u8]) {
    match op {
        OfFile::Text => put_printed(text, bytes, panel_text::text),
        OfFile::WhyText => put_printed(text, bytes, panel_text::why_text),
        OfFile::Moves => moves(text, case.m, bytes),
        OfFile::Stiffness => stiffness(text, bytes),
        OfFile::Write => write(text, case, a, b, bytes),
    }
}
