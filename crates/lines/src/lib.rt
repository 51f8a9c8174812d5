// The line that a case prints: the refusal number, then the parts that its op prints, each behind a bar.
#![tactic(auto)]

mod text;

pub use text::Text;

// A part of a line.
#[derive(Clone, Copy)]
pub enum Part<'p> {
    // What a call does not answer.
    Dash,
    Whole(usize),
    Wholes(&'p [usize]),
    Float(f64),
    Floats(&'p [f64]),
    Exponent(i32),
    // The bytes of a file, in hex.
    Bytes(&'p [u8]),
    // What a program prints, on one line.
    Shown(&'p [u8]),
}

// Puts what stands behind a part's bar.
fn put_part(text: &mut Text, part: Part<'_>) {
    match part {
        Part::Dash => text.put(b'-'),
        Part::Whole(number) => text.put_whole(number),
        Part::Wholes(numbers) => text.put_all(numbers, |text, &number| text.put_whole(number)),
        Part::Float(number) => text.put_float(number),
        Part::Floats(numbers) => text.put_all(numbers, |text, &number| text.put_float(number)),
        Part::Exponent(number) => text.put_signed(number),
        Part::Bytes(bytes) => text.put_hex(bytes),
        Part::Shown(bytes) => text.put_shown(bytes),
    }
}

// Puts parts, each behind a bar.
pub fn put_parts(text: &mut Text, parts: &[Part<'_>]) {
    for &part in parts {
        text.put_word(b" | ");
        put_part(text, part);
    }
}

// Puts a line: the refusal number, 0 for none, and the parts.
pub fn put_line(text: &mut Text, number: usize, parts: &[Part<'_>]) {
    text.put_whole(number);
    put_parts(text, parts);
}
