// The ops of the four-pad profile.
#![tactic(auto)]

use four_pads::FourPads;
use lines::{Part, Text, put_line};

// Puts what the profile answers: factors, pairs, recorded numbers, loads.
fn put_profile(text: &mut Text, answer: FourPads) {
    let recorded = 2 * answer.pairs.min(4);
    let parts = [
        Part::Floats(&answer.factors),
        Part::Whole(answer.pairs),
        Part::Wholes(&answer.swaps[..recorded]),
        Part::Floats(&answer.loads),
    ];
    put_line(text, answer.number, &parts);
}

// The first N of some floats; 0 where there are fewer.
fn first<const N: usize>(floats: &[f64]) -> [f64; N] {
    let mut first = [0.0; N];
    for (number, &float) in first.iter_mut().zip(floats) {
        *number = float;
    }
    first
}

// The op on numbers.
pub fn of_numbers(text: &mut Text, a: &[f64], b: &[f64]) {
    let columns = four_pads_file::by_columns(first(a));
    put_profile(text, four_pads::four_pads(columns, first(b)));
}

// The op on a file.
pub fn of_file(text: &mut Text, bytes: &[u8]) {
    put_profile(text, four_pads_file::four_pads_of(bytes));
}
