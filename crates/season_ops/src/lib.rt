// The op of a season, on the files of its case, whose lengths are the swaps.
#![tactic(auto)]

use lines::{Part, Text, put_line};
use refusals::{Refusal, number_of};
use season::Season;

// Hands the files with these lengths over to a season, the first first. Answers the season, and what the last one was answered.
fn hand_over(lengths: &[usize], bytes: &[u8]) -> (Season, Result<(), Refusal>) {
    let mut season = Season::new();
    let mut last = Ok(());
    let mut rest = bytes;
    for &length in lengths {
        let (file, behind) = rest.split_at(length.min(rest.len()));
        (season, last) = match season.with_file(file) {
            Ok(after) => (after, Ok(())),
            Err(refused) => (refused.old, Err(refused.refusal)),
        };
        rest = behind;
    }
    (season, last)
}

// Runs the op, and puts its line: the sixteen counts, without the number of files behind them.
pub fn run(text: &mut Text, swaps: &[usize], bytes: &[u8]) {
    let (season, last) = hand_over(swaps, bytes);
    let counts = season.counts();
    put_line(text, number_of(last), &[Part::Wholes(&counts[..16])]);
}
