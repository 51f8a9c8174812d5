// Prints how a pad's load moves with each reading, or the refusal: the pad's number is the first argument, the panel file is standard input. What is
// printed is `panel_text::moves_text` of the bytes and the number. A file that is longer than what is read is refused for its length.
#![tactic(auto)]

use std::env::Env;

// A decimal digit's value.
fn digit(byte: u8) -> Option<u32> {
    char::from(byte).to_digit(10)
}

// The number that a word of one or two digits stands for.
fn pad_of(word: &[u8]) -> Option<usize> {
    match word {
        [ones] => Some(digit(*ones)? as usize),
        [tens, ones] => Some(10 * digit(*tens)? as usize + digit(*ones)? as usize),
        _ => None,
    }
}

// The pad of the first argument. One that is longer than a word is none.
fn pad_asked(rt: HostRuntime) -> Option<usize> {
    let mut word = [0u8; 16];
    let length = rt.arg(1, &mut word).ok()?;
    pad_of(&word[..length])
}

fn main(rt: HostRuntime) {
    // No pad has the number 0.
    let pad = pad_asked(rt).unwrap_or(0);
    let mut file = [0u8; 33287];
    let held = io::read_full(0, &mut file);
    let mut out = [0u8; 1288];
    // The programs differ in this call; one function that takes it as a closure, with the closure's contract, would be no plainer.
    let count = panel_text::moves_text(&file[..held], pad, &mut out);
    io::write_all(1, &out[..count]);
}
