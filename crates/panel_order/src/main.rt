// Reads a panel file from standard input to its end, and prints its pads in rank order or the refusal. What is printed is `panel_text::text` of the bytes.
#![tactic(auto)]

// Reads on and keeps nothing. Answers whether there may be more.
fn skip_some() -> bool {
    let mut rest = [0u8; 4096];
    io::read_full(0, &mut rest) == rest.len()
}

// A proved loop has to end, and nothing says that the input does: so the loop has more turns than any run uses up.
fn skip_rest() {
    for _ in 0..u64::MAX {
        if !skip_some() {
            break;
        }
    }
}

fn main() {
    let mut file = [0u8; 33287];
    let held = io::read_full(0, &mut file);
    skip_rest();
    let mut out = [0u8; 1288];
    // The programs differ in this call; one function that takes it as a closure, with the closure's contract, would be no plainer.
    let count = panel_text::text(&file[..held], &mut out);
    io::write_all(1, &out[..count]);
}
