// Prints why a panel file is refused, or that there is no reason. The panel file is standard input; what is printed is `panel_text::why_text` of the bytes. A
// file that is longer than what is read is refused for its length.
#![tactic(auto)]

fn main() {
    let mut file = [0u8; 33287];
    let held = io::read_full(0, &mut file);
    let mut out = [0u8; 1288];
    // The programs differ in this call; one function that takes it as a closure, with the closure's contract, would be no plainer.
    let count = panel_text::why_text(&file[..held], &mut out);
    io::write_all(1, &out[..count]);
}
