// Prints what `panel_text::text` answers for each file of crossings/, under its name. The names are its ten arguments.
#![tactic(auto)]

use std::env::Env;
use std::fs::File;
use std::io::{Error, ErrorKind};
use std::os::fd::AsRawFd;

// Prints the answer for an open file.
fn print_answer(fd: i32) {
    let mut file = [0u8; 33287];
    let held = io::read_full(fd, &mut file);
    let mut out = [0u8; 1288];
    // The programs differ in this call; one function that takes it as a closure, with the closure's contract, would be no plainer.
    let count = panel_text::text(&file[..held], &mut out);
    io::write_all(1, &out[..count]);
}

// Opens a file to be read. std opens no name that is not UTF-8.
fn open_read(rt: HostRuntime, path: &[u8]) -> Result<File, Error> {
    match std::str::from_utf8(path) {
        Ok(text) => File::open(&rt, text),
        Err(_) => Err(Error::from(ErrorKind::InvalidFilename)),
    }
}

// The system's words for an error: what stands before its number.
fn words(whole: &str) -> &str {
    match whole.split_once(" (os error ") {
        Some((words, _)) => words,
        None => whole,
    }
}

// Writes a line to standard error: the file that cannot be opened, a colon and why. Without memory it leaves out why.
fn fail(rt: HostRuntime, path: &[u8], error: Error) {
    io::write_all(2, path);
    io::write_all(2, b": ");
    if let Ok(whole) = format!(in rt.alloc(); "{error}") {
        io::write_all(2, words(whole.as_str()).as_bytes());
    }
    io::write_all(2, b"\n");
}

// Prints an argument's name on a line and the answer for its file, or says why it cannot be opened.
fn print_crossing(rt: HostRuntime, place: usize) {
    let mut path = io::buffer();
    // The empty name, that of no file, stands for an argument that is missing or longer than a path.
    let n = rt.arg(place, &mut path).unwrap_or(0);
    match open_read(rt, &path[..n]) {
        Ok(file) => {
            io::write_all(1, &path[..n]);
            io::write_all(1, b"\n");
            print_answer(file.as_raw_fd());
        }
        Err(error) => fail(rt, &path[..n], error),
    }
}

fn main(rt: HostRuntime) {
    for place in 1..11 {
        print_crossing(rt, place);
    }
}
