// Reads names of panel files from standard input, one a line, hands each file over to a season, and prints its sixteen counts, each on a line. A name of more
// than 255 bytes, or one that cannot be opened, counts as an empty file. With the name that is one too many it stops reading.
#![tactic(auto)]

ghost use Rattle.io.specs.Counts.{IsPrefixLen};

use refusals::Refused;
use season::Season;
use std::fs::File;
use std::io::Read;
use std::os::fd::AsRawFd;

// The most bytes of a name.
const MOST: usize = 255;

// Where the reading stands: the season, how many bytes of a name are there, one more than the most for any that is longer, and whether it goes on.
#[derive(Clone, Copy)]
struct Place {
    season: Season,
    length: usize,
    going: bool,
}

// Reads the file of a name. Answers how many bytes are held, 0 where it cannot be opened or read. std opens no name that is not UTF-8.
fn read_named(rt: HostRuntime, name: &[u8], file: &mut [u8]) -> usize
    ensures { IsPrefixLen result file.new }
{
    let Ok(path) = std::str::from_utf8(name) else {
        return 0;
    };
    match File::open(&rt, path) {
        Ok(opened) => io::read_full(opened.as_raw_fd(), file),
        Err(_) => 0,
    }
}

// The season with the file of a name.
fn with_named(rt: HostRuntime, season: Season, name: &[u8]) -> Result<Season, Refused<Season>> {
    let mut file = [0u8; 33287];
    let held = read_named(rt, name, &mut file);
    season.with_file(&file[..held])
}

// The season with the file of a name of so many bytes, an empty file where that is too many.
fn with_name(
    rt: HostRuntime,
    season: Season,
    name: &[u8],
    length: usize,
) -> Result<Season, Refused<Season>> {
    if length <= name.len() {
        return with_named(rt, season, &name[..length]);
    }
    season.with_file(b"")
}

// A name has ended. It goes on where the file was counted.
fn ended(rt: HostRuntime, place: Place, name: &[u8]) -> Place {
    let was = place.season;
    match with_name(rt, was, name, place.length) {
        Ok(season) => Place {
            season,
            length: 0,
            going: true,
        },
        Err(refused) => Place {
            season: refused.old,
            length: 0,
            going: false,
        },
    }
}

// One byte of the list: of a name, or the end of one.
fn with_byte(rt: HostRuntime, place: Place, byte: u8, name: &mut [u8]) -> Place {
    if byte == b'\n' {
        return ended(rt, place, name);
    }
    let mut next = place;
    let length = place.length;
    if length < name.len() {
        name[length] = byte;
        next.length = length + 1;
    } else {
        next.length = MOST + 1;
    }
    next
}

// The bytes that were read, one after the other.
fn with_bytes(rt: HostRuntime, from: Place, bytes: &[u8], name: &mut [u8]) -> Place {
    let mut place = from;
    for &byte in bytes {
        if !place.going {
            break;
        }
        place = with_byte(rt, place, byte, name);
    }
    place
}

// The input has ended: a last line without a newline is a name.
fn finished(rt: HostRuntime, place: Place, name: &[u8]) -> Place {
    let mut last = place;
    if place.length > 0 {
        last = ended(rt, place, name);
    }
    last.going = false;
    last
}

// Reads some of the list.
fn read_some(rt: HostRuntime, place: Place, name: &mut [u8]) -> Place {
    let mut bytes = [0u8; 4096];
    match rt.stdin().read(&mut bytes) {
        Ok(n) if n > 0 => with_bytes(rt, place, &bytes[..n], name),
        _ => finished(rt, place, name),
    }
}

// Reads the list to its end. A proved loop has to end, and nothing says that the input does: so the loop has more turns than any run uses up.
fn read_list(rt: HostRuntime, name: &mut [u8]) -> Season {
    let mut place = Place {
        season: Season::new(),
        length: 0,
        going: true,
    };
    for _ in 0..u64::MAX {
        place = read_some(rt, place, name);
        if !place.going {
            break;
        }
    }
    place.season
}

// Prints the counts but the last, which is the number of files.
fn print_counts(counts: [usize; 17]) {
    for &count in &counts[..16] {
        io::print_decimal(1, count as u64);
        io::write_all(1, b"\n");
    }
}

fn main(rt: HostRuntime) {
    let mut name = [0u8; MOST];
    let season = read_list(rt, &mut name);
    print_counts(season.counts());
}
