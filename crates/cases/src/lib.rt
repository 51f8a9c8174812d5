// A case of the list that stands on standard input: the op, three sizes, and the slices that the op takes.
#![tactic(auto)]

mod items;
mod ops;

use items::{exactly, float_of, read_array, read_bytes, read_items, read_sizes};
pub use ops::{Making, OfFactors, OfFile, Op, Permuting, Reading, Triangle};
use ops::{Slice, slices_of};
use std::mem::take;

// The most items that a slice may have: a file of 64 pads and a little more fits.
pub const LIMIT: usize = 4168;

const BYTES: usize = 8 * LIMIT;

// A case that has an unknown op, of which something is missing, or that has a slice with a count that it may not have.
#[derive(Clone, Copy)]
pub struct BadCase;

// The rooms for the longest slices of a case, and for the bytes of items: made once for all cases, since it takes longer to fill them with zeros than to run
// a short case.
#[derive(Drop)]
pub struct Store {
    a: [f64; LIMIT],
    b: [f64; LIMIT],
    x: [f64; LIMIT],
    swaps: [usize; LIMIT],
    bytes: [u8; BYTES],
    room: [u8; BYTES],
}

impl Store {
    pub fn new() -> Store {
        Store {
            a: [0.0; LIMIT],
            b: [0.0; LIMIT],
            x: [0.0; LIMIT],
            swaps: [0; LIMIT],
            bytes: [0; BYTES],
            room: [0; BYTES],
        }
    }
}

// The numbers of a case: its op and sizes, and those that stand in slices of one or two items.
#[derive(Clone, Copy)]
pub struct Case {
    pub op: Op,
    pub m: usize,
    pub n: usize,
    pub k: usize,
    pub pairs: usize,
    pub dead: usize,
    pub diagonal: f64,
    pub rows: [usize; 2],
}

// The slices of a case; one that its op does not take is the whole room.
#[derive(Drop)]
pub struct Slices<'s> {
    pub a: &'s mut [f64],
    pub b: &'s mut [f64],
    pub x: &'s mut [f64],
    pub swaps: &'s mut [usize],
    pub bytes: &'s mut [u8],
}

// Reads the sizes that stand behind an op.
fn read_head(op: Op) -> Result<Case, BadCase> {
    let [m, n, k] = read_sizes()?;
    Ok(Case {
        op,
        m,
        n,
        k,
        pairs: 0,
        dead: 0,
        diagonal: 0.0,
        rows: [0; 2],
    })
}

// Whether files of these lengths have no more bytes than that.
fn lengths_fit(lengths: &[usize], most: usize) -> bool {
    lengths
        .iter()
        .try_fold(most, |left, &length| left.checked_sub(length))
        .is_some()
}

impl<'s> Slices<'s> {
    // Reads a file of so many bytes, and what fills up its last item.
    fn read_file(&mut self, length: usize) -> Result<(), BadCase> {
        let bytes = read_bytes(take(&mut self.bytes))?;
        if bytes.len() < length {
            return Err(BadCase);
        }
        self.bytes = &mut bytes[..length];
        Ok(())
    }

    // Reads files, whose lengths have been read.
    fn read_files(&mut self) -> Result<(), BadCase> {
        let bytes = read_bytes(take(&mut self.bytes))?;
        if !lengths_fit(self.swaps, bytes.len()) {
            return Err(BadCase);
        }
        self.bytes = bytes;
        Ok(())
    }

    // Reads a slice, by way of a room for the bytes of its items.
    fn read(&mut self, slice: Slice, case: &mut Case, room: &mut [u8]) -> Result<(), BadCase> {
        match slice {
            Slice::A => self.a = read_items(take(&mut self.a), room, float_of)?,
            Slice::B => self.b = read_items(take(&mut self.b), room, float_of)?,
            Slice::X => self.x = read_items(take(&mut self.x), room, float_of)?,
            Slice::Swaps => {
                self.swaps = read_items(take(&mut self.swaps), room, usize::from_le_bytes)?
            }
            Slice::Pairs => [case.pairs] = read_array::<1, _, _>(room, usize::from_le_bytes)?,
            Slice::Record => {
                [case.pairs, case.dead] = read_array::<2, _, _>(room, usize::from_le_bytes)?
            }
            Slice::Diagonal => [case.diagonal] = read_array::<1, _, _>(room, float_of)?,
            Slice::Rows => case.rows = read_array(room, usize::from_le_bytes)?,
            Slice::FourMatrix => {
                self.a = exactly(16, read_items(take(&mut self.a), room, float_of)?)?
            }
            Slice::FourReadings => {
                self.b = exactly(4, read_items(take(&mut self.b), room, float_of)?)?
            }
            Slice::File => self.read_file(case.k)?,
            Slice::Files => self.read_files()?,
        }
        Ok(())
    }
}

// Reads the next case, if there is one.
pub fn read_case(store: &mut Store) -> Result<Option<(Case, Slices<'_>)>, BadCase> {
    let mut op = [0];
    if io::read_full(0, &mut op) == 0 {
        return Ok(None);
    }
    let op = Op::try_from(op[0])?;
    let mut case = read_head(op)?;
    let Store {
        a,
        b,
        x,
        swaps,
        bytes,
        room,
    } = store;
    let mut slices = Slices {
        a,
        b,
        x,
        swaps,
        bytes,
    };
    for &slice in slices_of(op) {
        slices.read(slice, &mut case, room)?;
    }
    Ok(Some((case, slices)))
}
