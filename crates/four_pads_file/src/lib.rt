// Document 02, request 11: the four-pad profile of a panel file. It is read into twenty numbers, and into no store for a greater one.
#![tactic(auto)]

ghost use Rattle.std.specs.Prelude.{◌≡◌};
ghost use Rattle.store.specs.Columns.{flat};
ghost use Rattle.four_pads_file.specs.FileProfile.{numbers_in, four_pads_in};

use four_pads::FourPads;

// What is read of a file: a refusal's number, 0 for none, the matrix by column and the readings. A refusal's numbers are zeros.
// It is no Result, for the contract of `numbers_of` is an equation of all three.
#[derive(Clone, Copy)]
pub struct FourNumbers {
    pub number: usize,
    pub matrix: [f64; 16],
    pub readings: [f64; 4],
}

// Sixteen numbers as four columns of four.
pub fn by_columns(a: [f64; 16]) -> [[f64; 4]; 4]
    ensures { flat result ≡ a }
{
    // Tried with `as_chunks`: that its four chunks are the array again did not close.
    [
        [a[0], a[1], a[2], a[3]],
        [a[4], a[5], a[6], a[7]],
        [a[8], a[9], a[10], a[11]],
        [a[12], a[13], a[14], a[15]],
    ]
}

// The numbers of a panel file of four pads, and the refusal's number, 0 for none. A file of another size is refused.
pub fn numbers_of(file: &[u8]) -> FourNumbers
    ensures { result ≡ numbers_in file.now }
{
    let mut matrix = [0.0f64; 16];
    let mut readings = [0.0f64; 4];
    match panel_file::read_sized(file, 4, &mut matrix, &mut readings) {
        Ok(_) => FourNumbers {
            number: 0,
            matrix,
            readings,
        },
        Err(refusal) => FourNumbers {
            number: usize::from(refusal),
            matrix,
            readings,
        },
    }
}

// The factors, swaps and loads of a panel file of four pads.
pub fn four_pads_of(file: &[u8]) -> FourPads
    ensures { result ≡ four_pads_in file.now }
{
    let read = numbers_of(file);
    if read.number != 0 {
        return four_pads::refused(read.number);
    }
    let matrix = read.matrix;
    let readings = read.readings;
    four_pads::four_pads(by_columns(matrix), readings)
}
