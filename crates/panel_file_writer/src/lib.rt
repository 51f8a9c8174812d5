// Document 02, 1/13: a crossing's panel file, written. What the bytes are is said in the reader's words (panel_file/specs/File); the tests go in the document's
// order.
#![tactic(auto)]

ghost use Rattle.std.specs.Prelude.{◌≡◌, true, ◌+◌, ◌*◌, ◌<◌, ◌≤◌, length};
ghost use Rattle.numbers.specs.Each.{list_of};
ghost use Rattle.finite.specs.Finite.{all_finite};
ghost use Rattle.panel_file.specs.File.{bits_at, headed, pads_of, file_length, number_at, IsFile};
ghost use Rattle.refusals.specs.Outcome.{outcome, number_of};
ghost use Rattle.panel_file_writer.specs.Inner.{KeepsBefore};
ghost use Rattle.panel_file_writer.specs.Writing.{writing_refusal, written, Writing};

use refusals::Refusal;

// Writes the 64 bits at a place, least byte first. What stands before stays.
fn put_bits(file: &mut [u8], at: usize, bits: u64)
    requires { at + 8 ≤ length file.old }
    ensures { KeepsBefore at file.old file.new × (bits_at file.new at ≡ bits) }
{
    file[at..at + 8].copy_from_slice(&bits.to_le_bytes());
}

// Writes the numbers as those of the file from number `from` on. What stands before them stays.
fn put_numbers(file: &mut [u8], from: usize, numbers: &[f64])
    requires { (6 + 8 * (from + length numbers.now) ≤ length file.old) × (all_finite numbers.now ≡ true) }
    ensures keeps_before { KeepsBefore (6 + 8 * from) file.old file.new }
    ensures k_after { list_of (length numbers.now) (λ k. number_at file.new (from + k)) ≡ numbers.now }
{
    for (k, x) in numbers.iter().enumerate() {
        put_bits(file, 6 + 8 * (from + k), f64::to_bits(*x));
    }
}

// Writes the head: the mark, version 1 and the number of pads.
fn put_head(file: &mut [u8], n: usize)
    requires { (6 ≤ length file.old) × (n < 256) }
    ensures { (length file.new ≡ length file.old) × (headed file.new ≡ true) × (pads_of file.new ≡ n) }
{
    file[0] = b'L';
    file[1] = b'X';
    file[2] = b'P';
    file[3] = 1;
    file[4] = 0;
    file[5] = n as u8;
}

// Writes the whole file: the head, the matrix, the readings.
fn put_file(file: &mut [u8], n: usize, matrix: &[f64], readings: &[f64])
    requires n_bound { (n ≤ 64) × (length matrix.now ≡ n * n) × (length readings.now ≡ n) × (length file.old ≡ file_length n) }
    requires matrix_value { (all_finite matrix.now ≡ true) × (all_finite readings.now ≡ true) }
    ensures { IsFile file.new n matrix.now readings.now }
{
    put_head(file, n);
    put_numbers(file, 0, matrix);
    put_numbers(file, n * n, readings);
}

// Refuses a crossing that no file has, and a slice of `room` bytes that is too short.
#[tactic(auto, using(crate::proofs::Writing::size_small))]
fn test_writing(n: usize, matrix: &[f64], readings: &[f64], room: usize) -> Result<(), Refusal>
    ensures { number_of (outcome result) ≡ writing_refusal n matrix.now readings.now room }
{
    refusals::first_of(&[(Refusal::Size, refusals::outside(1, n))])?;
    let entries = n * n;
    let lengths = (matrix.len() == entries)
        & (readings.len() == n)
        & (6 + 8 * (entries + n) <= room);
    let finite = finite::all_finite(matrix) & finite::all_finite(readings);
    refusals::first_of(&[(Refusal::Length, !lengths), (Refusal::NotFinite, !finite)])
}

// Writes the file of a crossing at the start of a slice. The rest of a longer slice stays as it was. Answers how many bytes it has.
#[tactic(auto, using(crate::proofs::Writing::accepted_small))]
pub fn write(n: usize, matrix: &[f64], readings: &[f64], out: &mut [u8]) -> Result<usize, Refusal>
    ensures { Writing n matrix.now readings.now out.old (written result out.new) }
{
    test_writing(n, matrix, readings, out.len())?;
    let count = 6 + 8 * (n * n + n);
    put_file(&mut out[..count], n, matrix, readings);
    Ok(count)
}
