// The calls on panel files for C and Rust, in the form of `ffi`: a slice is a pointer and a length, a refusal's number is the answer, and a further number is
// written through a pointer. A text has no refusal, and its answer is how many bytes it has. include/wejdarox.h is the caller's side.
#![tactic(auto)]

ghost use Rattle.std.specs.Prelude.{◌≡◌, length};
ghost use Rattle.refusals.specs.Outcome.{number_of};
ghost use Rattle.lu.specs.Factoring.{tossed_in};
ghost use Rattle.panel_file.specs.Reading.{stores, reading};
ghost use Rattle.panel_file_writer.specs.Writing.{Writing};
ghost use Rattle.crossing_pads.specs.Moving.{moving};
ghost use Rattle.panel_text.specs.Text.{written};
ghost use Rattle.panel_text.specs.Printed.{text_of, moves_text_of, stiffness_text_of};
ghost use Rattle.panel_text.specs.Why.{why_text_of};
ghost use Rattle.ffi.specs.Exports.{pads_in, count_in};
ghost use Rattle.ffi_files.specs.Files.{writing_answer, left_with, version_number};

// Reads a panel file into two stores, its number of pads through pads. Refused: no pads.
pub fn wejdarox_read_panel(
    file: &[u8],
    matrix: &mut [f64],
    readings: &mut [f64],
    pads: &mut usize,
) -> usize
    ensures value { result ≡ number_of (reading file.now (stores matrix.old readings.old)).answer }
    ensures matrix_after { matrix.new ≡ (reading file.now (stores matrix.old readings.old)).left.matrix }
    ensures readings_after { readings.new ≡ (reading file.now (stores matrix.old readings.old)).left.readings }
    ensures pads_after { pads.new ≡ count_in (reading file.now (stores matrix.old readings.old)).answer }
{
    ffi::tell_count(panel_file::read(file, matrix, readings), pads)
}

// Writes the panel file of n pads to the front of out, how many bytes it has through count. Refused: none.
pub fn wejdarox_write_panel(
    n: usize,
    matrix: &[f64],
    readings: &[f64],
    out: &mut [u8],
    count: &mut usize,
) -> usize
    ensures value { result ≡ number_of (writing_answer n matrix.now readings.now (length out.old)) }
    ensures writing { Writing n matrix.now readings.now out.old
        (left_with (writing_answer n matrix.now readings.now (length out.old)) out.new) }
    ensures count_after { count.new ≡ count_in (writing_answer n matrix.now readings.now (length out.old)) }
{
    ffi::tell_count(panel_file_writer::write(n, matrix, readings, out), count)
}

// How a pad's load moves with each reading of a panel file, its number of readings through pads and of toss-ups through toss_ups. Refused: none.
pub fn wejdarox_moves(
    file: &[u8],
    pad: usize,
    moves: &mut [f64; 64],
    pads: &mut usize,
    toss_ups: &mut usize,
) -> usize
    ensures value { result ≡ number_of (moving file.now pad moves.old).answer }
    ensures moves_after { moves.new ≡ (moving file.now pad moves.old).left }
    ensures pads_after { pads.new ≡ pads_in (moving file.now pad moves.old).answer }
    ensures toss_ups_after { toss_ups.new ≡ tossed_in (moving file.now pad moves.old).answer }
{
    ffi::tell_order(crossing_pads::moves(file, pad, moves), pads, toss_ups)
}

// What the program prints for a file, at the front of out. Answers how many bytes it has.
pub fn wejdarox_text(file: &[u8], out: &mut [u8; 1288]) -> usize
    ensures value { result ≡ length (text_of file.now) }
    ensures out_after { out.new ≡ written 0 (text_of file.now) out.old }
{
    panel_text::text(file, out)
}

// What it prints of how a pad's load moves. Answers how many bytes it has.
pub fn wejdarox_moves_text(file: &[u8], pad: usize, out: &mut [u8; 1288]) -> usize
    ensures value { result ≡ length (moves_text_of file.now pad) }
    ensures out_after { out.new ≡ written 0 (moves_text_of file.now pad) out.old }
{
    panel_text::moves_text(file, pad, out)
}

// What it prints of the stiffness. Answers how many bytes it has.
pub fn wejdarox_stiffness_text(file: &[u8], out: &mut [u8; 1288]) -> usize
    ensures value { result ≡ length (stiffness_text_of file.now) }
    ensures out_after { out.new ≡ written 0 (stiffness_text_of file.now) out.old }
{
    panel_text::stiffness_text(file, out)
}

// What it prints of why a file is refused. Answers how many bytes it has.
pub fn wejdarox_why_text(file: &[u8], out: &mut [u8; 1288]) -> usize
    ensures value { result ≡ length (why_text_of file.now) }
    ensures out_after { out.new ≡ written 0 (why_text_of file.now) out.old }
{
    panel_text::why_text(file, out)
}

// The version of the library as one number: a thousand thousands for the first part, a thousand for the second.
pub fn wejdarox_version() -> usize
    ensures { result ≡ version_number }
{
    8000
}
