// The calls of the four-pad profile. Their results stand in arrays, so that no length is told.
ghost use Rattle.std.specs.Prelude.{◌≡◌};
ghost use Rattle.four_pads.specs.Profile.{four_pads};
ghost use Rattle.four_pads_file.specs.FileProfile.{four_pads_in};
ghost use Rattle.ffi.specs.Profiles.{profile};

use four_pads::FourPads;

// Tells the profile through pointers. Answers the refusal's number.
fn tell_profile(
    answer: FourPads,
    factors: &mut [f64; 16],
    pairs: &mut usize,
    swaps: &mut [usize; 8],
    loads: &mut [f64; 4],
) -> usize
    ensures { profile result factors.new pairs.new swaps.new loads.new ≡ answer }
{
    let packed = answer.factors;
    let rows = answer.swaps;
    let solved = answer.loads;
    *factors = packed;
    *pairs = answer.pairs;
    *swaps = rows;
    *loads = solved;
    answer.number
}

// The profile of a crossing, told. The one place that calls it, so that it is put in its place: called at two, a call takes 79 ns instead of 56.
fn tell_crossing(
    matrix: &[[f64; 4]; 4],
    readings: &[f64; 4],
    factors: &mut [f64; 16],
    pairs: &mut usize,
    swaps: &mut [usize; 8],
    loads: &mut [f64; 4],
) -> usize
    ensures { profile result factors.new pairs.new swaps.new loads.new
        ≡ four_pads matrix.now readings.now }
{
    let columns = *matrix;
    let sides = *readings;
    tell_profile(
        four_pads::four_pads(columns, sides),
        factors,
        pairs,
        swaps,
        loads,
    )
}

// The factors, swaps and loads of a crossing of four pads. Refused: zeros.
pub fn wejdarox_four_pads(
    matrix: &[[f64; 4]; 4],
    readings: &[f64; 4],
    factors: &mut [f64; 16],
    pairs: &mut usize,
    swaps: &mut [usize; 8],
    loads: &mut [f64; 4],
) -> usize
    ensures { profile result factors.new pairs.new swaps.new loads.new
        ≡ four_pads matrix.now readings.now }
{
    tell_crossing(matrix, readings, factors, pairs, swaps, loads)
}

// The same for a panel file of four pads. Refused, also for another size: zeros.
pub fn wejdarox_four_pads_of(
    file: &[u8],
    factors: &mut [f64; 16],
    pairs: &mut usize,
    swaps: &mut [usize; 8],
    loads: &mut [f64; 4],
) -> usize
    ensures { profile result factors.new pairs.new swaps.new loads.new ≡ four_pads_in file.now }
{
    let read = four_pads_file::numbers_of(file);
    if read.number != 0 {
        return tell_profile(
            four_pads::refused(read.number),
            factors,
            pairs,
            swaps,
            loads,
        );
    }
    let numbers = read.matrix;
    let matrix = four_pads_file::by_columns(numbers);
    let readings = read.readings;
    tell_crossing(&matrix, &readings, factors, pairs, swaps, loads)
}
