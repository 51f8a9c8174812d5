// The pads of a crossing, by its panel file: their order (document 01, "Ranking and program"), and how a pad's load moves with each reading (document 02,
// request 5).
#![tactic(auto)]

ghost use Rattle.std.specs.Prelude.{◌≡◌, true, false, ◌-◌, ◌≤◌, length};
ghost use Rattle.refusals.specs.Outcome.{done, refused, outcome, number, and_then};
ghost use Rattle.from_factors.specs.Solving.{unit_column};
ghost use Rattle.crossing.specs.Below.{packed, packed_in, solution_by, solution_in};
ghost use Rattle.crossing.specs.Factors.{settled_in, fronted};
ghost use Rattle.crossing_pads.specs.Ordering.{ranks_left, ordering, pads_ordered};
ghost use Rattle.crossing_pads.specs.Moving.{moving};

use factors::Record;
use lu::Factored;
use refusals::Refusal;

// What a call on a panel file answers: how many pads it has and at how many columns the pivot was a toss-up.
#[derive(Clone, Copy)]
pub struct Order {
    pub pads: usize,
    pub toss_ups: usize,
}

// Solves for the right-hand side b, into x, by the system or by the transposed one.
fn solve_system(
    transposed: bool,
    factors: &[f64],
    swaps: &[usize],
    told: Record,
    b: &[f64],
    x: &mut [f64],
) -> Result<(), Refusal>
    requires { length x.old ≡ told.rows }
    ensures result_value { outcome result
        ≡ and_then (solution_by transposed (packed factors.now swaps.now told) b.now) (λ _. done tt) }
    ensures x_after { x.new
        ≡ settled_in (solution_by transposed (packed factors.now swaps.now told) b.now) x.old }
{
    if transposed {
        from_factors::tr_solve(factors, swaps, told, b, 1, x)
    } else {
        from_factors::solve(factors, swaps, told, b, 1, x)
    }
}

// The same with the factors, the right-hand side and the solution in front of their stores.
fn solve_front(
    transposed: bool,
    matrix: &[f64; 4096],
    swaps: &[usize],
    told: Record,
    b: &[f64; 64],
    x: &mut [f64; 64],
) -> Result<(), Refusal>
    requires { told.rows ≤ 64 }
    ensures result_value { outcome result
        ≡ and_then (solution_in transposed matrix.now swaps.now told b.now) (λ _. done tt) }
    ensures x_after { x.new
        ≡ fronted told.rows (solution_in transposed matrix.now swaps.now told b.now) x.old }
{
    let n = told.rows;
    let entries = n * n;
    solve_system(
        transposed,
        &matrix[..entries],
        swaps,
        told,
        &b[..n],
        &mut x[..n],
    )
}

// A refusal by overflow leaves +0.0 in front of the results, any other all as it was.
fn refuse(refusal: Refusal, n: usize, out: &mut [f64; 64]) -> Result<Order, Refusal>
    requires { number refusal ≡ 7 → n ≤ 64 }
    ensures value { result ≡ Err refusal }
    ensures out_after { out.new ≡ fronted n (refused (number refusal)) out.old }
{
    let overflown = refusal == Refusal::Overflow;
    if overflown {
        blas::fill_zero(&mut out[..n]);
    }
    Err(refusal)
}

// The loads for the readings, and the pads in the order of their loads.
fn rank_loads(
    matrix: &[f64; 4096],
    swaps: &[usize],
    told: Record,
    toss_ups: usize,
    readings: &[f64; 64],
    ranks: &mut [usize; 64],
    loads: &mut [f64; 64],
) -> Result<Order, Refusal>
    requires { (1 ≤ told.rows) × (told.rows ≤ 64) }
    ensures result_value { pads_ordered result
        ≡ and_then (solution_in false matrix.now swaps.now told readings.now) (λ _. done (told.rows, toss_ups)) }
    ensures ranks_after { ranks.new
        ≡ ranks_left told.rows (solution_in false matrix.now swaps.now told readings.now) ranks.old }
    ensures loads_after { loads.new
        ≡ fronted told.rows (solution_in false matrix.now swaps.now told readings.now) loads.old }
{
    solve_front(false, matrix, swaps, told, readings, loads)?;
    let n = told.rows;
    // the loads are finite and as many as the ranks, so that all of them are ranked
    let _ = ranking::rank_all(&loads[..n], n, &mut ranks[..n]);
    Ok(Order { pads: n, toss_ups })
}

// The whole answer for a panel file: its pads in rank order, with their loads in pad order.
pub fn pad_order(
    file: &[u8],
    ranks: &mut [usize; 64],
    loads: &mut [f64; 64],
) -> Result<Order, Refusal>
    ensures result_value { pads_ordered result ≡ (ordering file.now ranks.old loads.old).answer }
    ensures ranks_after { ranks.new ≡ (ordering file.now ranks.old loads.old).left.ranks }
    ensures loads_after { loads.new ≡ (ordering file.now ranks.old loads.old).left.loads }
    ensures loads_len { length loads.new ≡ 64 }
{
    let mut matrix = [0.0f64; 4096];
    let mut readings = [0.0f64; 64];
    let mut swaps = [0usize; 128];
    match crossing::factor_file(file, &mut matrix, &mut readings, &mut swaps) {
        Ok(Factored { told, toss_ups }) => {
            rank_loads(&matrix, &swaps, told, toss_ups, &readings, ranks, loads)
        }
        Err(refusal) => refuse(refusal, panel_file::pads_of(file), loads),
    }
}

// The transposed solve of a pad's unit column.
fn move_pad(
    matrix: &[f64; 4096],
    swaps: &[usize],
    told: Record,
    toss_ups: usize,
    pad: usize,
    out: &mut [f64; 64],
) -> Result<Order, Refusal>
    requires { (1 ≤ pad) × (pad ≤ told.rows) × (told.rows ≤ 64) }
    ensures result_value { pads_ordered result ≡ and_then
        (solution_by true (packed_in matrix.now swaps.now told) (unit_column told.rows (pad - 1)))
        (λ _. done (told.rows, toss_ups)) }
    ensures out_after { out.new ≡ fronted told.rows
        (solution_by true (packed_in matrix.now swaps.now told) (unit_column told.rows (pad - 1))) out.old }
{
    let mut unit = [0.0f64; 64];
    unit[pad - 1] = 1.0;
    solve_front(true, matrix, swaps, told, &unit, out)?;
    Ok(Order {
        pads: told.rows,
        toss_ups,
    })
}

// How a pad's load moves with each reading: a number a reading, for a panel file and a pad number from 1, which is tested after the file and before factoring.
pub fn moves(file: &[u8], pad: usize, out: &mut [f64; 64]) -> Result<Order, Refusal>
    ensures result_value { pads_ordered result ≡ (moving file.now pad out.old).answer }
    ensures out_after { out.new ≡ (moving file.now pad out.old).left }
    ensures out_len { length out.new ≡ 64 }
{
    let n = panel_file::pads_of(file);
    let nowhere = (pad == 0) | (n < pad);
    if nowhere {
        // An arm for each, and no `?`, so that the edit pad_before_file can change the refusal alone.
        return match panel_file::test_file(file) {
            Ok(()) => Err(Refusal::Size),
            Err(refusal) => Err(refusal),
        };
    }
    let mut matrix = [0.0f64; 4096];
    let mut readings = [0.0f64; 64];
    let mut swaps = [0usize; 128];
    match crossing::factor_file(file, &mut matrix, &mut readings, &mut swaps) {
        Ok(Factored { told, toss_ups }) => move_pad(&matrix, &swaps, told, toss_ups, pad, out),
        Err(refusal) => refuse(refusal, n, out),
    }
}
