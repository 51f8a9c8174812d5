// A crossing by its panel file: its matrix factored where it was read, and the quick check of its stiffness.
#![tactic(auto)]

ghost use Rattle.std.specs.Prelude.{◌≡◌, true, ◌*◌, ◌≤◌, length};
ghost use Rattle.finite.specs.Finite.{all_finite};
ghost use Rattle.refusals.specs.Outcome.{done, and_then, outcome};
ghost use Rattle.scaled_determinant.specs.Range.{AnswerRanged};
ghost use Rattle.crossing.specs.Below.{packed_in, factors_of, toss_ups_of, scaled_by};
ghost use Rattle.lu.specs.Factoring.{factored};
ghost use Rattle.crossing.specs.Factors.{factors_in, toss_ups_in, stiffness, tosses_given, settled_in, swaps_left, stores, holding};

use factors::Record;
use lu::Factored;
use refusals::Refusal;
use scaled_determinant::Scaled;

// What the quick check answers: the scaled determinant, or its refusal, and at how many columns the pivot was a toss-up, 0 where the matrix was not factored.
#[derive(Clone, Copy)]
pub struct QuickCheck {
    pub determinant: Result<Scaled, Refusal>,
    pub toss_ups: usize,
}

// Factors the n by n matrix a where it lies.
fn factor_pads(n: usize, a: &mut [f64], swaps: &mut [usize]) -> Result<Factored, Refusal>
    requires { (1 ≤ n) × (n ≤ 64) × (length a.old ≡ n * n) × (all_finite a.old ≡ true) × (length swaps.old ≡ 128) }
    ensures result_value { factored result ≡ and_then (factors_of a.old n) (λ p. done (p.told, toss_ups_of a.old n)) }
    ensures a_after { a.new ≡ settled_in (and_then (factors_of a.old n) (λ p. done p.factors)) a.old }
    ensures swaps_after { swaps.new ≡ swaps_left (factors_of a.old n) swaps.old }
{
    lu::factor_mut(a, n, n, swaps)
}

// The same for the matrix of a file, in stores of 4096, 64 and 128.
fn factor_read(
    file: &[u8],
    matrix: &mut [f64; 4096],
    readings: &mut [f64; 64],
    swaps: &mut [usize; 128],
) -> Result<Factored, Refusal>
    ensures result_value { factored result ≡ (holding file.now (stores matrix.old readings.old swaps.old)).answer }
    ensures swaps_after { stores matrix.new readings.new swaps.new
        ≡ (holding file.now (stores matrix.old readings.old swaps.old)).left }
{
    let n = panel_file::read(file, matrix, readings)?;
    let entries = n * n;
    factor_pads(n, &mut matrix[..entries], swaps)
}

// Factors the matrix of a panel file where it is read: the factors then stand in front of the first store, the readings in front of the second.
pub fn factor_file(
    file: &[u8],
    matrix: &mut [f64; 4096],
    readings: &mut [f64; 64],
    swaps: &mut [usize; 128],
) -> Result<Factored, Refusal>
    ensures result_value { factored result ≡ (holding file.now (stores matrix.old readings.old swaps.old)).answer }
    ensures swaps_after { stores matrix.new readings.new swaps.new
        ≡ (holding file.now (stores matrix.old readings.old swaps.old)).left }
    ensures matrix_len { (length matrix.new ≡ 4096) × (length readings.new ≡ 64) × (length swaps.new ≡ 128) }
{
    factor_read(file, matrix, readings, swaps)
}

// The scaled determinant by the factors in front of their store, or the refusal handed on: document 01's form for who calls the determinant.
fn determinant_of(matrix: &[f64; 4096], swaps: &[usize], told: Record) -> Result<Scaled, Refusal>
    requires { told.rows ≤ 64 }
    ensures result_value { outcome result ≡ scaled_by (packed_in matrix.now swaps.now told) }
    ensures answer_ranged { AnswerRanged result }
{
    let n = told.rows;
    let entries = n * n;
    let answer = scaled_determinant::scaled_determinant(&matrix[..entries], swaps, told);
    let Ok(determinant) = answer else {
        return answer;
    };
    Ok(determinant)
}

// The quick check of a crossing's stiffness: the scaled determinant of a panel file's matrix, or the refusal.
pub fn stiffness(file: &[u8]) -> QuickCheck
    ensures determinant_value { outcome result.determinant ≡ stiffness file.now }
    ensures answer_ranged { AnswerRanged result.determinant }
    ensures toss_ups_value { result.toss_ups ≡ tosses_given (factors_in file.now) (toss_ups_in file.now) }
{
    let mut matrix = [0.0f64; 4096];
    let mut readings = [0.0f64; 64];
    let mut swaps = [0usize; 128];
    match factor_file(file, &mut matrix, &mut readings, &mut swaps) {
        Ok(Factored { told, toss_ups }) => {
            let determinant = determinant_of(&matrix, &swaps, told);
            QuickCheck {
                determinant,
                toss_ups,
            }
        }
        Err(refusal) => QuickCheck {
            determinant: Err(refusal),
            toss_ups: 0,
        },
    }
}
