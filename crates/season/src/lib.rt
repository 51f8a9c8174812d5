// A season's figures (document 02, request 13): panel files are handed over one at a time, and counted by what becomes of them.
#![tactic(auto)]

ghost use Rattle.std.specs.Prelude.{◌≡◌, ◌≤◌, true, false, [], length};
ghost use Rattle.finite.specs.Finite.{all_finite};
ghost use Rattle.refusals.specs.Outcome.{done, outcome, and_then};
ghost use Rattle.ranking.specs.Ranking.{loaded, listing};
ghost use Rattle.crossing.specs.Below.{packed_in, solution_in};
ghost use Rattle.crossing.specs.Factors.{fronted};
ghost use Rattle.season.specs.Telling.{share_of, telling, share_told};
ghost use Rattle.season.specs.Season.{season_of, one_more_at, counted, handing, handed, counts_of, season_from};

use factors::Record;
use lu::Factored;
use refusals::{Refusal, Refused};

// What an accepted file brings to a season: the pads that are listed, and the band of its crossing.
#[derive(Clone, Copy)]
struct Crossing {
    pads: usize,
    band: Option<usize>,
}

// How many of the n pads carry something.
fn listed(loads: &[f64], n: usize) -> usize
    requires { (1 ≤ n) × (n ≤ 64) × (length loads.now ≡ n) × (all_finite loads.now ≡ true) }
    ensures { result ≡ length (listing (loaded loads.now) loads.now n) }
{
    let mut ranks = [0usize; 64];
    ranking::rank(loads, n, &mut ranks[..n]).unwrap_or(0)
}

// Solves for the readings, into loads, each in front of its store.
fn solve_readings(
    matrix: &[f64; 4096],
    swaps: &[usize],
    told: Record,
    readings: &[f64; 64],
    loads: &mut [f64; 64],
) -> Result<(), Refusal>
    requires { told.rows ≤ 64 }
    ensures value { outcome result ≡ and_then (solution_in false matrix.now swaps.now told readings.now) (λ _. done tt) }
    ensures loads_after { loads.new
        ≡ fronted told.rows (solution_in false matrix.now swaps.now told readings.now) loads.old }
{
    let n = told.rows;
    let entries = n * n;
    from_factors::solve(
        &matrix[..entries],
        swaps,
        told,
        &readings[..n],
        1,
        &mut loads[..n],
    )
}

// What a crossing brings whose factors and readings stand in front of their stores.
fn tell_crossing(
    matrix: &[f64; 4096],
    swaps: &[usize],
    told: Record,
    readings: &[f64; 64],
) -> Result<Crossing, Refusal>
    requires { (1 ≤ told.rows) × (told.rows ≤ 64) }
    ensures { share_told result ≡ and_then (solution_in false matrix.now swaps.now told readings.now)
        (λ x. done (share_of (packed_in matrix.now swaps.now told) x)) }
{
    let mut loads = [0.0f64; 64];
    solve_readings(matrix, swaps, told, readings, &mut loads)?;
    let n = told.rows;
    let entries = n * n;
    Ok(Crossing {
        pads: listed(&loads[..n], n),
        band: bands::band(&matrix[..entries], n),
    })
}

// What a file brings.
fn tell(file: &[u8]) -> Result<Crossing, Refusal>
    ensures { share_told result ≡ telling file.now }
{
    let mut matrix = [0.0f64; 4096];
    let mut readings = [0.0f64; 64];
    let mut swaps = [0usize; 128];
    let Factored { told, toss_ups: _ } = crossing::factor_file(
        file,
        &mut matrix,
        &mut readings,
        &mut swaps,
    )?;
    tell_crossing(&matrix, &swaps, told, &readings)
}

// One more at place i, where there is such a place.
fn one_more<const N: usize>(mut a: [usize; N], i: usize) -> [usize; N]
    ensures { result ≡ one_more_at i a.entry }
{
    if i < N {
        a[i] = std::num::wrapping_add_usize(a[i], 1);
    }
    a
}

// The counts: of the files handed over, of those accepted, of those refused under 1 to 9, of the listed pads, and of the crossings in each band.
#[derive(Clone, Copy)]
pub struct Season {
    pub files: usize,
    pub accepted: usize,
    pub refused: [usize; 9],
    pub pads: usize,
    pub bands: [usize; 5],
}

impl Season {
    // A season of no file.
    pub fn new() -> Self
        ensures { result ≡ season_of [] }
    {
        Self {
            files: 0,
            accepted: 0,
            refused: [0usize; 9],
            pads: 0,
            bands: [0usize; 5],
        }
    }

    // The season with a file that brought this.
    #[tactic(auto, using(crate::proofs::Rows::past_end), unfolding(crate::specs::Season::counted))]
    fn counted(self, told: Result<Crossing, Refusal>) -> Self
        ensures { result ≡ counted self (share_told told) }
    {
        let files = std::num::wrapping_add_usize(self.files, 1);
        let refused = self.refused;
        let bands = self.bands;
        match told {
            Ok(Crossing { pads, band }) => Self {
                files,
                accepted: std::num::wrapping_add_usize(self.accepted, 1),
                refused,
                pads: std::num::wrapping_add_usize(self.pads, pads),
                bands: match band {
                    Some(band) => one_more(bands, band),
                    None => bands,
                },
            },
            Err(refusal) => Self {
                files,
                accepted: self.accepted,
                refused: one_more(refused, usize::from(refusal) - 1),
                pads: self.pads,
                bands,
            },
        }
    }

    // The season with one file more; refused where there are 4,000, and then as it was.
    #[tactic(auto, unfolding(crate::specs::Season::handing, refusals::specs::Outcome::tested, refusals::specs::Outcome::first_holding))]
    pub fn with_file(self, file: &[u8]) -> Result<Self, Refused<Self>>
        ensures { handed result ≡ handing self file.now }
    {
        if self.files < 4000 {
            Ok(self.counted(tell(file)))
        } else {
            Err(Refused {
                refusal: Refusal::SeasonFull,
                old: self,
            })
        }
    }

    // The sixteen counts in the order in which they are printed, and the number of files.
    pub fn counts(self) -> [usize; 17]
        ensures { result ≡ counts_of self }
    {
        let r = self.refused;
        let b = self.bands;
        [
            self.accepted,
            r[0],
            r[1],
            r[2],
            r[3],
            r[4],
            r[5],
            r[6],
            r[7],
            r[8],
            self.pads,
            b[0],
            b[1],
            b[2],
            b[3],
            b[4],
            self.files,
        ]
    }

    // The season with these counts.
    pub fn from_counts(c: [usize; 17]) -> Self
        ensures { result ≡ season_from c }
    {
        Self {
            files: c[16],
            accepted: c[0],
            refused: [c[1], c[2], c[3], c[4], c[5], c[6], c[7], c[8], c[9]],
            pads: c[10],
            bands: [c[11], c[12], c[13], c[14], c[15]],
        }
    }
}
