// The ops of the list of cases, and the slices that each takes.
use crate::BadCase;

// The ops that make factors or change them.
#[derive(Clone, Copy)]
pub enum Making {
    Factor,
    AddColumn,
    RemoveColumn,
    WhyFactor,
    BuildUp,
}

// The ops that read factors and write x.
#[derive(Clone, Copy)]
pub enum Reading {
    Solve,
    TrSolve,
    Inverse,
    L,
    U,
}

// The ops that read factors.
#[derive(Clone, Copy)]
pub enum OfFactors {
    Reading(Reading),
    Determinant,
    ScaledDeterminant,
    IsInvertible,
    WhySolve,
}

// The solves with a triangular matrix.
#[derive(Clone, Copy)]
pub enum Triangle {
    Lower,
    Upper,
    LowerWithDiag,
    LowerWithDiagCorrected,
    TrLower,
    TrUpper,
}

// The ops of a swap list on a matrix.
#[derive(Clone, Copy)]
pub enum Permuting {
    Rows,
    InvRows,
    Columns,
    InvColumns,
}

// The ops on a panel file.
#[derive(Clone, Copy)]
pub enum OfFile {
    Text,
    WhyText,
    Moves,
    Stiffness,
    Write,
}

#[derive(Clone, Copy)]
pub enum Op {
    Making(Making),
    OfFactors(OfFactors),
    Triangle(Triangle),
    Permuting(Permuting),
    AppendPermutation,
    Rank,
    FindPivot,
    OfFile(OfFile),
    FourPads,
    FourPadsOfFile,
    Season,
}

impl TryFrom<u8> for Op {
    type Error = BadCase;

    fn try_from(number: u8) -> Result<Op, BadCase> {
        match number {
            1 => Ok(Op::Making(Making::Factor)),
            2 => Ok(Op::Making(Making::AddColumn)),
            3 => Ok(Op::OfFactors(OfFactors::Reading(Reading::Solve))),
            4 => Ok(Op::OfFactors(OfFactors::Reading(Reading::Inverse))),
            5 => Ok(Op::OfFactors(OfFactors::Determinant)),
            6 => Ok(Op::OfFactors(OfFactors::IsInvertible)),
            7 => Ok(Op::OfFactors(OfFactors::Reading(Reading::L))),
            8 => Ok(Op::OfFactors(OfFactors::Reading(Reading::U))),
            9 => Ok(Op::Triangle(Triangle::Lower)),
            10 => Ok(Op::Triangle(Triangle::Upper)),
            11 => Ok(Op::Triangle(Triangle::LowerWithDiag)),
            12 => Ok(Op::Triangle(Triangle::TrLower)),
            13 => Ok(Op::Triangle(Triangle::TrUpper)),
            14 => Ok(Op::Permuting(Permuting::Rows)),
            15 => Ok(Op::Permuting(Permuting::InvRows)),
            16 => Ok(Op::Permuting(Permuting::Columns)),
            17 => Ok(Op::Permuting(Permuting::InvColumns)),
            18 => Ok(Op::AppendPermutation),
            19 => Ok(Op::Rank),
            20 => Ok(Op::OfFile(OfFile::Text)),
            21 => Ok(Op::OfFile(OfFile::Write)),
            22 => Ok(Op::Making(Making::RemoveColumn)),
            23 => Ok(Op::FindPivot),
            24 => Ok(Op::Triangle(Triangle::LowerWithDiagCorrected)),
            25 => Ok(Op::OfFactors(OfFactors::Reading(Reading::TrSolve))),
            26 => Ok(Op::OfFile(OfFile::Moves)),
            27 => Ok(Op::Making(Making::WhyFactor)),
            28 => Ok(Op::OfFactors(OfFactors::WhySolve)),
            29 => Ok(Op::OfFile(OfFile::WhyText)),
            30 => Ok(Op::OfFactors(OfFactors::ScaledDeterminant)),
            31 => Ok(Op::OfFile(OfFile::Stiffness)),
            32 => Ok(Op::FourPads),
            33 => Ok(Op::FourPadsOfFile),
            34 => Ok(Op::Season),
            35 => Ok(Op::Making(Making::BuildUp)),
            _ => Err(BadCase),
        }
    }
}

// The kinds of slices.
#[derive(Clone, Copy)]
pub enum Slice {
    // Floats that are read.
    A,
    B,
    // Floats that are written.
    X,
    // Whole numbers that are written.
    Swaps,
    // The number of pairs of a swap list.
    Pairs,
    // The pairs and the dead columns of a record.
    Record,
    Diagonal,
    // Two rows that are swapped.
    Rows,
    // The floats of four pads, which stand in a and b.
    FourMatrix,
    FourReadings,
    // A file's bytes.
    File,
    // The bytes of files whose lengths are the swaps.
    Files,
}

// The slices that an op takes, in their order.
pub fn slices_of(op: Op) -> &'static [Slice] {
    match op {
        Op::Making(Making::AddColumn) => &[Slice::X, Slice::B, Slice::Swaps, Slice::Record],
        Op::Making(Making::RemoveColumn) => &[Slice::X, Slice::Swaps, Slice::Record],
        Op::Making(_) => &[Slice::A, Slice::X, Slice::Swaps],
        Op::OfFactors(of_factors) => slices_of_factors(of_factors),
        Op::Triangle(Triangle::LowerWithDiag | Triangle::LowerWithDiagCorrected) => {
            &[Slice::A, Slice::Diagonal, Slice::B, Slice::X]
        }
        Op::Triangle(_) => &[Slice::A, Slice::B, Slice::X],
        Op::Permuting(_) => &[Slice::Swaps, Slice::Pairs, Slice::X],
        Op::AppendPermutation => &[Slice::Swaps, Slice::Pairs, Slice::Rows],
        Op::Rank => &[Slice::A, Slice::Swaps],
        Op::FindPivot => &[Slice::A],
        Op::OfFile(OfFile::Write) => &[Slice::A, Slice::B, Slice::File],
        Op::OfFile(_) | Op::FourPadsOfFile => &[Slice::File],
        Op::FourPads => &[Slice::FourMatrix, Slice::FourReadings],
        Op::Season => &[Slice::Swaps, Slice::Files],
    }
}

fn slices_of_factors(op: OfFactors) -> &'static [Slice] {
    match op {
        OfFactors::Reading(Reading::Solve | Reading::TrSolve) | OfFactors::WhySolve => {
            &[Slice::A, Slice::Swaps, Slice::Record, Slice::B, Slice::X]
        }
        OfFactors::Reading(_) => &[Slice::A, Slice::Swaps, Slice::Record, Slice::X],
        OfFactors::Determinant | OfFactors::ScaledDeterminant | OfFactors::IsInvertible => {
            &[Slice::A, Slice::Swaps, Slice::Record]
        }
    }
}
