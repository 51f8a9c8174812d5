// Reads cases on standard input, runs each through the public call that it names, and prints what the call answered and
// what every lent slice holds afterwards.
#![tactic(auto)]

use cases::{BadCase, Case, Op, Slices, Store, read_case};
use lines::Text;

// Runs the op of a case, and puts its line. The borrow checker covers no call that hands on a parameter with `&mut` slices in it,
// nor two of them lent through a `&mut`: so the slices go on one by one.
fn run(text: &mut Text, case: Case, slices: Slices<'_>) {
    let Slices {
        a,
        b,
        x,
        swaps,
        bytes,
    } = slices;
    match case.op {
        Op::Making(op) => factor_ops::run(text, op, case, a, b, x, swaps),
        Op::OfFactors(op) => from_factors_ops::run(text, op, case, a, swaps, b, x),
        Op::Triangle(op) => matrix_ops::solve(text, op, case, a, b, x),
        Op::Permuting(op) => matrix_ops::permute(text, op, case, swaps, x),
        Op::AppendPermutation => matrix_ops::append(text, case, swaps),
        Op::Rank => matrix_ops::rank(text, case, a, swaps),
        Op::FindPivot => matrix_ops::find_pivot(text, case, a),
        Op::OfFile(op) => file_ops::run(text, op, case, a, b, bytes),
        Op::FourPads => four_ops::of_numbers(text, a, b),
        Op::FourPadsOfFile => four_ops::of_file(text, bytes),
        Op::Season => season_ops::run(text, swaps, bytes),
    }
    text.put(b'\n');
}

// Runs case after case. Nothing says that an input ends, so the loop has more turns than any run uses up.
fn run_all(text: &mut Text, store: &mut Store) -> Result<(), BadCase> {
    for _ in 0..u64::MAX {
        let Some((case, slices)) = read_case(store)? else {
            break;
        };
        run(text, case, slices);
    }
    Ok(())
}

fn main() {
    let mut text = Text::new();
    let mut store = Store::new();
    if run_all(&mut text, &mut store).is_err() {
        text.put_word(b"bad case\n");
    }
    text.flush();
}
