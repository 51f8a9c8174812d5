// Document 02, request 7: how many columns of a matrix are dead, that is, have a zero of either sign on the diagonal.
#![tactic(auto)]

ghost use Rattle.std.specs.Prelude.{◌≡◌, ◌≤◌};
ghost use Rattle.dead_columns.specs.Dead.{zero_count, dead_at, dead_of};

// 1 for a zero of either sign, 0 for any other number.
fn zero_count(x: f64) -> usize
    ensures { (result ≡ zero_count x) × (result ≤ 1) }
{
    usize::from(numbers::is_zero(x))
}

// 1 where col, being column number j, is dead, else 0; a column past the last row has no diagonal.
pub fn dead_at(col: &[f64], j: usize) -> usize
    ensures { (result ≡ dead_at j col.now) × (result ≤ 1) }
{
    match col.get(j) {
        Some(&x) => zero_count(x),
        None => 0,
    }
}

// The dead columns among the first min(m, n) of the m by n matrix s; 0 where s is no such matrix.
#[tactic(auto, using(store::proofs::Columns::sized, store::proofs::Columns::column_within))]
pub fn dead_of(s: &[f64], m: usize, n: usize) -> usize
    ensures { result ≡ dead_of s.now m n }
{
    // The contract's `dead_of` is 0 here, so this is no Option.
    if !store::is_matrix(s, m, n) {
        return 0;
    }
    let end = store::min(m, n);
    let mut dead = 0;
    // Other crates walk a diagonal too: what they share is the place a + j, and a function with the step as a closure would be no plainer.
    for j in 0..end {
        let a = j * m;
        let q = a + j;
        dead += zero_count(s[q]);
    }
    dead
}
