// One key caught up: the results that come due as its rows come, from the rows that are kept.
ghost use Rattle.std.specs.Prelude.{◌≡◌, ℕ, ◌<◌, length, nat_lt};
ghost use Rattle.figures.specs.Catching.{due, is_due, stretch, passed, carry_after, Right, KeepsUp};

use crate::carry::Carry;
use crate::cells::Outcome;
use crate::figure::Figure;
use crate::results::result_of;
use crate::rows::KeptRows;

// How many of a key's rows have a due result: those with enough rows after them, or all where the key has ended.
pub fn due_rows(rows: u32, ended: bool, after: u16) -> u32
    ensures value { result ≡ due rows ended after }
    ensures ranks { (i : ℕ) → i < rows → nat_lt i result ≡ is_due rows ended after i }
{
    if ended {
        rows
    } else {
        rows.saturating_sub(u32::from(after))
    }
}

// The carry of the rank after `rank`: the row that its frame leaves behind is absorbed.
fn pass<F: Figure>(figure: &F, carry: Carry, kept: &KeptRows<'_>, rank: usize) -> Carry
    ensures { result ≡ passed F.Figure figure.now carry kept.now.first kept.now.rows.now rank }
{
    let Some(left) = rank.checked_sub(usize::from(figure.before())) else {
        return carry;
    };
    match kept.row(left) {
        Some(row) => figure.absorb(carry, row),
        None => carry,
    }
}

// Works out the results of the ranks from `from` on, one for each place of `results`, and answers the carry of the rank after them. `carry` is that of the rank `from`.
pub fn catch_up<F: Figure>(
    figure: &F,
    carry: Carry,
    kept: &KeptRows<'_>,
    from: u32,
    results: &mut [Outcome],
) -> Carry
    ensures results { results.new ≡ stretch F.Figure figure.now carry kept.now.first kept.now.rows.now from (length results.old) }
    ensures carry { result ≡ carry_after F.Figure figure.now carry kept.now.first kept.now.rows.now from (length results.old) }
    ensures whole { Right F.Figure figure.now carry kept.now.first kept.now.rows.now from (length results.old) results.new result }
    ensures theory { KeepsUp F.Figure }
{
    let mut next = carry;
    for (place, result) in results.iter_mut().enumerate() {
        let rank = from as usize + place;
        *result = result_of(figure, &next, kept, rank);
        next = pass(figure, next, kept, rank);
    }
    next
}
