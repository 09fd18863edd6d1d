// A figure's result at a rank.
ghost use Rattle.std.specs.Prelude.{◌≡◌, ◌^◌, ◌<◌, length, fold};
ghost use Rattle.figures.specs.Catching.{worked};
ghost use Rattle.figures.specs.Lines.{line, LettersMean, ExtremesHold};
ghost use Rattle.figures.specs.Results.{outcome_of};
ghost use Rattle.figures.specs.Rules.{meaning};

use crate::carry::Carry;
use crate::cells::{Cell, Outcome, rows_fit};
use crate::figure::Figure;
use crate::letters::LetterFigure;
use crate::rows::KeptRows;

// The result of a rank, from its carry and the rows that are kept.
pub(crate) fn result_of<F: Figure>(
    figure: &F,
    carry: &Carry,
    kept: &KeptRows<'_>,
    rank: usize,
) -> Outcome
    requires { rank < 2 ^ 63 }
    ensures { result ≡ worked F.Figure figure.now carry.now kept.now.first kept.now.rows.now rank }
{
    let start = rank.saturating_sub(usize::from(figure.before()));
    let end = rank + usize::from(figure.after()) + 1;
    figure.value(carry, kept.between(start, end), rank - start)
}

// What the starting carry becomes with some rows.
fn absorb_from_start<F: Figure>(figure: &F, rows: &[[Cell; 4]]) -> Carry
    ensures { result ≡ fold (F.Figure.absorbs figure.now) (F.Figure.starts figure.now) rows.now }
{
    rows.iter()
        .fold(figure.start(), |carry, row| figure.absorb(carry, row))
}

// The result of a rank, from all of the key's rows.
pub fn result_at<F: Figure>(figure: &F, rows: &[[Cell; 4]], rank: u32) -> Outcome
    ensures { result ≡ outcome_of F.Figure figure.now rows.now rank }
{
    let start = (rank as usize)
        .saturating_sub(usize::from(figure.before()))
        .min(rows.len());
    let carry = absorb_from_start(figure, &rows[..start]);
    result_of(figure, &carry, &KeptRows { first: 0, rows }, rank as usize)
}

// The result of a letter's figure at a rank, from all of the key's rows. For every letter, column, reach, key and rank it is the letter's line.
pub fn letter_at(figure: &LetterFigure, rows: &[[Cell; 4]], rank: u32) -> Outcome
    ensures value { result ≡ outcome_of meaning figure.now rows.now rank }
    ensures line { rank < length rows.now → length rows.now < 2 ^ 32 → result ≡ line figure.now.letter figure.now.column figure.now.before figure.now.after rows.now rank }
    ensures letters { LettersMean }
    ensures extremes { ExtremesHold }
{
    rows_fit(rows);
    result_at(figure, rows, rank)
}
