// The figures that a letter names.
ghost use Rattle.std.specs.Prelude.{◌≡◌, ◌+◌, ◌-◌, length, take, fold, pos};
ghost use Rattle.std.specs.Result.{result_ok};
ghost use Rattle.std.specs.List.{slice_get};
ghost use Rattle.figures.specs.Carries.{absorbed};
ghost use Rattle.figures.specs.Cells.{cell_of};
ghost use Rattle.figures.specs.Named.{code, Names};
ghost use Rattle.figures.specs.Rules.{meaning, cell_before};

use crate::carry::{Carry, plus};
use crate::cells::{Cell, Column, Outcome};
use crate::extremes::Extreme;
use crate::figure::Figure;

#[derive(Clone, Copy, Debug, PartialEq, Eq)]
pub enum Letter {
    // n: the row's number, from 1
    RowNumber,
    // r: sum of the present cells from the first row on
    RunningSum,
    // k: rows in the frame
    Rows,
    // c: present cells in the frame
    Present,
    // s: sum of the present cells
    Sum,
    // l: lowest of them
    Lowest,
    // h: highest of them
    Highest,
    // f: first cell of the frame
    First,
    // t: last cell of the frame
    Last,
    // g: the cell B rows earlier
    Earlier,
    // d: the cell A rows later
    Later,
    // a: mean of the present cells
    Mean,
}

// A settings byte that names no letter.
#[derive(Clone, Copy, Debug, PartialEq, Eq)]
pub struct UnknownLetter(pub u8);

impl TryFrom<u8> for Letter {
    type Error = UnknownLetter;

    ghost try_from_gives = { λ byte r. Names code byte (result_ok r) };

    fn try_from(byte: u8) -> Result<Letter, UnknownLetter> {
        match byte as char {
            'n' => Ok(Letter::RowNumber),
            'r' => Ok(Letter::RunningSum),
            'k' => Ok(Letter::Rows),
            'c' => Ok(Letter::Present),
            's' => Ok(Letter::Sum),
            'l' => Ok(Letter::Lowest),
            'h' => Ok(Letter::Highest),
            'f' => Ok(Letter::First),
            't' => Ok(Letter::Last),
            'g' => Ok(Letter::Earlier),
            'd' => Ok(Letter::Later),
            'a' => Ok(Letter::Mean),
            _ => Err(UnknownLetter(byte)),
        }
    }
}

// A letter's figure over the cells of one column. Every letter has its meaning at every column and reach; which of them settings may ask for is not decided here.
#[derive(Clone, Copy, Debug, PartialEq, Eq)]
pub struct LetterFigure {
    pub letter: Letter,
    pub column: Column,
    pub before: u16,
    pub after: u16,
}

// The cell of the row at a place, missing where there is no such row.
// Column and rows stay two parameters: a figure has the one, a frame is the other.
fn shown_cell(column: Column, rows: &[[Cell; 4]], place: usize) -> Outcome
    ensures { result ≡ cell_of column (slice_get rows.now place) }
{
    column.shown(rows.get(place)?)
}

// The cell `before` rows before the row at the position.
fn earlier(column: Column, before: u16, rows: &[[Cell; 4]], position: usize) -> Outcome
    ensures { result ≡ cell_before column before rows.now position }
{
    let place = position.checked_sub(usize::from(before))?;
    shown_cell(column, rows, place)
}

// The cell `after` rows after the row at the position.
fn later(column: Column, after: u16, rows: &[[Cell; 4]], position: usize) -> Outcome
    ensures { result ≡ cell_of column (slice_get rows.now (position + after)) }
{
    let place = position.checked_add(usize::from(after))?;
    shown_cell(column, rows, place)
}

// The cell of the last row.
fn last(column: Column, rows: &[[Cell; 4]]) -> Outcome
    ensures { result ≡ cell_of column (slice_get rows.now (length rows.now - 1)) }
{
    column.shown(rows.last()?)
}

// How many rows there are.
fn count(rows: &[[Cell; 4]]) -> i64
    ensures { result ≡ pos (length rows.now) }
{
    rows.len() as i64
}

// The frame's rows up to a position.
fn up_to(rows: &[[Cell; 4]], position: usize) -> &[[Cell; 4]]
    ensures { result.now ≡ take (position + 1) rows.now }
{
    rows.get(..=position).unwrap_or(rows)
}

// What a carry becomes with some rows. No generic fold over `Figure::absorb`: at this type it leads back to `value` below, and gets no proof.
fn absorb_all(column: Column, carry: Carry, rows: &[[Cell; 4]]) -> Carry
    ensures { result ≡ fold (absorbed column) carry rows.now }
{
    rows.iter()
        .fold(carry, |all, row| all.add(column.cell(row)))
}

impl Figure for LetterFigure {
    ghost back = { meaning.back };

    ghost ahead = { meaning.ahead };

    ghost starts = { meaning.starts };

    ghost absorbs = { meaning.absorbs };

    ghost yields = { meaning.yields };

    fn before(&self) -> u16 {
        self.before
    }

    fn after(&self) -> u16 {
        self.after
    }

    fn start(&self) -> Carry {
        Carry::default()
    }

    fn absorb(&self, carry: Carry, cells: &[Cell; 4]) -> Carry {
        carry.add(self.column.cell(cells))
    }

    fn value(&self, carry: &Carry, frame: &[[Cell; 4]], position: usize) -> Outcome {
        let column = self.column;
        match self.letter {
            Letter::RowNumber => Some(plus(carry.rows, count(up_to(frame, position)))),
            Letter::RunningSum => absorb_all(column, *carry, up_to(frame, position)).shown_sum(),
            Letter::Rows => Some(count(frame)),
            Letter::Present => Some(absorb_all(column, Carry::default(), frame).present),
            Letter::Sum => absorb_all(column, Carry::default(), frame).shown_sum(),
            Letter::Lowest => Extreme::Least.of(column, frame),
            Letter::Highest => Extreme::Greatest.of(column, frame),
            Letter::First => shown_cell(column, frame, 0),
            Letter::Last => last(column, frame),
            Letter::Earlier => earlier(column, self.before, frame, position),
            Letter::Later => later(column, self.after, frame, position),
            Letter::Mean => absorb_all(column, Carry::default(), frame).shown_mean(),
        }
    }
}
