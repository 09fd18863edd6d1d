// Settings by numbers and letters, checked.
ghost use Rattle.std.specs.Prelude.{◌≡◌, ◌&&◌};
ghost use Rattle.figures.specs.Named.{place, code};
ghost use Rattle.figures.specs.Sets.{figures};
ghost use Rattle.faults.specs.Numbers.{settings_told, answered};
ghost use Rattle.settings.specs.Given.{named, letters, columns, no_column, free, longest, within_reach, column_of, figure_given, set_given, mapped_ok};

use crate::raw::{RawFigure, RawSettings};
use faults::settings::SettingsFault;
use figures::cells::Column;
use figures::letters::{Letter, LetterFigure};
use figures::set::FigureSet;

// Whether a letter looks at no cell, so that its column is 0.
fn takes_no_column(letter: Letter) -> bool
    ensures { result ≡ no_column letter }
{
    matches!(letter, Letter::RowNumber | Letter::Rows)
}

// The longest reach that a letter may have.
const LONGEST: u16 = 512;

// The longest reaches, before and after, that a letter may have.
fn longest_reaches(letter: Letter) -> (u16, u16)
    ensures { result ≡ (longest (free letter).0, longest (free letter).1) }
{
    match letter {
        Letter::RowNumber | Letter::RunningSum => (0, 0),
        Letter::Earlier => (LONGEST, 0),
        Letter::Later => (0, LONGEST),
        _ => (LONGEST, LONGEST),
    }
}

// Whether both reaches are such as the letter may have.
fn may_reach(letter: Letter, before: u16, after: u16) -> bool
    ensures { result ≡ (within_reach (free letter).0 before && within_reach (free letter).1 after) }
{
    let (back, ahead) = longest_reaches(letter);
    before <= back && after <= ahead
}

// What a byte names in the table of letters, and a number in that of columns.
// Two functions for what each states: the checks speak of either table by `named`.
fn letter_named(byte: u8) -> Option<Letter>
    ensures { result ≡ named code letters byte }
{
    Letter::try_from(byte).ok()
}

fn column_named(number: u8) -> Option<Column>
    ensures { result ≡ named place columns number }
{
    Column::try_from(number).ok()
}

// The column that a letter takes.
fn column_for(letter: Letter, number: u8) -> Option<Column>
    ensures { result ≡ column_of letter number }
{
    if takes_no_column(letter) && number != 0 {
        return None;
    }
    column_named(number)
}

// One figure, at its place among the others.
fn check_figure(raw: &RawFigure, at: usize) -> Result<LetterFigure, SettingsFault>
    ensures { answered settings_told result ≡ figure_given at raw.now }
{
    let letter = letter_named(raw.letter).ok_or(SettingsFault::Letter(at))?;
    let column = column_for(letter, raw.column).ok_or(SettingsFault::Column(at))?;
    let RawFigure { before, after, .. } = *raw;
    if may_reach(letter, before, after) {
        Ok(LetterFigure {
            letter,
            column,
            before,
            after,
        })
    } else {
        Err(SettingsFault::Reach(at))
    }
}

// The figures in their order, as many as the settings say.
// Each has a field of its own in the set, so that the first refusal comes out by `?`.
pub(crate) fn check_set(raw: &RawSettings) -> Result<FigureSet<LetterFigure>, SettingsFault>
    ensures { answered settings_told (mapped_ok figures result) ≡ set_given raw.now }
{
    match raw.figures {
        1 => Ok(FigureSet::One {
            first: check_figure(&raw.first, 0)?,
        }),
        2 => Ok(FigureSet::Two {
            first: check_figure(&raw.first, 0)?,
            second: check_figure(&raw.second, 1)?,
        }),
        3 => Ok(FigureSet::Three {
            first: check_figure(&raw.first, 0)?,
            second: check_figure(&raw.second, 1)?,
            third: check_figure(&raw.third, 2)?,
        }),
        4 => Ok(FigureSet::Four {
            first: check_figure(&raw.first, 0)?,
            second: check_figure(&raw.second, 1)?,
            third: check_figure(&raw.third, 2)?,
            fourth: check_figure(&raw.fourth, 3)?,
        }),
        _ => Err(SettingsFault::FigureCount),
    }
}
