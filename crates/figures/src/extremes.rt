// The lowest or the highest of the present cells of a column.
ghost use Rattle.std.specs.Prelude.{◌≡◌};
ghost use Rattle.figures.specs.Cells.{numbers};
ghost use Rattle.figures.specs.Extremes.{further, extended, extreme_of};

use crate::cells::{Cell, Column, Outcome};

#[derive(Clone, Copy, Debug, PartialEq, Eq)]
pub enum Extreme {
    Least,
    Greatest,
}

impl Extreme {
    // The one of two numbers that lies further to that side.
    fn further(self, a: i64, b: i64) -> i64
        ensures { result ≡ further self a b }
    {
        match self {
            Extreme::Least => a.min(b),
            Extreme::Greatest => a.max(b),
        }
    }

    // The extreme so far, with one cell more.
    fn extended(self, best: Outcome, cell: Cell) -> Outcome
        ensures { result ≡ extended self best cell }
    {
        match (best, cell) {
            (_, None) => best,
            (None, Some(x)) => Some(i64::from(x)),
            (Some(m), Some(x)) => Some(self.further(m, i64::from(x))),
        }
    }

    // The number that lies furthest to that side.
    pub(crate) fn of(self, column: Column, rows: &[[Cell; 4]]) -> Outcome
        ensures { result ≡ extreme_of self (numbers column rows.now) }
    {
        rows.iter()
            .fold(None, |best, row| self.extended(best, column.cell(row)))
    }
}
