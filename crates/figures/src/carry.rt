// The carry of a figure, and what the letters' carry absorbs.
ghost use Rattle.std.specs.Prelude.{◌≡◌};
ghost use Rattle.figures.specs.Carries.{added, plus};
ghost use Rattle.figures.specs.Rules.{sum_shown, mean_shown};

use crate::cells::{Cell, Outcome};

// What a figure keeps of the rows before a frame. The letters keep the sum and the number of the present cells, and the number of rows.
#[derive(Clone, Copy, Debug, Default, PartialEq, Eq)]
pub struct Carry {
    pub sum: i64,
    pub present: i64,
    pub rows: i64,
}

// The sum, wrapped at 64 bits.
pub(crate) fn plus(a: i64, b: i64) -> i64
    ensures { result ≡ plus a b }
{
    a.wrapping_add(b)
}

impl Carry {
    // One row more, by its cell.
    pub(crate) fn add(self, cell: Cell) -> Carry
        ensures { result ≡ added self cell }
    {
        match cell {
            None => Carry {
                rows: plus(self.rows, 1),
                ..self
            },
            Some(x) => Carry {
                sum: plus(self.sum, i64::from(x)),
                present: plus(self.present, 1),
                rows: plus(self.rows, 1),
            },
        }
    }

    // The sum of the numbers, missing where there is none.
    pub(crate) fn shown_sum(self) -> Outcome
        ensures { result ≡ sum_shown self }
    {
        (self.present > 0).then_some(self.sum)
    }

    // Their mean, the fraction dropped toward zero.
    pub(crate) fn shown_mean(self) -> Outcome
        ensures { result ≡ mean_shown self }
    {
        (self.present > 0).then(|| self.sum / self.present)
    }
}
