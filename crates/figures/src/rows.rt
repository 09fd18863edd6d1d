// A part of a key's rows.
ghost use Rattle.std.specs.Prelude.{◌≡◌, ◌-◌, ◌≤◌, min, length, take, drop, option_copied};
ghost use Rattle.std.specs.List.{slice_get};

use crate::cells::Cell;

// The rows of a key from the rank `first` on.
#[derive(Clone, Copy)]
pub struct KeptRows<'a> {
    pub first: u32,
    pub rows: &'a [[Cell; 4]],
}

impl<'a> KeptRows<'a> {
    // The place of a rank, or the end where none has it.
    fn place(&self, rank: usize) -> usize
        ensures { result ≡ min (rank - self.now.first) (length self.now.rows.now) }
    {
        rank.saturating_sub(self.first as usize)
            .min(self.rows.len())
    }

    // The row of a rank.
    pub(crate) fn row(&self, rank: usize) -> Option<&'a [Cell; 4]>
        ensures { option_copied result ≡ slice_get self.now.rows.now (rank - self.now.first) }
    {
        self.rows.get(rank.saturating_sub(self.first as usize))
    }

    // The rows of the ranks from `start` on and before `end`.
    pub(crate) fn between(&self, start: usize, end: usize) -> &'a [[Cell; 4]]
        requires { start ≤ end }
        ensures { result.now ≡ drop (start - self.now.first) (take (end - self.now.first) self.now.rows.now) }
    {
        &self.rows[self.place(start)..self.place(end)]
    }
}
