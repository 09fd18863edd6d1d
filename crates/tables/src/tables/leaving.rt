// Rows that leave.
ghost use Rattle.std.specs.Prelude.{◌≡◌, ◌≤◌, ◌++◌, map, length, take, drop};
ghost use Rattle.tables.specs.Lists.{out_row, let_go};
ghost use Rattle.tables.specs.Whole.{lists};

use super::Tables;
use crate::kept::prune;
use crate::numbers::NewPlaces;
use crate::rows::OutRow;
use keys::key::Key;

impl<K: Key, R: Copy, P: Copy> Tables<K, R, P> {
    // Writes the first n waiting rows, with their results, to the output.
    pub fn put_out(&self, n: usize, out: &mut [OutRow<K, R>])
        requires waiting { n ≤ length (lists self.now).waiting }
        requires room { n ≤ length out.old }
        ensures { out.new ≡ map out_row (take n (lists self.now).waiting) ++ drop n out.old }
    {
        // No `zip` over `out.iter_mut()`: tried, and after it the checker knows the length of `out` and no row (`returns` found no proof).
        for (i, one) in self.waiting.iter().take(n).enumerate() {
            out[i] = OutRow {
                row: one.row,
                results: one.results,
            };
        }
    }

    // The first n waiting rows leave; if there are any, ended keys are dropped, and each other key keeps its last `reach` rows.
    pub fn release(&mut self, n: usize, reach: u32)
        requires { n ≤ length (lists self.old).waiting }
        ensures { lists self.new ≡ let_go reach n (lists self.old) }
    {
        if n == 0 {
            return;
        }
        let new = NewPlaces::after(&self.held);
        self.waiting.drop_front(n);
        self.waiting
            .for_each_mut(|one| one.place = new.of(one.place));
        prune(&mut self.kept, &self.held, &new, reach);
        self.held.retain(|entry| !entry.ended);
    }
}
