// The kept rows of one key.
ghost use Rattle.std.specs.Prelude.{◌≡◌};
ghost use Rattle.tables.specs.Rows.{rows};
ghost use Rattle.aggregates.specs.CatchingUp.{cells_at};

use arrayvec::ArrayVec;
use figures::cells::Cell;
use tables::rows::Kept;
use tables::table::Table;

// Gathers the cells of the kept rows of a place, in order.
pub(crate) fn gather<K: Copy>(
    kept: &Table<Kept<K>, 1024>,
    place: usize,
    cells: &mut ArrayVec<[Cell; 4], 1024>,
)
    ensures { cells.new.items ≡ cells_at place (rows kept.now) }
{
    cells.clear();
    for one in kept.iter() {
        if one.place == place {
            cells.push(one.row.cells);
        }
    }
}
