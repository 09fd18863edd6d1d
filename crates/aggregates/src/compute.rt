// Every held key caught up.
ghost use Rattle.std.specs.Prelude.{◌≡◌, not, ◌&&◌, ◌==◌};
ghost use Rattle.tables.specs.Whole.{lists};
ghost use Rattle.aggregates.specs.CatchingUp.{caught_up};
ghost use Rattle.aggregates.specs.Sets.{set_figures};

use crate::catching::Turn;
use crate::gathering::gather;
use crate::progress::Progress;
use arrayvec::ArrayVec;
use figures::cells::{Cell, Outcome};
use figures::figure::Figure;
use figures::set::FigureSet;
use searchers::rows::Held;
use tables::tables::Tables;

// Neither a row nor the end of the key came since it was last caught up, so that nothing came due.
fn is_caught_up<K: Copy>(entry: &Held<K, Progress>) -> bool
    ensures { result ≡ (entry.now.progress.rows == entry.now.rows && not entry.now.ended) }
{
    entry.progress.rows == entry.rows && !entry.ended
}

// Works out the results that came due, of every held key in turn, and writes them to the waiting rows.
pub fn compute_aggregates<K: Copy, F: Figure>(
    set: &FigureSet<F>,
    tables: &mut Tables<K, [Outcome; 4], Progress>,
)
    ensures { lists tables.new ≡ caught_up (set_figures F.Figure set.now) (lists tables.old) }
{
    let mut cells: ArrayVec<[Cell; 4], 1024> = ArrayVec::new();
    let mut results: [Outcome; 512] = [None; 512];
    // By places: a key's place names its kept and waiting rows, and the entry that stands there is written anew.
    for place in 0..tables.held.len() {
        if let Some(entry) = tables.held.get(place).copied()
            && !is_caught_up(&entry)
        {
            gather(&tables.kept, place, &mut cells);
            let turn = Turn {
                place,
                entry,
                cells: cells.as_slice(),
            };
            let progress = turn.catch_up_key(set, &mut tables.waiting, &mut results);
            tables.held.put(place, Held { progress, ..entry });
        }
    }
}
