// One batch of at most 8 rows through a searcher.
use figures::cells::Column;
use figures::letters::{Letter, LetterFigure};
use figures::set::FigureSet;
use keys::key::{Key, OrderedKey};
use searchers::groups::Groups;
use searchers::rows::{Held, Row, Waiting};
use searchers::search::PartitionSearcher;

pub(crate) fn row<K>(key: K) -> Row<K> {
    Row {
        key,
        cells: [None; 4],
    }
}

// A figure with a reach after.
pub(crate) fn reaching(after: u16) -> LetterFigure {
    LetterFigure {
        letter: Letter::Sum,
        column: Column::C0,
        before: 0,
        after,
    }
}

// How many of the first n rows are in a group.
fn count_in(groups: &Groups, group: usize, n: usize) -> u32 {
    groups
        .ids
        .iter()
        .take(n)
        .filter(|id| usize::from(**id) == group)
        .fold(0, |count: u32, _id| count.saturating_add(1))
}

// The held keys and the waiting rows of one batch of at most 8 rows.
#[derive(Drop)]
pub(crate) struct Desk<K: OrderedKey> {
    pub(crate) held: [Option<Held<K, ()>>; 8],
    pub(crate) waiting: [Option<Waiting<K, ()>>; 8],
}

impl<K: OrderedKey> Desk<K> {
    pub(crate) fn new() -> Self {
        Desk {
            held: [None; 8],
            waiting: [None; 8],
        }
    }

    fn hold(&mut self, place: usize, key: K, rows: u32) {
        if let Some(held) = self.held.get_mut(place) {
            *held = Some(Held {
                key,
                rows,
                ended: false,
                progress: (),
            });
        }
    }

    fn wait(&mut self, at: usize, row: Row<K>, place: usize, rank: u32) {
        if let Some(waiting) = self.waiting.get_mut(at) {
            *waiting = Some(Waiting {
                row,
                place,
                rank,
                results: (),
            });
        }
    }

    pub(crate) fn admit(&mut self, rows: &[Row<K>], groups: &Groups) {
        for (i, (row, id)) in rows.iter().zip(groups.ids.iter()).enumerate() {
            let place = usize::from(*id);
            self.wait(i, *row, place, count_in(groups, place, i));
            self.hold(place, row.key, count_in(groups, place, 256));
        }
    }

    // The number of rows that leave, or the first row that is out of order.
    pub(crate) fn put_out<S: PartitionSearcher<K>>(
        &mut self,
        searcher: &S,
        rows: &[Row<K>],
        set: &FigureSet<LetterFigure>,
    ) -> Result<usize, usize> {
        if let Some(at) = searcher.check_order(rows, &None) {
            return Err(at);
        }
        let groups = searcher.evaluate_partition_batches(rows);
        self.admit(rows, &groups);
        let last = rows.last().map(|row| row.key);
        searcher.mark_partition_end(&mut self.held, &last);
        Ok(searcher.calculate_n_out_row(&self.waiting, &self.held, set))
    }
}
