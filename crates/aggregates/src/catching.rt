// One held key caught up: each figure's results that came due are worked out from the kept rows and written to the waiting ones.
ghost use Rattle.std.specs.Prelude.{◌≡◌, ◌-◌, ◌<◌, length};
ghost use Rattle.figures.specs.Sets.{figures};
ghost use Rattle.tables.specs.Rows.{rows};
ghost use Rattle.aggregates.specs.Sets.{next_carry, next_carries, next_results, set_figures};
ghost use Rattle.aggregates.specs.Writing.{all_rewritten, figure_renewed};

use crate::progress::Progress;
use crate::writing::write_results;
use figures::carry::Carry;
use figures::catching::{catch_up, due_rows};
use figures::cells::{Cell, Outcome};
use figures::figure::Figure;
use figures::rows::KeptRows;
use figures::set::FigureSet;
use searchers::rows::{Held, Waiting};
use tables::table::Table;

// The turn of a held key: its place, its entry, and the cells of its kept rows.
#[derive(Drop)]
pub(crate) struct Turn<'a, K> {
    pub(crate) place: usize,
    pub(crate) entry: Held<K, Progress>,
    pub(crate) cells: &'a [[Cell; 4]],
}

impl<'a, K: Copy> Turn<'a, K> {
    // The key's kept rows, from the rank of the first of them on.
    fn kept(&self) -> KeptRows<'a>
        ensures first { result.first ≡ self.now.entry.rows - length self.now.cells.now }
        ensures rows { result.rows.now ≡ self.now.cells.now }
    {
        KeptRows {
            first: (self.entry.rows as usize).saturating_sub(self.cells.len()) as u32,
            rows: self.cells,
        }
    }

    // One figure: works its results out and writes them, as many at a time as there is room for, and answers its carry.
    fn catch_up_figure<F: Figure>(
        &self,
        figure: &F,
        number: usize,
        carry: Carry,
        waiting: &mut Table<Waiting<K, [Outcome; 4]>, 512>,
        results: &mut [Outcome; 512],
    ) -> Carry
        ensures carry { result ≡ next_carry F.Figure self.now.entry.progress.rows self.now.entry.rows self.now.entry.ended self.now.cells.now figure.now carry }
        ensures waiting { rows waiting.new ≡ all_rewritten self.now.place (figure_renewed F.Figure self.now.entry.progress.rows self.now.entry.rows self.now.entry.ended self.now.cells.now number figure.now carry) (rows waiting.old) }
    {
        let after = figure.after();
        let kept = self.kept();
        let end = due_rows(self.entry.rows, self.entry.ended, after);
        let mut rank = due_rows(self.entry.progress.rows, false, after);
        let mut next = carry;
        // Part by part: the last part may be shorter, so that each needs its count, over a range's `step_by` too.
        while rank < end {
            let count = (end - rank).min(512);
            let part = &mut results[..count as usize];
            next = catch_up(figure, next, &kept, rank, part);
            write_results(waiting, self.place, number, rank, part);
            rank += count;
        }
        next
    }

    // Each figure in turn; answers their carries.
    fn catch_up_figures<F: Figure>(
        &self,
        set: &FigureSet<F>,
        carries: [Carry; 4],
        waiting: &mut Table<Waiting<K, [Outcome; 4]>, 512>,
        results: &mut [Outcome; 512],
    ) -> [Carry; 4]
        ensures carries { result ≡ next_carries F.Figure self.now.entry.progress.rows self.now.entry.rows self.now.entry.ended self.now.cells.now (figures set.now) carries }
        ensures waiting { rows waiting.new ≡ all_rewritten self.now.place (next_results F.Figure self.now.entry.progress.rows self.now.entry.rows self.now.entry.ended self.now.cells.now (figures set.now) carries) (rows waiting.old) }
    {
        let mut next = carries;
        for (j, figure) in set.iter().enumerate() {
            next[j] = self.catch_up_figure(figure, j, next[j], waiting, results);
        }
        next
    }

    // The key caught up; answers its progress.
    pub(crate) fn catch_up_key<F: Figure>(
        &self,
        set: &FigureSet<F>,
        waiting: &mut Table<Waiting<K, [Outcome; 4]>, 512>,
        results: &mut [Outcome; 512],
    ) -> Progress
        ensures progress { result ≡ (set_figures F.Figure set.now).forward self.now.entry.progress self.now.entry.rows self.now.entry.ended self.now.cells.now }
        ensures waiting { rows waiting.new ≡ all_rewritten self.now.place ((set_figures F.Figure set.now).write self.now.entry.progress self.now.entry.rows self.now.entry.ended self.now.cells.now) (rows waiting.old) }
    {
        let carries = self.catch_up_figures(set, self.entry.progress.carries, waiting, results);
        Progress {
            rows: self.entry.rows,
            carries,
        }
    }
}
