// The calls of a run.
ghost use Rattle.std.specs.Prelude.{◌≡◌, ◌^◌, ◌<◌, ◌++◌, length, drop, None, All};
ghost use Rattle.std.specs.List.{AllByRecursion};
ghost use Rattle.figures.specs.Cells.{CellFits};
ghost use Rattle.book.specs.Calls.{kind_by, last_key, push_refusal, view_facts, accepted_push};
ghost use Rattle.stream.specs.Steps.{Checks, Gives};
ghost use Rattle.stream.specs.Views.{view, settings_of, Makes};

use super::BoundedWindowAggStream;
use crate::rounds::{check_room, let_leave, ready};
use faults::run::RunFault;
use figures::cells::{Cell, Outcome, row_fits};
use figures::figure::Figure;
use keys::key::{Key, OrderedKey};
use searchers::rows::Row;
use searchers::search::PartitionSearcher;
use settings::checked::Settings;
use tables::batch::Batch;
use tables::rows::OutRow;
use tables::tables::Tables;

// The key of the last row of a batch, or the one before it where the batch is empty.
fn last_key_of<K: Copy>(last: Option<K>, batch: &[Row<K>]) -> Option<K>
    ensures { result ≡ last_key last batch.now }
{
    batch.last().map(|row| row.key).or(last)
}

// The numbers of a batch's rows have 32 bits, as their type says.
fn batch_fits<K>(batch: &[Row<K>])
    ensures { AllByRecursion (λ row. All CellFits row.cells) batch.now }
{
    batch.iter().for_each(|row| row_fits(&row.cells));
}

impl<K: OrderedKey, S: PartitionSearcher<K>, F: Figure> BoundedWindowAggStream<K, S, F> {
    // A new run. It takes checked settings, and cannot refuse.
    pub fn new(settings: Settings<K, S, F>) -> Self
        ensures { Makes (kind_by K.eq K.cmp K.OrderedKey.parts) S.PartitionSearcher F.Figure settings.searcher settings.set result }
    {
        BoundedWindowAggStream {
            tables: Tables::new(),
            settings,
            last: None,
            accepted: 0,
            out: 0,
            finished: false,
        }
    }

    // Looks for a cause against a push, in the order of the refusals; rows against which there is none are a batch, grouped by the searcher.
    fn check_push<'a>(&self, rows: &'a [Row<K>], places: usize) -> Result<Batch<'a, K>, RunFault>
        ensures refusal { Checks (push_refusal (settings_of (kind_by K.eq K.cmp K.OrderedKey.parts) S.PartitionSearcher F.Figure self.now) (view_facts (view self.now)) rows.now places) result }
        ensures batch { Gives rows.now result }
    {
        if self.finished {
            return Err(RunFault::Finished);
        }
        if rows.len() > 256 {
            return Err(RunFault::BatchTooLong);
        }
        let searcher = self.settings.searcher();
        if let Some(row) = searcher.check_order(rows, &self.last) {
            return Err(RunFault::OutOfOrder(row));
        }
        if rows.len() > (u32::MAX - self.accepted) as usize {
            return Err(RunFault::TooManyAccepted);
        }
        let batch = Batch::of(rows, searcher.evaluate_partition_batches(rows));
        check_room(&self.tables, &batch, places)?;
        Ok(batch)
    }

    // What a push does once there is no cause against it.
    fn accept(&mut self, batch: &Batch<'_, K>, out: &mut [OutRow<K, [Outcome; 4]>]) -> usize
        requires passed { push_refusal (settings_of (kind_by K.eq K.cmp K.OrderedKey.parts) S.PartitionSearcher F.Figure self.old) (view_facts (view self.old)) batch.now (length out.old) ≡ None }
        ensures count { result ≡ length (accepted_push (settings_of (kind_by K.eq K.cmp K.OrderedKey.parts) S.PartitionSearcher F.Figure self.old) (view self.old) batch.now).put }
        ensures holds { view self.new ≡ (accepted_push (settings_of (kind_by K.eq K.cmp K.OrderedKey.parts) S.PartitionSearcher F.Figure self.old) (view self.old) batch.now).view }
        ensures writes { out.new ≡ (accepted_push (settings_of (kind_by K.eq K.cmp K.OrderedKey.parts) S.PartitionSearcher F.Figure self.old) (view self.old) batch.now).put ++ drop result out.old }
        ensures stays { self.new.settings ≡ self.old.settings }
    {
        let rows = batch.rows();
        self.last = last_key_of(self.last, rows);
        ready(
            &mut self.tables,
            &self.settings,
            self.accepted,
            batch,
            &self.last,
        );
        let n = let_leave(&mut self.tables, &self.settings, out);
        self.accepted += rows.len() as u32;
        self.out += n as u32;
        n
    }
}
