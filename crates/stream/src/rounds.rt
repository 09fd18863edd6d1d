// What a call does to the tables.
ghost use Rattle.std.specs.Prelude.{◌≡◌, ◌+◌, ◌^◌, ◌<◌, ◌≤◌, true, ◌++◌, map, length, take, drop};
ghost use Rattle.faults.specs.Causes.{first_of};
ghost use Rattle.searchers.specs.Ends.{ended_at};
ghost use Rattle.tables.specs.Lists.{within, held_keys, distinct, none, out_row, let_go};
ghost use Rattle.tables.specs.Whole.{lists};
ghost use Rattle.aggregates.specs.Sets.{set_figures};
ghost use Rattle.book.specs.Calls.{room_causes, leaving};
ghost use Rattle.stream.specs.Steps.{Checks, readied_with, ended_with};

use aggregates::compute::compute_aggregates;
use aggregates::progress::{Progress, blank, start_of};
use faults::run::RunFault;
use figures::cells::Outcome;
use figures::figure::Figure;
use figures::set::FigureSet;
use keys::key::{Key, OrderedKey};
use searchers::search::PartitionSearcher;
use settings::checked::Settings;
use tables::batch::Batch;
use tables::rows::OutRow;
use tables::tables::Tables;

// Whether there is room for a batch: in each table, and in an output of so many places.
pub(crate) fn check_room<K: Key>(
    tables: &Tables<K, [Outcome; 4], Progress>,
    batch: &Batch<'_, K>,
    places: usize,
) -> Result<(), RunFault>
    ensures { Checks (first_of (room_causes K.eq (length (lists tables.now).waiting) (length (lists tables.now).kept) (held_keys (lists tables.now).held) batch.now places)) result }
{
    let rows = batch.rows();
    let waiting = tables.waiting.len() + rows.len();
    if waiting > 512 {
        return Err(RunFault::WaitingFull);
    }
    if tables.kept.len() + rows.len() > 1024 {
        return Err(RunFault::KeptFull);
    }
    if tables.keys_with(batch) > 64 {
        return Err(RunFault::KeysFull);
    }
    if places < waiting {
        return Err(RunFault::OutputTooShort);
    }
    Ok(())
}

// The rows of a batch join the tables, ended keys are marked, and every result that is due is worked out.
pub(crate) fn ready<K: OrderedKey, S: PartitionSearcher<K>, F: Figure>(
    tables: &mut Tables<K, [Outcome; 4], Progress>,
    settings: &Settings<K, S, F>,
    accepted: u32,
    batch: &Batch<'_, K>,
    last: &Option<K>,
)
    requires waiting { length (lists tables.old).waiting + length batch.now ≤ 512 }
    requires kept { length (lists tables.old).kept + length batch.now ≤ 1024 }
    requires held { length (distinct K.eq (held_keys (lists tables.old).held) batch.now) ≤ 64 }
    requires counts { within accepted (lists tables.old).held ≡ true }
    requires fits { accepted + length batch.now < 2 ^ 32 }
    ensures { lists tables.new ≡ readied_with K.eq (set_figures F.Figure settings.now.set) (ended_at (S.PartitionSearcher.mode settings.now.searcher) K.eq K.OrderedKey.parts last.now) (lists tables.old) batch.now }
{
    tables.admit(&start_of(settings.set()), &blank(), accepted, batch);
    tables.mark_partition_end(settings.searcher(), last);
    compute_aggregates(settings.set(), tables);
}

// How many waiting rows leave, as the searcher says.
fn n_out_row<K: OrderedKey, S: PartitionSearcher<K>, F: Figure>(
    tables: &Tables<K, [Outcome; 4], Progress>,
    settings: &Settings<K, S, F>,
) -> usize
    ensures count { result ≡ leaving (set_figures F.Figure settings.now.set).ahead (lists tables.now) }
    ensures few { result ≤ length (lists tables.now).waiting }
{
    settings.searcher().calculate_n_out_row(
        tables.waiting.places(),
        tables.held.places(),
        settings.set(),
    )
}

// The settled rows leave, and the tables let go of what is no longer needed.
pub(crate) fn let_leave<K: OrderedKey, S: PartitionSearcher<K>, F: Figure>(
    tables: &mut Tables<K, [Outcome; 4], Progress>,
    settings: &Settings<K, S, F>,
    out: &mut [OutRow<K, [Outcome; 4]>],
) -> usize
    requires { length (lists tables.old).waiting ≤ length out.old }
    ensures count { result ≡ leaving (set_figures F.Figure settings.now.set).ahead (lists tables.old) }
    ensures few { result ≤ length (lists tables.old).waiting }
    ensures tables { lists tables.new ≡ let_go (set_figures F.Figure settings.now.set).reach result (lists tables.old) }
    ensures out { out.new ≡ map out_row (take result (lists tables.old).waiting) ++ drop result out.old }
{
    let n = n_out_row(tables, settings);
    tables.put_out(n, out);
    tables.release(n, settings.set().reach());
    n
}

// Every key has ended: all results are worked out, every waiting row leaves, and the tables are emptied.
pub(crate) fn end<K: Key, F: Figure>(
    tables: &mut Tables<K, [Outcome; 4], Progress>,
    set: &FigureSet<F>,
    out: &mut [OutRow<K, [Outcome; 4]>],
) -> usize
    requires { length (lists tables.old).waiting ≤ length out.old }
    ensures count { result ≡ length (lists tables.old).waiting }
    ensures tables { lists tables.new ≡ none }
    ensures out { out.new ≡ map out_row (ended_with (set_figures F.Figure set.now) (lists tables.old)).waiting ++ drop result out.old }
{
    tables.end_all();
    compute_aggregates(set, tables);
    let n = tables.waiting.len();
    tables.put_out(n, out);
    tables.clear();
    n
}
