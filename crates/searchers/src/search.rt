// The searchers. Ported from datafusion-physical-plan's bounded_window_agg_exec.rs and changed.
ghost use Rattle.std.specs.Prelude.{◌≡◌, map, take};
ghost use Rattle.std.specs.Option.{option_map};
ghost use Rattle.figures.specs.Sets.{figures};
ghost use Rattle.searchers.specs.declared.modes.Mode.{Mode};
ghost use Rattle.searchers.specs.declared.modes.Mode.TheVariants.{Sorted};
ghost use Rattle.searchers.specs.Modes.{linear_mode};
ghost use Rattle.searchers.specs.Order.{keys_of, lower, first_fall, FirstFall};
ghost use Rattle.searchers.specs.Groups.{grouped, GroupsOf};
ghost use Rattle.searchers.specs.Ends.{ended_at, marked};
ghost use Rattle.searchers.specs.Leaving.{by_each, by_largest, leaving, Settled, LongestFront};

use crate::ends::{ends_at, mark_all};
use crate::groups::{Groups, evaluate_partition_ranges, first_rows, group_by_hash};
use crate::leaving::count_leaving;
use crate::modes::{LinearKind, Mode};
use crate::order::first_fall;
use crate::rows::{Held, Row, Waiting};
use figures::figure::Figure;
use figures::set::FigureSet;
use keys::key::{Key, OrderedKey};

// A searcher by its meaning: it has one mode, and each method gives that mode's answer, for every input and each time alike. A searcher says its mode and how it groups a batch; the other answers follow from the mode.
pub trait PartitionSearcher<K: OrderedKey> {
    ghost mode: { Self → Mode };

    fn input_order_mode(&self) -> Mode
        ensures { result ≡ mode self.now };

    // The first row that is out of the mode's order; `last` is the key of the last accepted row, if there is one.
    fn check_order(&self, rows: &[Row<K>], last: &Option<K>) -> Option<usize>
        ensures value { result ≡ first_fall (lower (mode self.now) K.cmp K.OrderedKey.parts) last.now 0 (keys_of rows.now) }
        ensures first { FirstFall (lower (mode self.now) K.cmp K.OrderedKey.parts) last.now (keys_of rows.now) result }
    {
        first_fall(self.input_order_mode(), rows, *last)
    }

    // The groups of a batch, of its first 256 rows where it has more.
    fn evaluate_partition_batches(&self, rows: &[Row<K>]) -> Groups
        ensures value { result ≡ grouped K.eq (keys_of (take 256 rows.now)) }
        ensures means { GroupsOf K.eq (keys_of (take 256 rows.now)) result };

    // Whether a key has ended; `last` is the key of the last accepted row, if there is one.
    fn has_ended(&self, key: &K, last: &Option<K>) -> bool
        ensures { result ≡ ended_at (mode self.now) K.eq K.OrderedKey.parts last.now key.now }
    {
        ends_at(self.input_order_mode(), key, *last)
    }

    // Marks each held key as ended or not.
    fn mark_partition_end<P: Copy>(&self, held: &mut [Option<Held<K, P>>], last: &Option<K>)
        ensures { held.new ≡ map (option_map (marked (ended_at (mode self.now) K.eq K.OrderedKey.parts last.now))) held.old }
    {
        mark_all(self.input_order_mode(), held, *last);
    }

    // How many waiting rows leave: the length of the longest front of them that is settled throughout.
    fn calculate_n_out_row<R, P, F: Figure>(
        &self,
        waiting: &[Option<Waiting<K, R>>],
        held: &[Option<Held<K, P>>],
        set: &FigureSet<F>,
    ) -> usize
        ensures each { result ≡ leaving (by_each F.Figure.ahead (figures set.now)) held.now waiting.now }
        ensures largest { result ≡ leaving (by_largest F.Figure.ahead (figures set.now)) held.now waiting.now }
        ensures front { LongestFront (Settled F.Figure.ahead (figures set.now) held.now) waiting.now result }
    {
        count_leaving(waiting, held, set)
    }
}

// Mode 1: groups are neighbouring equal rows.
#[derive(Clone, Copy, Debug, PartialEq, Eq)]
pub struct SortedSearch;

impl<K: OrderedKey> PartitionSearcher<K> for SortedSearch {
    ghost mode = { λ _. Sorted };

    fn input_order_mode(&self) -> Mode {
        Mode::Sorted
    }

    // A batch that is not sorted is grouped by the hash table.
    fn evaluate_partition_batches(&self, rows: &[Row<K>]) -> Groups {
        let rows = first_rows(rows);
        evaluate_partition_ranges(rows).unwrap_or_else(|| group_by_hash(rows))
    }
}

// Modes 2 and 3: groups come from a hash table.
#[derive(Clone, Copy, Debug, PartialEq, Eq)]
pub struct LinearSearch {
    kind: LinearKind,
}

impl LinearSearch {
    pub fn new(kind: LinearKind) -> Self
        ensures { result.kind ≡ kind }
    {
        LinearSearch { kind }
    }
}

impl<K: OrderedKey> PartitionSearcher<K> for LinearSearch {
    ghost mode = { λ s. linear_mode s.kind };

    fn input_order_mode(&self) -> Mode {
        Mode::from(self.kind)
    }

    fn evaluate_partition_batches(&self, rows: &[Row<K>]) -> Groups {
        group_by_hash(first_rows(rows))
    }
}
