// The groups of a batch. Ported from datafusion-physical-plan's bounded_window_agg_exec.rs and changed.
ghost use Rattle.std.specs.Prelude.{◌≡◌, ◌≤◌, length, take, None};
ghost use Rattle.std.specs.Ordering.{is_lt};
ghost use Rattle.searchers.specs.Order.{keys_of, first_fall};
ghost use Rattle.searchers.specs.Groups.{by_numbers, grouped, range, AfterLast, rise, if_sorted};

use crate::index::KeyIndex;
use crate::numbers::Numbers;
use crate::rows::Row;
use keys::key::{Key, OrderedKey};
use std::cmp::Ordering;

// The groups of a batch of at most 256 rows, numbered in the order of their first rows: each row's group, each group's first row, and how many groups there are. Unused places hold 256.
// These are arrays with a count, not lists: nothing is on the heap, and the tables read them by number.
#[derive(Clone, Copy, Debug, PartialEq, Eq)]
pub struct Groups {
    pub ids: [u16; 256],
    pub firsts: [u16; 256],
    pub count: usize,
}

// The place after the last that holds a group, 0 where none does.
fn after_last(ids: &[u16], group: usize) -> usize
    ensures { AfterLast group ids.now result }
{
    ids.iter()
        .rposition(|id| usize::from(*id) == group)
        .map_or(0, |last| last + 1)
}

impl Groups {
    // From a group's first row to the place after its last row; empty for a group that there is not.
    pub fn range(&self, group: usize) -> (usize, usize)
        ensures value { result ≡ range self.now group }
        ensures end { AfterLast group self.now.ids result.1 }
    {
        let first = self
            .firsts
            .get(group)
            .map_or(256, |first| usize::from(*first));
        (first, after_last(&self.ids, group))
    }
}

// The first 256 rows, or all where there are fewer.
pub(crate) fn first_rows<K>(rows: &[Row<K>]) -> &[Row<K>]
    ensures first { result.now ≡ take 256 rows.now }
    ensures few { length result.now ≤ 256 }
{
    &rows[..rows.len().min(256)]
}

// The groups by the number of each row's group and the number of each group's first row.
fn numbered(ids: Numbers, firsts: Numbers) -> Groups
    ensures { result ≡ by_numbers ids firsts }
{
    let count = firsts.len();
    Groups {
        ids: ids.into_places(),
        firsts: firsts.into_places(),
        count,
    }
}

// The groups of a batch, by a hash table in which equality decides.
pub(crate) fn group_by_hash<K: Key>(rows: &[Row<K>]) -> Groups
    requires { length rows.now ≤ 256 }
    ensures { result ≡ grouped K.eq (keys_of rows.now) }
{
    let mut ids = Numbers::new();
    let mut index = KeyIndex::new(rows);
    // A row goes by its number, which the index may keep.
    for i in 0..rows.len() {
        let group = index.group_of(i);
        ids.push(group);
    }
    numbered(ids, index.firsts)
}

// How a key stands to the one before it; the first stands above.
fn rises<K: OrderedKey>(before: Option<K>, key: &K) -> Ordering
    ensures { result ≡ rise K.cmp before key.now }
{
    before.map_or(Ordering::Greater, |earlier| key.cmp(&earlier))
}

// The groups of a sorted batch, as neighbouring equal rows; none where a key is below that of the row before it.
pub(crate) fn evaluate_partition_ranges<K: OrderedKey>(rows: &[Row<K>]) -> Option<Groups>
    requires { length rows.now ≤ 256 }
    ensures { result ≡ if_sorted (first_fall (λ x y. is_lt (K.cmp x y)) None 0 (keys_of rows.now)) (grouped K.eq (keys_of rows.now)) }
{
    let mut ids = Numbers::new();
    let mut firsts = Numbers::new();
    let mut before = None;
    for (i, row) in rows.iter().enumerate() {
        match rises(before, &row.key) {
            Ordering::Less => return None,
            Ordering::Equal => {}
            Ordering::Greater => firsts.push(i),
        }
        ids.push(firsts.len() - 1);
        before = Some(row.key);
    }
    Some(numbered(ids, firsts))
}
