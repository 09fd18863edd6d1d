// A batch and its groups.
ghost use Rattle.std.specs.Prelude.{◌≡◌, ◌≤◌, length, if◌then◌else◌, nat_le, Some, None};
ghost use Rattle.searchers.specs.Groups.{grouped};
ghost use Rattle.searchers.specs.Order.{keys_of};

use keys::key::{Key, OrderedKey};
use searchers::groups::Groups;
use searchers::rows::Row;
use searchers::search::PartitionSearcher;
use std::marker::Model;

// At most 256 rows, and the groups that are theirs. Contracts see the rows, by which the groups are known.
#[derive(Drop)]
pub struct Batch<'a, K: Key> {
    rows: &'a [Row<K>],
    groups: Groups,
}

impl<'a, K: Key> Model for Batch<'a, K> {
    ghost use Rattle.std.specs.Prelude.{◌≡◌, ◌≤◌, List, length};
    ghost use Rattle.searchers.specs.declared.rows.Row.{Row};
    ghost use Rattle.searchers.specs.Groups.{grouped};
    ghost use Rattle.searchers.specs.Order.{keys_of};

    ghost Value = { List (Row K) };

    ghost view = { λ batch. batch.rows.now };

    ghost invariant = { λ batch. record { short : length batch.rows.now ≤ 256; grouped : batch.groups ≡ grouped K.eq (keys_of batch.rows.now) } };
}

impl<'a, K: Key> Batch<'a, K> {
    // The batch of these rows, from groups that are theirs.
    pub fn of(rows: &'a [Row<K>], groups: Groups) -> Self
        requires short { length rows.now ≤ 256 }
        requires grouped { groups ≡ grouped K.eq (keys_of rows.now) }
        ensures { result ≡ rows.now }
    {
        Batch { rows, groups }
    }

    pub fn rows(&self) -> &'a [Row<K>]
        ensures rows { result.now ≡ self.now }
        ensures short { length self.now ≤ 256 }
    {
        self.rows
    }

    pub(crate) fn groups(&self) -> &Groups
        ensures value { result.now ≡ grouped K.eq (keys_of self.now) }
        ensures few { result.now.count ≤ 256 }
    {
        &self.groups
    }
}

impl<'a, K: OrderedKey> Batch<'a, K> {
    // The batch of these rows, with the searcher's groups; none where there are more than 256.
    pub fn grouped_by<S: PartitionSearcher<K>>(searcher: &S, rows: &'a [Row<K>]) -> Option<Self>
        ensures { result ≡ (if nat_le (length rows.now) 256 then Some rows.now else None) }
    {
        if rows.len() > 256 {
            return None;
        }
        let groups = searcher.evaluate_partition_batches(rows);
        Some(Batch::of(rows, groups))
    }
}
