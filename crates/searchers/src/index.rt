// The different keys of a batch by number, as their first rows, with a hash table over them. Ported from datafusion-physical-plan's bounded_window_agg_exec.rs and changed.
ghost use Rattle.std.specs.Prelude.{◌≡◌, ◌<◌, ◌≤◌, [], ◌∷◌, ◌++◌, length, take, if◌then◌else◌, nat_lt, slice_index_or};
ghost use Rattle.searchers.specs.Order.{keys_of};
ghost use Rattle.searchers.specs.Groups.{place};
ghost use Rattle.searchers.specs.Table.{Landed, picked, Indexed, Indexes};

use crate::numbers::Numbers;
use crate::rows::Row;
use keys::key::Key;
use std::marker::Model;

// Equality decides, not the hash.
fn has_key<K: Key>(row: &Row<K>, key: &K) -> bool
    ensures { result ≡ K.eq row.now.key key.now }
{
    row.key == *key
}

// A slot of the table holds a key's number, or nothing.
// Arrays and no map, since memory is fixed.
#[derive(Drop)]
pub(crate) struct KeyIndex<'a, K: Key> {
    rows: &'a [Row<K>],
    pub(crate) firsts: Numbers,
    slots: [Option<u8>; 512],
}

impl<'a, K: Key> Model for KeyIndex<'a, K> {
    ghost use Rattle.searchers.specs.Order.{keys_of};
    ghost use Rattle.searchers.specs.Table.{Indexed, Indexes};

    ghost Value = { Indexed K };

    ghost view = { λ index. record { keys = keys_of index.rows.now; firsts = index.firsts; slots = index.slots } };

    ghost invariant = { λ index. Indexes K.eq K.Key.hashed index.rows.now index.firsts index.slots };
}

impl<'a, K: Key> KeyIndex<'a, K> {
    // No key yet.
    pub(crate) fn new(rows: &'a [Row<K>]) -> Self
        requires { length rows.now ≤ 256 }
        ensures keys { result.keys ≡ keys_of rows.now }
        ensures firsts { result.firsts ≡ [] }
    {
        KeyIndex {
            rows,
            firsts: Numbers::new(),
            slots: [None; 512],
        }
    }

    // The number of the same key, or else the free slot at which the search for it ends.
    fn probe(&self, key: &K) -> Result<usize, usize>
        requires { 0 < length self.now.keys }
        ensures { Landed K.eq K.Key.hashed (picked self.now.keys self.now.firsts) self.now.slots key.now result }
    {
        let rows = self.rows;
        let start = (key.hash() % 512) as usize;
        // The search goes round the table from the hash's own slot: it counts steps, and no chain says that plainer.
        for step in 0..512 {
            let at = (start + step) % 512;
            let Some(held) = self.slots[at] else {
                return Err(at);
            };
            let group = usize::from(held);
            let first = self.firsts.get(group);
            if has_key(&rows[first], key) {
                return Ok(group);
            }
        }
        unreachable!()
    }

    // The number of row i's key, which gets the next one where no key before it is the same.
    pub(crate) fn group_of(&mut self, i: usize) -> usize
        requires row { i < length self.old.keys }
        requires room { length self.old.firsts < 256 }
        ensures value { (d : K) → result ≡ place K.eq (slice_index_or self.old.keys i d) (picked self.old.keys self.old.firsts) }
        ensures keys { self.new.keys ≡ self.old.keys }
        ensures firsts { self.new.firsts ≡ (if nat_lt result (length self.old.firsts) then self.old.firsts else self.old.firsts ++ (i ∷ [])) }
        ensures within { result ≤ length self.old.firsts }
        ensures picked { length (picked self.old.keys self.old.firsts) ≡ length self.old.firsts }
    {
        let rows = self.rows;
        match self.probe(&rows[i].key) {
            Ok(group) => group,
            Err(free) => {
                let group = self.firsts.len();
                self.firsts.push(i);
                self.slots[free] = Some(group as u8);
                group
            }
        }
    }
}
