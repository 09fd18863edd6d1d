// Admission of a batch, by its groups: a key is looked up at the first row of its group alone.
ghost use Rattle.std.specs.Prelude.{◌≡◌, ◌+◌, ◌^◌, ◌<◌, ◌≤◌, true, length};
ghost use Rattle.searchers.specs.Groups.{noticed};
ghost use Rattle.tables.specs.Lists.{value_at, within, held_keys, place_in, distinct, admitted, admit};
ghost use Rattle.tables.specs.Rows.{rows};
ghost use Rattle.tables.specs.Seats.{seated};
ghost use Rattle.tables.specs.Whole.{lists};

use super::Tables;
use crate::batch::Batch;
use crate::held::{count_in, find};
use crate::rows::Kept;
use crate::table::Table;
use keys::key::Key;
use searchers::rows::{Held, Row, Waiting};

// The places of the groups of a batch among the held keys, as far as its rows are admitted.
#[derive(Drop)]
struct Seats {
    places: Table<usize, 256>,
}

impl Seats {
    // The place of a row's key: it is looked up at the first row of its group, and noted.
    fn place_of<K: Key, P: Copy>(
        &mut self,
        held: &Table<Held<K, P>, 64>,
        group: usize,
        key: &K,
    ) -> usize
        requires free { length (rows self.old.places) < 256 }
        ensures place { result ≡ value_at (λ p. p) (place_in K.eq key.now (rows held.now)) (rows self.old.places) group }
        ensures places { rows self.new.places ≡ seated group (place_in K.eq key.now (rows held.now)) (rows self.old.places) }
    {
        if let Some(place) = self.places.get(group) {
            return *place;
        }
        let place = find(held, key).unwrap_or(held.len());
        self.places.push(place);
        place
    }
}

impl<K: Key, R: Copy, P: Copy> Tables<K, R, P> {
    // How many keys are held once a batch is admitted.
    pub fn keys_with(&self, batch: &Batch<'_, K>) -> usize
        ensures { result ≡ length (distinct K.eq (held_keys (lists self.now).held) batch.now) }
    {
        let rows = batch.rows();
        let groups = batch.groups();
        let mut count = self.held.len();
        for first in &groups.firsts[..groups.count] {
            let row = &rows[usize::from(*first)];
            if find(&self.held, &row.key).is_none() {
                count += 1;
            }
        }
        count
    }

    // Admits a row whose key's place is known.
    fn admit_at(&mut self, start: &P, blank: &R, at: usize, row: Row<K>)
        requires waiting { length (rows self.old.waiting) < 512 }
        requires kept { length (rows self.old.kept) < 1024 }
        requires place { at ≡ place_in K.eq row.key (rows self.old.held) }
        requires held { length (noticed K.eq row.key (held_keys (rows self.old.held))) ≤ 64 }
        requires fits { value_at (λ e. e.rows) 0 (rows self.old.held) at + 1 < 2 ^ 32 }
        ensures { lists self.new ≡ admitted K.eq start.now blank.now (lists self.old) row }
    {
        let rank = count_in(&mut self.held, start, at, row.key);
        self.waiting.push(Waiting {
            row,
            place: at,
            rank,
            results: *blank,
        });
        self.kept.push(Kept { row, place: at });
    }

    // Admits a batch; `accepted` rows came before it.
    pub fn admit(&mut self, start: &P, blank: &R, accepted: u32, batch: &Batch<'_, K>)
        requires waiting { length (lists self.old).waiting + length batch.now ≤ 512 }
        requires kept { length (lists self.old).kept + length batch.now ≤ 1024 }
        requires held { length (distinct K.eq (held_keys (lists self.old).held) batch.now) ≤ 64 }
        requires counts { within accepted (lists self.old).held ≡ true }
        requires fits { accepted + length batch.now < 2 ^ 32 }
        ensures { lists self.new ≡ admit K.eq start.now blank.now (lists self.old) batch.now }
    {
        let rows = batch.rows();
        let groups = batch.groups();
        let mut seats = Seats {
            places: Table::new(),
        };
        for (row, group) in rows.iter().zip(&groups.ids) {
            let at = seats.place_of(&self.held, usize::from(*group), &row.key);
            self.admit_at(start, blank, at, *row);
        }
    }
}
