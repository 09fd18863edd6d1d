// The kept rows: of each key that has not ended the last ones stay.
ghost use Rattle.std.specs.Prelude.{◌≡◌, ◌-◌, true, not, ◌||◌, length, nat_lt, slice_index, slice_set};
ghost use Rattle.tables.specs.Leaving.{Numbered, Counted, placed_by};
ghost use Rattle.tables.specs.Lists.{value_at, pruned};
ghost use Rattle.tables.specs.Rows.{rows};

use crate::held::has_ended;
use crate::numbers::NewPlaces;
use crate::rows::Kept;
use crate::table::Table;
use keys::key::Key;
use searchers::rows::Held;

// How many rows of each held key there are, by their places.
#[derive(Drop)]
struct Counts {
    rows: Table<u16, 64>,
}

impl Counts {
    // How many kept rows each held key has.
    fn of<K: Key, P: Copy>(store: &Table<Kept<K>, 1024>, held: &Table<Held<K, P>, 64>) -> Self
        ensures long { length (rows result.rows) ≡ length (rows held.now) }
        ensures each { Counted (rows store.now) (rows result.rows) }
    {
        let mut counts = Table::new();
        for _ in held.iter() {
            counts.push(0);
        }
        for one in store.iter() {
            counts.alter(one.place, |count| *count += 1);
        }
        Counts { rows: counts }
    }

    // One row of a place less, and how many are left.
    fn take(&mut self, place: usize) -> u16
        ensures counts { rows self.new.rows ≡ slice_set (rows self.old.rows) place (slice_index (rows self.old.rows) place - 1) }
        ensures left { result ≡ slice_index (rows self.old.rows) place - 1 }
    {
        let left = self
            .rows
            .get(place)
            .map_or(0, |count| count.saturating_sub(1));
        self.rows.put(place, left);
        left
    }
}

// Gives a kept row its key's new place, and says whether it stays: its key has not ended, and fewer than `reach` rows of the key come after it.
fn renew<K: Key, P: Copy>(
    one: &mut Kept<K>,
    counts: &mut Counts,
    held: &Table<Held<K, P>, 64>,
    new: &NewPlaces,
    reach: u32,
) -> bool
    ensures stays { result ≡ not (value_at (λ e. e.ended) true (rows held.now) one.old.place || not (nat_lt (slice_index (rows counts.old.rows) one.old.place - 1) reach)) }
    ensures counts { rows counts.new.rows ≡ slice_set (rows counts.old.rows) one.old.place (slice_index (rows counts.old.rows) one.old.place - 1) }
    ensures place { one.new ≡ placed_by new.now one.old }
{
    let left = counts.take(one.place);
    let stays = !has_ended(held, one.place) && u32::from(left) < reach;
    one.place = new.of(one.place);
    stays
}

// The rows of ended keys go, and of each other key all but the last `reach`.
pub(crate) fn prune<K: Key, P: Copy>(
    store: &mut Table<Kept<K>, 1024>,
    held: &Table<Held<K, P>, 64>,
    new: &NewPlaces,
    reach: u32,
)
    requires { Numbered (rows held.now) new.now }
    ensures { rows store.new ≡ pruned reach (rows held.now) (rows store.old) }
{
    let mut counts = Counts::of(store, held);
    store.retain(
        move |one|
            ensures stays { result ≡ not (value_at (λ e. e.ended) true (rows held.entry.now) one.old.place || not (nat_lt (slice_index (rows counts.entry.rows) one.old.place - 1) reach)) }
            ensures counts { rows counts.exit.rows ≡ slice_set (rows counts.entry.rows) one.old.place (slice_index (rows counts.entry.rows) one.old.place - 1) }
            ensures place { one.new ≡ placed_by new.entry.now one.old }
        { renew(one, &mut counts, held, new, reach) },
    );
}
