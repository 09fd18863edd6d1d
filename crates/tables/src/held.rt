// The held keys: where a key stands, one row more of a key, and whether a key has ended.
ghost use Rattle.std.specs.Prelude.{◌≡◌, ◌+◌, ◌^◌, ◌<◌, ◌≤◌, true, MatchOption, length};
ghost use Rattle.searchers.specs.Groups.{noticed};
ghost use Rattle.tables.specs.Lists.{value_at, held_keys, place_in, counted_in};
ghost use Rattle.tables.specs.Rows.{rows};

use crate::table::Table;
use keys::key::Key;
use searchers::rows::Held;

// The place of the first held key that is the same, if there is one.
pub(crate) fn find<K: Key, P: Copy>(held: &Table<Held<K, P>, 64>, key: &K) -> Option<usize>
    ensures { MatchOption result (place_in K.eq key.now (rows held.now) ≡ length (rows held.now))
        (λ place. (place ≡ place_in K.eq key.now (rows held.now)) × (place < length (rows held.now))) }
{
    held.iter().position(|entry| entry.key == *key)
}

// One more row of a key whose place is known, and how many it had.
pub(crate) fn count_in<K: Key, P: Copy>(
    held: &mut Table<Held<K, P>, 64>,
    start: &P,
    at: usize,
    key: K,
) -> u32
    requires place { at ≡ place_in K.eq key (rows held.old) }
    requires room { length (noticed K.eq key (held_keys (rows held.old))) ≤ 64 }
    requires fits { value_at (λ e. e.rows) 0 (rows held.old) at + 1 < 2 ^ 32 }
    ensures rank { result ≡ value_at (λ e. e.rows) 0 (rows held.old) at }
    ensures rows { rows held.new ≡ counted_in K.eq start.now key (rows held.old) }
{
    if let Some(entry) = held.get(at) {
        let rank = entry.rows;
        held.alter(at, |entry| entry.rows += 1);
        rank
    } else {
        held.push(Held {
            key,
            rows: 1,
            ended: false,
            progress: *start,
        });
        0
    }
}

// Whether the key at a place has ended; past the end there is none.
pub(crate) fn has_ended<K: Key, P: Copy>(held: &Table<Held<K, P>, 64>, place: usize) -> bool
    ensures { result ≡ value_at (λ e. e.ended) true (rows held.now) place }
{
    held.get(place).map_or(true, |entry| entry.ended)
}
