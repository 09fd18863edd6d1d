// Which keys have ended. Ported from datafusion-physical-plan's bounded_window_agg_exec.rs and changed.
ghost use Rattle.std.specs.Prelude.{◌≡◌, map};
ghost use Rattle.std.specs.Option.{option_map};
ghost use Rattle.searchers.specs.Ends.{ended_by, ended_at, marked, EndedForGood};

use crate::modes::Mode;
use crate::rows::Held;
use keys::key::{Key, OrderedKey};

// Whether a mode says that a key has ended, from the key of the last accepted row.
// Mode and last key stay two parameters: a searcher has the one, a run the other.
fn ends_by<K: OrderedKey>(mode: Mode, key: &K, last: &K) -> bool
    ensures { result ≡ ended_by mode K.eq K.OrderedKey.parts last.now key.now }
{
    match mode {
        Mode::Sorted => key != last,
        Mode::PartlySorted => key.compare_parts(last).is_ne(),
        Mode::Linear => false,
    }
}

// The same where there may be no accepted row: then no key has ended.
pub(crate) fn ends_at<K: OrderedKey>(mode: Mode, key: &K, last: Option<K>) -> bool
    ensures { result ≡ ended_at mode K.eq K.OrderedKey.parts last key.now }
{
    last.is_some_and(|last| ends_by(mode, key, &last))
}

// Marks a place of the held keys.
fn mark<K: OrderedKey, P: Copy>(mode: Mode, place: &mut Option<Held<K, P>>, last: Option<K>)
    ensures { place.new ≡ option_map (marked (ended_at mode K.eq K.OrderedKey.parts last)) place.old }
{
    if let Some(held) = place {
        held.ended = ends_at(mode, &held.key, last);
    }
}

// Marks each held key as ended or not.
pub(crate) fn mark_all<K: OrderedKey, P: Copy>(
    mode: Mode,
    held: &mut [Option<Held<K, P>>],
    last: Option<K>,
)
    ensures { held.new ≡ map (option_map (marked (ended_at mode K.eq K.OrderedKey.parts last))) held.old }
{
    for place in held {
        mark(mode, place, last);
    }
}

// Why ended keys may be let go: as long as the rows keep the mode's order, no later row has one.
pub fn ended_for_good<K: OrderedKey>()
    ensures { EndedForGood K.eq K.cmp K.OrderedKey.parts }
{}
