// The law over every list of calls.
ghost use Rattle.book.specs.Calls.{kind_by};
ghost use Rattle.book.specs.Reached.{LawfulCalls};

use keys::key::{Key, OrderedKey};

// What holds over every list of pushes and finishes on a new run, for every ordered key kind, mode and set of figures.
pub fn calls_are_lawful<K: OrderedKey, R, P>()
    ensures { LawfulCalls K R P (kind_by K.eq K.cmp K.OrderedKey.parts) }
{}
