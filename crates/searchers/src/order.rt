// The order check of a batch.
ghost use Rattle.std.specs.Prelude.{◌≡◌};
ghost use Rattle.searchers.specs.Order.{keys_of, lower, falls, first_fall, FirstFall};

use crate::modes::Mode;
use crate::rows::Row;
use keys::key::OrderedKey;

// Whether a mode's order puts `x` below `y`.
fn is_lower<K: OrderedKey>(mode: Mode, x: &K, y: &K) -> bool
    ensures { result ≡ lower mode K.cmp K.OrderedKey.parts x.now y.now }
{
    match mode {
        Mode::Sorted => x.cmp(y).is_lt(),
        Mode::PartlySorted => x.compare_parts(y).is_lt(),
        Mode::Linear => false,
    }
}

// Whether a key is below the one before it, if there is one.
fn falls<K: OrderedKey>(mode: Mode, before: Option<K>, key: &K) -> bool
    ensures { result ≡ falls (lower mode K.cmp K.OrderedKey.parts) before key.now }
{
    before.is_some_and(|before| is_lower(mode, key, &before))
}

// The first row whose key is below that of the row before it; `last` is the key of the row before the batch.
pub(crate) fn first_fall<K: OrderedKey>(
    mode: Mode,
    rows: &[Row<K>],
    last: Option<K>,
) -> Option<usize>
    ensures value { result ≡ first_fall (lower mode K.cmp K.OrderedKey.parts) last 0 (keys_of rows.now) }
    ensures first { FirstFall (lower mode K.cmp K.OrderedKey.parts) last (keys_of rows.now) result }
{
    // A chain of the keys with the ones before them is no plainer: `last` comes first, and all but the last row's key after it.
    let mut before = last;
    for (i, row) in rows.iter().enumerate() {
        if falls(mode, before, &row.key) {
            return Some(i);
        }
        before = Some(row.key);
    }
    None
}
