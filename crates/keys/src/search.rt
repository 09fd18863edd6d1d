// The search for a key among held keys.
ghost use Rattle.std.specs.Prelude.{◌≡◌};
ghost use Rattle.keys.specs.Found.{first_same, FirstSame};

use crate::key::Key;

// The place of the first held key that equals the key, or none where no held key does.
pub fn find<K: Key>(held: &[K], key: &K) -> Option<usize>
    ensures place { result ≡ first_same K.eq key.now held.now }
    ensures first { FirstSame K.eq key.now held.now result }
{
    held.iter().position(|other| other == key)
}
