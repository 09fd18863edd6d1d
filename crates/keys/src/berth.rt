// Berths, by number.
ghost use Rattle.std.specs.Prelude.{◌≡◌, decimal};
ghost use Rattle.std.proofs.Common.{◌∙◌, rules};
ghost use Rattle.raw_bytes.specs.Numbers.{two_bytes};
ghost use Rattle.keys.specs.Berths.{same_berth, berth_order, berth_from};
ghost use Rattle.std.specs.Cmp.{Equal-is, nat_cmp_total, on_total, unsigned_tied};
ghost use Rattle.keys.specs.ReadBack.{berth_only_written};

use crate::key::{JournalKey, Key, OrderedKey};
use raw_bytes::numbers::u16_at;
use raw_bytes::writer::Writer;
use std::cmp::Ordering;

// A berth, by its number.
#[derive(Clone, Copy, Debug, PartialEq, Eq, PartialOrd, Ord)]
pub struct Berth(pub u16);

impl Berth {
    // Whether two berths are equal, and which comes first: as their numbers are.
    pub fn compared(&self, other: &Self) -> (bool, Ordering)
        ensures equal { result.0 ≡ same_berth self.now other.now }
        ensures order { result.1 ≡ berth_order self.now other.now }
    {
        (self == other, self.cmp(other))
    }
}

impl Key for Berth {
    ghost hashed = { λ x. x.0 };

    ghost written = { λ x. two_bytes x.0 };

    ghost parsed = { berth_from };

    ghost agree = { Prim.search rules };

    ghost short = { Prim.search rules };

    ghost again = { Prim.search rules };

    fn hash(&self) -> u64 {
        u64::from(self.0)
    }

    fn write(&self, writer: &mut Writer<'_>) {
        writer.put_u16(self.0);
    }

    fn read(bytes: &[u8]) -> Option<Self> {
        if bytes.len() == 2 {
            Some(Berth(u16_at(bytes, 0)))
        } else {
            None
        }
    }
}

impl OrderedKey for Berth {
    ghost parts = { berth_order };

    ghost sorted = { on_total (λ x. x.0) nat_cmp_total };

    ghost tied = { λ x y e. (Equal-is _).0 (unsigned_tied x.0 y.0 ∙ e) };

    fn compare_parts(&self, other: &Self) -> Ordering {
        self.cmp(other)
    }
}

impl JournalKey for Berth {
    ghost width = { 2 };

    ghost shown = { λ x. decimal x.0 };

    ghost narrow = { Prim.search rules };

    ghost sized = { Prim.search rules };

    ghost only = { berth_only_written };

    fn width() -> usize {
        2
    }

    fn show(&self, writer: &mut Writer<'_>) {
        writer.put_number(self.0);
    }
}
