// Berths by their pier. Berths of one pier are equal, and yet two keys.
ghost use Rattle.std.specs.Prelude.{◌%◌, Some, refl};
ghost use Rattle.std.proofs.Common.{sym, ◌∙◌, rules};
ghost use Rattle.key_cases.specs.Piers.{same_pier, pier_order, pier_bytes, pier_from};
ghost use Rattle.std.specs.Cmp.{Equal-is, nat_eq_equiv, nat_cmp_total, on_equiv, on_total, partial_equiv_from_equiv, partial_order_from_agreeing_total, unsigned_tied};

use keys::key::{Key, OrderedKey};
use raw_bytes::numbers::u16_at;
use raw_bytes::writer::Writer;
use std::cmp::Ordering;

// A berth at a pier. The pier alone is compared, and all even piers share a hash, as do all odd ones.
#[derive(Clone, Copy)]
pub struct Pier {
    pub pier: u16,
    pub berth: u16,
}

impl PartialEq for Pier {
    ghost eq = { same_pier };

    ghost laws = { partial_equiv_from_equiv (on_equiv (λ x. x.pier) nat_eq_equiv) };

    fn eq(&self, other: &Self) -> bool {
        self.pier == other.pier
    }
}

impl Eq for Pier {
    ghost laws = { on_equiv (λ x. x.pier) nat_eq_equiv };
}

impl PartialOrd for Pier {
    ghost partial_cmp = { λ x y. Some (pier_order x y) };

    ghost laws = { partial_order_from_agreeing_total pier_order (on_total (λ x. x.pier) nat_cmp_total) (λ x y. refl) (λ x y. sym (unsigned_tied x.pier y.pier)) };

    fn partial_cmp(&self, other: &Self) -> Option<Ordering> {
        Some(self.cmp(other))
    }
}

impl Ord for Pier {
    ghost cmp = { pier_order };

    ghost total = { on_total (λ x. x.pier) nat_cmp_total };

    ghost matches_partial_cmp = { λ x y. refl };

    ghost matches_eq = { λ x y. sym (unsigned_tied x.pier y.pier) };

    fn cmp(&self, other: &Self) -> Ordering {
        self.pier.cmp(&other.pier)
    }
}

impl Key for Pier {
    ghost hashed = { λ x. x.pier % 2 };

    ghost written = { pier_bytes };

    ghost parsed = { pier_from };

    ghost agree = { Prim.search rules };

    ghost short = { Prim.search rules };

    ghost again = { Prim.search rules };

    fn hash(&self) -> u64 {
        u64::from(self.pier % 2)
    }

    fn write(&self, writer: &mut Writer<'_>) {
        writer.put_u16(self.pier);
        writer.put_u16(self.berth);
    }

    fn read(bytes: &[u8]) -> Option<Self> {
        if bytes.len() == 4 {
            Some(Pier {
                pier: u16_at(bytes, 0),
                berth: u16_at(bytes, 2),
            })
        } else {
            None
        }
    }
}

impl OrderedKey for Pier {
    ghost parts = { pier_order };

    ghost sorted = { on_total (λ x. x.pier) nat_cmp_total };

    ghost tied = { λ x y e. (Equal-is _).0 (unsigned_tied x.pier y.pier ∙ e) };

    fn compare_parts(&self, other: &Self) -> Ordering {
        self.cmp(other)
    }
}
