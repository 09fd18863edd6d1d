// Berths on a route.
ghost use Rattle.std.specs.Prelude.{◌≡◌, ℕ, ◌+◌, ◌*◌};
ghost use Rattle.keys.specs.Routes.{same_route_berth, route_order, route_berth_order, route_berth_bytes, route_berth_from, shown_route_berth};
ghost use Rattle.std.specs.Cmp.{nat_cmp_total, on_total};
ghost use Rattle.std.proofs.Common.{rules};
ghost use Rattle.keys.specs.ReadBack.{route_berth_only_written};

use crate::key::{JournalKey, Key, OrderedKey};
use raw_bytes::numbers::u16_at;
use raw_bytes::writer::Writer;
use std::cmp::Ordering;

// A berth on a route: the route comes first in order, and is the sorted part.
#[derive(Clone, Copy, Debug, PartialEq, Eq, PartialOrd, Ord)]
pub struct RouteBerth {
    pub route: u16,
    pub berth: u16,
}

impl RouteBerth {
    // Whether two are equal, and which comes first: by the route, then by the berth.
    pub fn compared(&self, other: &Self) -> (bool, Ordering)
        ensures equal { result.0 ≡ same_route_berth self.now other.now }
        ensures order { result.1 ≡ route_berth_order self.now other.now }
    {
        (self == other, self.cmp(other))
    }
}

impl Key for RouteBerth {
    ghost hashed = { λ x. 65536 * x.route + x.berth };

    ghost written = { route_berth_bytes };

    ghost parsed = { route_berth_from };

    ghost agree = { Prim.search rules };

    ghost short = { Prim.search rules };

    ghost again = { Prim.search rules };

    fn hash(&self) -> u64 {
        65536 * u64::from(self.route) + u64::from(self.berth)
    }

    fn write(&self, writer: &mut Writer<'_>) {
        writer.put_u16(self.route);
        writer.put_u16(self.berth);
    }

    fn read(bytes: &[u8]) -> Option<Self> {
        if bytes.len() == 4 {
            Some(RouteBerth {
                route: u16_at(bytes, 0),
                berth: u16_at(bytes, 2),
            })
        } else {
            None
        }
    }
}

impl OrderedKey for RouteBerth {
    ghost parts = { route_order };

    ghost sorted = { on_total (λ x. x.route) nat_cmp_total };

    ghost tied = { Prim.search rules };

    fn compare_parts(&self, other: &Self) -> Ordering {
        self.route.cmp(&other.route)
    }
}

impl JournalKey for RouteBerth {
    ghost width = { 4 };

    ghost shown = { shown_route_berth };

    ghost narrow = { Prim.search rules };

    ghost sized = { Prim.search rules };

    ghost only = { route_berth_only_written };

    fn width() -> usize {
        4
    }

    fn show(&self, writer: &mut Writer<'_>) {
        writer.put_number(self.route);
        writer.put(b'/');
        writer.put_number(self.berth);
    }
}
