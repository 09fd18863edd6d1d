// The new places of held keys once ended ones are dropped.
ghost use Rattle.std.specs.Prelude.{◌≡◌};
ghost use Rattle.tables.specs.Leaving.{Numbered, new_place};
ghost use Rattle.tables.specs.Rows.{rows};

use crate::table::Table;
use keys::key::Key;
use searchers::rows::Held;

// The new place of each held key, and that of any place past the end.
#[derive(Drop)]
pub(crate) struct NewPlaces {
    places: Table<usize, 64>,
    live: usize,
}

impl NewPlaces {
    // The places once the ended keys of a table are dropped.
    pub(crate) fn after<K: Key, P: Copy>(held: &Table<Held<K, P>, 64>) -> Self
        ensures { Numbered (rows held.now) result }
    {
        let mut places = Table::new();
        // The count goes along with the places: each is how many living keys stand before it.
        let mut live = 0;
        for entry in held.iter() {
            places.push(live);
            if !entry.ended {
                live += 1;
            }
        }
        NewPlaces { places, live }
    }

    // The new place of an old one.
    pub(crate) fn of(&self, place: usize) -> usize
        ensures { result ≡ new_place self.now place }
    {
        self.places.get(place).copied().unwrap_or(self.live)
    }
}
