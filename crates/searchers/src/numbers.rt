// The numbers of a batch's rows or groups, in their order.
ghost use Rattle.std.specs.Prelude.{◌≡◌, ◌^◌, ◌<◌, ◌≤◌, [], ◌∷◌, ◌++◌, length, slice_index};
ghost use Rattle.searchers.specs.Groups.{padded};

use std::marker::Model;

// At most 256 numbers. Unused places hold 256.
// An array and a count, since memory is fixed; and no table, since `Groups` shows the unused places.
#[derive(Drop)]
pub(crate) struct Numbers {
    places: [u16; 256],
    count: usize,
}

impl Model for Numbers {
    ghost use Rattle.std.specs.Prelude.{ℕ, List, take};
    ghost use Rattle.searchers.specs.Groups.{Laid};

    ghost Value = { List ℕ };

    ghost view = { λ numbers. take numbers.count numbers.places };

    ghost invariant = { λ numbers. Laid numbers.places numbers.count };
}

impl Numbers {
    pub(crate) fn new() -> Self
        ensures { result ≡ [] }
    {
        Numbers {
            places: [256; 256],
            count: 0,
        }
    }

    pub(crate) fn len(&self) -> usize
        ensures value { result ≡ length self.now }
        ensures few { result ≤ 256 }
    {
        self.count
    }

    pub(crate) fn get(&self, place: usize) -> usize
        requires { place < length self.now }
        ensures { result ≡ slice_index self.now place }
    {
        let places = &self.places;
        usize::from(places[place])
    }

    pub(crate) fn push(&mut self, number: usize)
        requires room { length self.old < 256 }
        requires low { number < 2 ^ 16 }
        ensures { self.new ≡ self.old ++ (number ∷ []) }
    {
        self.places[self.count] = number as u16;
        self.count += 1;
    }

    pub(crate) fn into_places(self) -> [u16; 256]
        ensures { result ≡ padded self }
    {
        self.places
    }
}
