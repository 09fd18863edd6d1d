// What is done with a table, as with the list of what it holds.
ghost use Rattle.std.specs.Prelude.{◌≡◌, ◌<◌, ◌≤◌, [], ◌∷◌, ◌++◌, length, take, drop, slice_get, slice_set};
ghost use Rattle.std.specs.Option.{option_copied};
ghost use Rattle.tables.specs.Determined.{Determined};
ghost use Rattle.tables.specs.Places.{laid};
ghost use Rattle.tables.specs.Rows.{rows, values_left};

use super::Table;
use super::iter::Iter;

impl<T: Copy, const N: usize> Table<T, N> {
    pub fn new() -> Self
        ensures { rows result ≡ [] }
    {
        Table {
            places: [None; N],
            len: 0,
        }
    }

    pub fn len(&self) -> usize
        ensures count { result ≡ length (rows self.now) }
        ensures few { result ≤ N }
    {
        self.len
    }

    // What stands at a place; past the end there is nothing.
    pub fn get(&self, i: usize) -> Option<&T>
        ensures { option_copied result ≡ slice_get (rows self.now) i }
    {
        if i < self.len {
            self.places[i].as_ref()
        } else {
            None
        }
    }

    pub fn places(&self) -> &[Option<T>]
        ensures { result.now ≡ laid N (rows self.now) }
    {
        &self.places
    }

    pub fn iter(&self) -> Iter<'_, T>
        ensures { values_left result ≡ rows self.now }
    {
        Iter {
            left: &self.places[..self.len],
        }
    }

    pub fn push(&mut self, x: T)
        requires { length (rows self.old) < N }
        ensures { rows self.new ≡ rows self.old ++ x ∷ [] }
    {
        self.places[self.len] = Some(x);
        self.len += 1;
    }

    // Puts a value in a place, where the table has that place.
    pub fn put(&mut self, i: usize, x: T)
        ensures { rows self.new ≡ slice_set (rows self.old) i x }
    {
        if i < self.len {
            self.places[i] = Some(x);
        }
    }

    // Keeps the first n.
    pub fn truncate(&mut self, n: usize)
        ensures { rows self.new ≡ take n (rows self.old) }
    {
        if n < self.len {
            let places = &mut self.places[..];
            places[n..self.len].fill(None);
            self.len = n;
        }
    }

    // Removes the first n.
    pub fn drop_front(&mut self, n: usize)
        ensures { rows self.new ≡ drop n (rows self.old) }
    {
        let left = self.len.saturating_sub(n);
        if left > 0 {
            self.places.copy_within(n..self.len, 0);
        }
        self.truncate(left);
    }

    // Removes all.
    pub fn clear(&mut self)
        ensures { rows self.new ≡ [] }
    {
        self.truncate(0);
    }
}

// Two tables that hold the same are the same.
pub fn rows_determine<T, const N: usize>()
    ensures { Determined T N }
{}
