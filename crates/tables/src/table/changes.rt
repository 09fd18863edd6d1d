// Changes of the values of a table, in their places.
ghost use Rattle.std.specs.Prelude.{◌≡◌, MatchOption, Some, None, map, length, slice_get, slice_set};
ghost use Rattle.std.specs.Option.{ForSome};
ghost use Rattle.std.specs.Fn.{FnOnceTakesAtMut, FnOnceReturnsAtMut, CalledAtMut};
ghost use Rattle.std.specs.List.Retain.{RetainsInTurn};
ghost use Rattle.tables.specs.Altered.{altered, Leaves, LeavesEach};
ghost use Rattle.tables.specs.Rows.{rows};

use super::Table;

// Changes what stands in a place.
fn turn<T: Copy, F: FnOnce(&mut T)>(place: &mut Option<T>, f: F)
    requires { ForSome place.old (FnOnceTakesAtMut F.FnOnce f) }
    ensures { MatchOption place.old (place.new ≡ None) (λ x. (y : T) × FnOnceReturnsAtMut F.FnOnce f x tt y × (place.new ≡ Some y)) }
{
    if let Some(x) = place {
        f(x);
    }
}

impl<T: Copy, const N: usize> Table<T, N> {
    // Lends the value at a place to f, where the table has that place.
    pub fn alter<F: FnOnce(&mut T)>(&mut self, at: usize, f: F)
        requires { ForSome (slice_get (rows self.old) at) (FnOnceTakesAtMut F.FnOnce f) }
        ensures value { MatchOption (slice_get (rows self.old) at) (rows self.new ≡ rows self.old) (λ x. (y : T) × FnOnceReturnsAtMut F.FnOnce f x tt y × (rows self.new ≡ slice_set (rows self.old) at y)) }
        ensures function { (g : T → T) → Leaves F.FnOnce f g → rows self.new ≡ altered g at (rows self.old) }
    {
        if at < self.len {
            turn(&mut self.places[at], f);
        }
    }

    // Lends each value to f, in order.
    pub fn for_each_mut<F: FnMut(&mut T)>(&mut self, mut f: F)
        requires { F.IsAlwaysCallable f }
        ensures count { length (rows self.new) ≡ length (rows self.old) }
        ensures function { (g : T → T) → LeavesEach F.FnMut f g → rows self.new ≡ map g (rows self.old) }
    {
        // No `flatten`: tried, and behind it the checker knows nothing of the places (`invariant_of-self` found no proof).
        for place in self.places[..self.len].iter_mut() {
            if let Some(x) = place {
                f(x);
            }
        }
    }

    // Keeps the values at which f answers true, as f leaves them, in their order.
    pub(crate) fn retain<F: FnMut(&mut T) -> bool>(&mut self, mut f: F)
        requires { F.IsAlwaysCallable f }
        ensures { RetainsInTurn (CalledAtMut F.FnMut) f (rows self.old) (rows self.new) }
    {
        let mut kept = 0;
        // By places: a value is read from one place, and written to one further in front.
        for i in 0..self.len() {
            if let Some(x) = self.get(i) {
                let mut x = *x;
                if f(&mut x) {
                    self.put(kept, x);
                    kept += 1;
                }
            }
        }
        self.truncate(kept);
    }
}
