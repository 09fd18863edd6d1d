// Empty tables.
ghost use Rattle.std.specs.Prelude.{◌≡◌};
ghost use Rattle.tables.specs.Lists.{none};
ghost use Rattle.tables.specs.Whole.{lists};

use super::Tables;
use crate::rows::Kept;
use crate::table::Table;
use keys::key::Key;
use searchers::rows::{Held, Waiting};

impl<K: Key, R: Copy, P: Copy> Tables<K, R, P> {
    pub fn new() -> Self
        ensures { lists result ≡ none }
    {
        Tables {
            waiting: Table::new(),
            kept: Table::new(),
            held: Table::new(),
        }
    }

    pub fn clear(&mut self)
        ensures { lists self.new ≡ none }
    {
        self.waiting.clear();
        self.kept.clear();
        self.held.clear();
    }
}
