// The searcher of a mode that is known only by its number.
ghost use Rattle.std.specs.Prelude.{◌≡◌};
ghost use Rattle.faults.specs.Numbers.{settings_told, answered};
ghost use Rattle.settings.specs.Given.{mode_given, mapped_ok};
ghost use Rattle.settings.specs.Searches.{mode_of};

use faults::settings::SettingsFault;
use keys::key::OrderedKey;
use searchers::groups::Groups;
use searchers::modes::{LinearKind, Mode};
use searchers::rows::Row;
use searchers::search::{LinearSearch, PartitionSearcher, SortedSearch};

// One of the searchers, chosen when the settings are checked.
// An enum and no `dyn`: it is made here and handed out, which no function of ours does with a `dyn`.
#[derive(Clone, Copy, Debug, PartialEq, Eq)]
pub enum Search {
    Sorted(SortedSearch),
    Linear(LinearSearch),
}

// The searcher of a mode by its number.
impl TryFrom<u8> for Search {
    type Error = SettingsFault;

    ghost try_from_gives = { λ mode r. answered settings_told (mapped_ok mode_of r) ≡ mode_given mode };

    fn try_from(mode: u8) -> Result<Search, SettingsFault> {
        match mode {
            1 => Ok(Search::Sorted(SortedSearch)),
            2 => Ok(Search::Linear(LinearSearch::new(LinearKind::PartlySorted))),
            3 => Ok(Search::Linear(LinearSearch::new(LinearKind::Linear))),
            _ => Err(SettingsFault::Mode),
        }
    }
}

impl<K: OrderedKey> PartitionSearcher<K> for Search {
    ghost mode = { mode_of };

    fn input_order_mode(&self) -> Mode {
        match self {
            Search::Sorted(_) => Mode::Sorted,
            Search::Linear(search) => <LinearSearch as PartitionSearcher<K>>::input_order_mode(
                search,
            ),
        }
    }

    fn evaluate_partition_batches(&self, rows: &[Row<K>]) -> Groups {
        match self {
            Search::Sorted(search) => search.evaluate_partition_batches(rows),
            Search::Linear(search) => search.evaluate_partition_batches(rows),
        }
    }
}
