// Why settings are refused.
ghost use Rattle.std.specs.Prelude.{◌≡◌};
ghost use Rattle.faults.specs.Numbers.{settings_told};

use crate::told::{Layer, Told};
use thiserror::Error;

// A letter, a column or a reach is refused at its figure, counted from 0.
#[derive(Clone, Copy, Debug, PartialEq, Eq, Error)]
pub enum SettingsFault {
    #[error("the key kind is not 1, 2 or 3")]
    KeyKind,
    #[error("the mode is not 1, 2 or 3")]
    Mode,
    #[error("there are not 1 to 4 figures")]
    FigureCount,
    #[error("the letter of figure {0} names nothing")]
    Letter(usize),
    #[error("the column of figure {0} is none that its letter takes")]
    Column(usize),
    #[error("a reach of figure {0} is longer than its letter allows")]
    Reach(usize),
}

impl From<SettingsFault> for Told {
    ghost from_gives = { λ fault told. told ≡ settings_told fault };

    fn from(fault: SettingsFault) -> Told {
        let (number, place) = match fault {
            SettingsFault::KeyKind => (1, 0),
            SettingsFault::Mode => (2, 0),
            SettingsFault::FigureCount => (3, 0),
            SettingsFault::Letter(figure) => (4, figure),
            SettingsFault::Column(figure) => (5, figure),
            SettingsFault::Reach(figure) => (6, figure),
        };
        Told {
            layer: Layer::Settings,
            number,
            place,
        }
    }
}
