// The checks that give settings.
ghost use Rattle.std.specs.Prelude.{◌≡◌};
ghost use Rattle.faults.specs.Numbers.{settings_told, answered};
ghost use Rattle.settings.specs.Given.{given, kind_given, mode_given, mapped_ok};
ghost use Rattle.settings.specs.Kinds.{kind_number};
ghost use Rattle.settings.specs.Searches.{said_with, beside};
ghost use Rattle.settings.specs.Letters.{said};

use crate::checked::{Settings, Unchecked};
use crate::given::check_set;
use crate::raw::RawSettings;
use crate::search::Search;
use call_signs::sign::CallSign;
use faults::settings::SettingsFault;
use figures::letters::LetterFigure;
use figures::set::FigureSet;
use keys::berth::Berth;
use keys::route::RouteBerth;

// The kinds of keys that settings name by a number.
#[derive(Clone, Copy)]
enum KeyKind {
    Berths,
    RoutesAndBerths,
    CallSigns,
}

impl TryFrom<u8> for KeyKind {
    type Error = SettingsFault;

    ghost try_from_gives = { λ number r. answered settings_told (mapped_ok kind_number r) ≡ kind_given number };

    fn try_from(number: u8) -> Result<KeyKind, SettingsFault> {
        match number {
            1 => Ok(KeyKind::Berths),
            2 => Ok(KeyKind::RoutesAndBerths),
            3 => Ok(KeyKind::CallSigns),
            _ => Err(SettingsFault::KeyKind),
        }
    }
}

// Settings whose figures are letters, by their key kind.
#[derive(Drop)]
pub enum LetterSettings {
    Berths(Settings<Berth, Search, LetterFigure>),
    RoutesAndBerths(Settings<RouteBerth, Search, LetterFigure>),
    CallSigns(Settings<CallSign, Search, LetterFigure>),
}

// Checks settings that numbers and letters name.
pub fn check_letters(raw: &RawSettings) -> Result<LetterSettings, SettingsFault>
    ensures { answered settings_told (mapped_ok said result) ≡ given raw.now }
{
    let kind = KeyKind::try_from(raw.key_kind)?;
    let searcher = Search::try_from(raw.mode)?;
    let set = check_set(raw)?;
    Ok(match kind {
        KeyKind::Berths => LetterSettings::Berths(Settings::of(searcher, set)),
        KeyKind::RoutesAndBerths => LetterSettings::RoutesAndBerths(Settings::of(searcher, set)),
        KeyKind::CallSigns => LetterSettings::CallSigns(Settings::of(searcher, set)),
    })
}

// Checks settings of a key kind and figures of anyone's own: only the mode can be refused, and then the figures are handed back.
pub fn check_mode<K, F>(mode: u8, set: FigureSet<F>) -> Result<Settings<K, Search, F>, Unchecked<F>>
    ensures { said_with result ≡ beside set (mode_given mode) }
{
    match Search::try_from(mode) {
        Ok(searcher) => Ok(Settings::of(searcher, set)),
        Err(fault) => Err(Unchecked { fault, set }),
    }
}
