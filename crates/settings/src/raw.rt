// Settings as given, by numbers and letters.

#[derive(Clone, Copy, Debug, PartialEq, Eq)]
pub struct RawFigure {
    pub letter: u8,
    pub column: u8,
    pub before: u16,
    pub after: u16,
}

// How many figures there are is given too; those behind that number are not looked at.
// All stands as it was given, as numbers and letters in named fields: the checks say what they name.
#[derive(Clone, Copy, Debug, PartialEq, Eq)]
pub struct RawSettings {
    pub key_kind: u8,
    pub mode: u8,
    pub figures: u8,
    pub first: RawFigure,
    pub second: RawFigure,
    pub third: RawFigure,
    pub fourth: RawFigure,
}
