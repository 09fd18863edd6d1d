// The modes of a run: how far its rows come in the order of their keys.
ghost use Rattle.std.specs.Prelude.{◌≡◌};
ghost use Rattle.searchers.specs.Modes.{number, linear_mode};

// Sorted: by whole keys. Partly sorted: by the keys' sorted parts. Linear: in any order.
#[derive(Clone, Copy, Debug, PartialEq, Eq)]
pub enum Mode {
    Sorted,
    PartlySorted,
    Linear,
}

// The number that names a mode.
impl From<Mode> for u8 {
    ghost from_gives = { λ mode named. named ≡ number mode };

    fn from(mode: Mode) -> u8 {
        match mode {
            Mode::Sorted => 1,
            Mode::PartlySorted => 2,
            Mode::Linear => 3,
        }
    }
}

// The two modes that a linear search can be made with.
#[derive(Clone, Copy, Debug, PartialEq, Eq)]
pub enum LinearKind {
    PartlySorted,
    Linear,
}

impl From<LinearKind> for Mode {
    ghost from_gives = { λ kind mode. mode ≡ linear_mode kind };

    fn from(kind: LinearKind) -> Mode {
        match kind {
            LinearKind::PartlySorted => Mode::PartlySorted,
            LinearKind::Linear => Mode::Linear,
        }
    }
}
