// A refusal as it is told: its layer, its number in the list of refusals, and its place.

// Where a refusal comes from.
#[derive(Clone, Copy, Debug, PartialEq, Eq)]
pub enum Layer {
    Settings,
    Run,
    Journal,
}

// The number is the format's own, which hosts and people read: each fault turns into its own.
#[derive(Clone, Copy, Debug, PartialEq, Eq)]
pub struct Told {
    pub layer: Layer,
    pub number: u8,
    pub place: usize,
}
