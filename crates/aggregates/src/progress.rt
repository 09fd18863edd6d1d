// How far the figures have come with a key.
ghost use Rattle.std.specs.Prelude.{◌≡◌, None, replicate};
ghost use Rattle.aggregates.specs.Sets.{set_figures};

use figures::carry::Carry;
use figures::cells::Outcome;
use figures::figure::Figure;
use figures::set::FigureSet;

// The number of the key's rows when it was last caught up, and each figure's carry.
// A carry for each figure by its number, as a row's results are: a set has four named fields, and memory is fixed.
#[derive(Clone, Copy)]
pub struct Progress {
    pub rows: u32,
    pub carries: [Carry; 4],
}

// What is held for a new key.
pub fn start_of<F: Figure>(set: &FigureSet<F>) -> Progress
    ensures { result ≡ (set_figures F.Figure set.now).start }
{
    let mut carries = [Carry::default(); 4];
    for (j, figure) in set.iter().enumerate() {
        carries[j] = figure.start();
    }
    Progress { rows: 0, carries }
}

// The results of a new row.
pub fn blank() -> [Outcome; 4]
    ensures { result ≡ replicate 4 None }
{
    [None; 4]
}
