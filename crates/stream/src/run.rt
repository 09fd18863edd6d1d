// A run. Ported from datafusion-physical-plan's bounded_window_agg_exec.rs and changed.
ghost use Rattle.std.specs.Prelude.{◌≡◌, ◌+◌, true, length};
ghost use Rattle.tables.specs.Rows.{rows};
ghost use Rattle.tables.specs.Lists.{within};

use aggregates::progress::Progress;
use figures::cells::Outcome;
use settings::checked::Settings;
use tables::tables::Tables;

pub mod calls;

// A run: its settings, its tables, the key of the last accepted row, and how many rows were accepted and put out.
#[derive(Drop)]
pub struct BoundedWindowAggStream<K, S, F> {
    tables: Tables<K, [Outcome; 4], Progress>,
    settings: Settings<K, S, F>,
    last: Option<K>,
    accepted: u32,
    out: u32,
    finished: bool,
    ghost counted: { accepted ≡ out + length (rows tables.waiting) },
    ghost few: { within accepted (rows tables.held) ≡ true },
}
