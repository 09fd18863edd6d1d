// How many waiting rows leave. Ported from datafusion-physical-plan's bounded_window_agg_exec.rs and changed.
ghost use Rattle.std.specs.Prelude.{◌≡◌, ◌+◌, nat_lt};
ghost use Rattle.figures.specs.Sets.{figures};
ghost use Rattle.searchers.specs.Leaving.{standing, by_each, by_largest, leaving, Settled, LongestFront};

use crate::rows::{Held, Waiting};
use figures::figure::Figure;
use figures::set::FigureSet;

// How a waiting row stands: its key is not held, has ended, or may get more rows than it has.
#[derive(Clone, Copy)]
pub enum Standing {
    Nowhere,
    Ended,
    Open { rank: u32, rows: u32 },
}

fn stands<K, R, P>(waiting: &Option<Waiting<K, R>>, held: &[Option<Held<K, P>>]) -> Standing
    ensures { result ≡ standing held.now waiting.now }
{
    let Some(row) = waiting else {
        return Standing::Nowhere;
    };
    match held.get(row.place) {
        Some(Some(key)) if key.ended => Standing::Ended,
        Some(Some(key)) => Standing::Open {
            rank: row.rank,
            rows: key.rows,
        },
        _ => Standing::Nowhere,
    }
}

// Whether a rank and the reach after of a figure lie within the rows.
fn reaches<F: Figure>(figure: &F, rank: u32, rows: u32) -> bool
    ensures { result ≡ nat_lt (rank + F.Figure.ahead figure.now) rows }
{
    u64::from(rank) + u64::from(figure.after()) < u64::from(rows)
}

// The scan stops at the first row that is not settled, and nothing behind it leaves.
// Rows, keys and figures stay three parameters: they are two tables and a part of the settings.
fn scan_waiting<K, R, P, F: Figure>(
    waiting: &[Option<Waiting<K, R>>],
    held: &[Option<Held<K, P>>],
    set: &FigureSet<F>,
) -> usize
    ensures { result ≡ leaving (by_each F.Figure.ahead (figures set.now)) held.now waiting.now }
{
    let leaving: usize = 'scan: {
        for (n, row) in waiting.iter().enumerate() {
            match stands(row, held) {
                Standing::Nowhere => break 'scan n,
                Standing::Ended => {}
                Standing::Open { rank, rows } => {
                    for figure in set.iter() {
                        if !reaches(figure, rank, rows) {
                            break 'scan n;
                        }
                    }
                }
            }
        }
        waiting.len()
    };
    leaving
}

// How many waiting rows leave, and what that means.
pub(crate) fn count_leaving<K, R, P, F: Figure>(
    waiting: &[Option<Waiting<K, R>>],
    held: &[Option<Held<K, P>>],
    set: &FigureSet<F>,
) -> usize
    ensures each { result ≡ leaving (by_each F.Figure.ahead (figures set.now)) held.now waiting.now }
    ensures largest { result ≡ leaving (by_largest F.Figure.ahead (figures set.now)) held.now waiting.now }
    ensures front { LongestFront (Settled F.Figure.ahead (figures set.now) held.now) waiting.now result }
{
    scan_waiting(waiting, held, set)
}
