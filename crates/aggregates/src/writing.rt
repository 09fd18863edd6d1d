// Results that are written to the waiting rows of one key.
ghost use Rattle.std.specs.Prelude.{◌≡◌};
ghost use Rattle.tables.specs.Rows.{rows};
ghost use Rattle.aggregates.specs.Writing.{rewritten, all_rewritten, figure_taken};

use figures::cells::Outcome;
use searchers::rows::Waiting;
use tables::table::Table;

// Gives a row of a place its result of one figure, if it is among some: the first of them has the rank `from`. A row has four places for results.
fn take_result<K: Copy>(
    row: &mut Waiting<K, [Outcome; 4]>,
    place: usize,
    figure: usize,
    from: u32,
    results: &[Outcome],
)
    ensures { row.new ≡ rewritten place (figure_taken figure results.now from) row.old }
{
    if row.place == place
        && row.rank >= from
        && figure < row.results.len()
        && let Some(result) = results.get((row.rank - from) as usize)
    {
        row.results[figure] = *result;
    }
}

// Writes the results of one figure to the waiting rows of a place that have them: the first of the results has the rank `from`.
pub(crate) fn write_results<K: Copy>(
    waiting: &mut Table<Waiting<K, [Outcome; 4]>, 512>,
    place: usize,
    figure: usize,
    from: u32,
    results: &[Outcome],
)
    ensures { rows waiting.new ≡ all_rewritten place (figure_taken figure results.now from) (rows waiting.old) }
{
    waiting.for_each_mut(|row| take_result(row, place, figure, from, results));
}
