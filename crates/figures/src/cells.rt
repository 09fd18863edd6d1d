// A row's cells, and what a figure answers.
ghost use Rattle.std.specs.Prelude.{◌≡◌, All};
ghost use Rattle.std.specs.Result.{result_ok};
ghost use Rattle.figures.specs.Cells.{cell, CellFits, RowsFit};
ghost use Rattle.figures.specs.Named.{place, Names};

// A cell is a number, or none where it is absent.
pub type Cell = Option<i32>;

// A result is a value, or none where it is missing.
pub type Outcome = Option<i64>;

// One of a row's four cells. There is no fifth, so each figure has a meaning at every column.
#[derive(Clone, Copy, Debug, PartialEq, Eq)]
pub enum Column {
    C0,
    C1,
    C2,
    C3,
}

// A number that names no column: one above 3.
#[derive(Clone, Copy, Debug, PartialEq, Eq)]
pub struct UnknownColumn(pub u8);

impl TryFrom<u8> for Column {
    type Error = UnknownColumn;

    ghost try_from_gives = { λ number r. Names place number (result_ok r) };

    fn try_from(number: u8) -> Result<Column, UnknownColumn> {
        match number {
            0 => Ok(Column::C0),
            1 => Ok(Column::C1),
            2 => Ok(Column::C2),
            3 => Ok(Column::C3),
            _ => Err(UnknownColumn(number)),
        }
    }
}

impl Column {
    // The column's cell of a row.
    pub(crate) fn cell(self, cells: &[Cell; 4]) -> Cell
        ensures { result ≡ cell self cells.now }
    {
        cells[self as usize]
    }

    // The cell as a result.
    pub(crate) fn shown(self, cells: &[Cell; 4]) -> Outcome
        ensures { result ≡ cell self cells.now }
    {
        self.cell(cells).map(i64::from)
    }
}

fn cell_fits(cell: Cell)
    ensures { CellFits cell }
{}

// The cells of a row that a program holds are numbers of 32 bits.
pub fn row_fits(cells: &[Cell; 4])
    ensures { All CellFits cells.now }
{
    cells.iter().for_each(|cell| cell_fits(*cell));
}

pub(crate) fn rows_fit(rows: &[[Cell; 4]])
    ensures { RowsFit rows.now }
{
    rows.iter().for_each(row_fits);
}
