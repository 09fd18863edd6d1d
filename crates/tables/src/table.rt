// A table of a fixed number of places. What it holds stands in its first places, in order, and
// every place behind that is blank: a table is determined by the list of what it holds.
// It is no `ArrayVec`, whose `new` asks a `Default` of what it holds, and a kind of key need not have one.
// It has no `impl Model`: a proof reads the bound on its length off the table itself.
ghost use Rattle.std.specs.Prelude.{◌≡◌, ◌≤◌, length};
ghost use Rattle.tables.specs.Places.{somes, laid};

pub mod changes;
pub mod edits;
pub mod iter;

#[derive(Drop)]
pub struct Table<T, const N: usize> {
    places: [Option<T>; N],
    len: usize,
    ghost packed: { places ≡ laid N (somes places) },
    ghost count: { len ≡ length (somes places) },
    ghost few: { len ≤ N },
}
