// Rows, and what a searcher sees of the tables that hold them.
use figures::cells::Cell;

// A row: its key and four cells.
#[derive(Clone, Copy)]
pub struct Row<K> {
    pub key: K,
    pub cells: [Cell; 4],
}

// A waiting row: the place of its key among the held keys, its rank among the accepted rows of its key, and its results so far, which no searcher looks at.
// The key is named by its place and not by a map or a reference: memory is fixed, and tables move their values.
#[derive(Clone, Copy)]
pub struct Waiting<K, R> {
    pub row: Row<K>,
    pub place: usize,
    pub rank: u32,
    pub results: R,
}

// A held key: how many of its rows were accepted, whether it has ended, and its progress, which no searcher looks at.
#[derive(Clone, Copy)]
pub struct Held<K, P> {
    pub key: K,
    pub rows: u32,
    pub ended: bool,
    pub progress: P,
}
