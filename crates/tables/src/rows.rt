// Rows as the tables hold them, and as they go out.
use searchers::rows::Row;

// A kept row: results to come may look at it. Its place is that of its key among the held keys.
// By place and not by a map or a list for each key: memory is fixed, and shared by all keys.
#[derive(Clone, Copy)]
pub struct Kept<K> {
    pub row: Row<K>,
    pub place: usize,
}

// A row that goes out, with its results.
#[derive(Clone, Copy)]
pub struct OutRow<K, R> {
    pub row: Row<K>,
    pub results: R,
}
