use crate::rows::Kept;
use crate::table::Table;
use searchers::rows::{Held, Waiting};

pub mod admission;
pub mod ends;
pub mod leaving;
pub mod start;

// The three tables of a run.
#[derive(Drop)]
pub struct Tables<K, R, P> {
    pub waiting: Table<Waiting<K, R>, 512>,
    pub kept: Table<Kept<K>, 1024>,
    pub held: Table<Held<K, P>, 64>,
}
