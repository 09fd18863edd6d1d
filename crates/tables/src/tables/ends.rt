// End marks.
ghost use Rattle.std.specs.Prelude.{◌≡◌, true};
ghost use Rattle.searchers.specs.Ends.{ended_at};
ghost use Rattle.tables.specs.Lists.{mark};
ghost use Rattle.tables.specs.Whole.{lists};

use super::Tables;
use keys::key::{Key, OrderedKey};
use searchers::search::PartitionSearcher;

impl<K: OrderedKey, R: Copy, P: Copy> Tables<K, R, P> {
    // Marks each held key as ended or not; `last` is the key of the last accepted row, if there is one.
    pub fn mark_partition_end<S: PartitionSearcher<K>>(&mut self, searcher: &S, last: &Option<K>)
        ensures { lists self.new ≡ mark (ended_at (S.PartitionSearcher.mode searcher.now) K.eq K.OrderedKey.parts last.now) (lists self.old) }
    {
        self.held
            .for_each_mut(|entry| entry.ended = searcher.has_ended(&entry.key, last));
    }
}

impl<K: Key, R: Copy, P: Copy> Tables<K, R, P> {
    // Marks each held key as ended.
    pub fn end_all(&mut self)
        ensures { lists self.new ≡ mark (λ _. true) (lists self.old) }
    {
        self.held.for_each_mut(|entry| entry.ended = true);
    }
}
