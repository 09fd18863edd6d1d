// The values of a table, one after the other.
ghost use Rattle.std.specs.Iterator.{YieldsFirstRef, item_count};
ghost use Rattle.tables.specs.Rows.{values_left};

#[derive(Drop)]
pub struct Iter<'a, T> {
    pub(crate) left: &'a [Option<T>],
}

impl<'a, T> Iterator for Iter<'a, T> {
    type Item = &'a T;

    ghost next_gives = { YieldsFirstRef values_left };

    ghost remaining = { item_count values_left };

    fn next(&mut self) -> Option<&'a T> {
        while let Some((place, others)) = self.left.split_first() {
            self.left = others;
            if let Some(x) = place {
                return Some(x);
            }
        }
        None
    }
}
