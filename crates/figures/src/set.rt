// A set of one to four figures.
ghost use Rattle.std.specs.Prelude.{◌≡◌, ◌+◌, length};
ghost use Rattle.std.specs.Iterator.{YieldsFirstRef, item_count};
ghost use Rattle.std.specs.Option.{option_map};
ghost use Rattle.std.specs.List.{slice_get};
ghost use Rattle.figures.specs.Sets.{figures, figures_left, largest, IsLargest};

use crate::figure::Figure;

// The figures in their order. A set without a figure, or with a gap between two, has no case.
// Named fields and no array or vector: memory is fixed, and a `Result` can carry a set of any figures.
#[derive(Drop)]
pub enum FigureSet<F> {
    One {
        first: F,
    },
    Two {
        first: F,
        second: F,
    },
    Three {
        first: F,
        second: F,
        third: F,
    },
    Four {
        first: F,
        second: F,
        third: F,
        fourth: F,
    },
}

impl<F> FigureSet<F> {
    pub fn len(&self) -> usize
        ensures { result ≡ length (figures self.now) }
    {
        match self {
            FigureSet::One { .. } => 1,
            FigureSet::Two { .. } => 2,
            FigureSet::Three { .. } => 3,
            FigureSet::Four { .. } => 4,
        }
    }

    // The figure at a place, counted from 0.
    pub fn get(&self, place: usize) -> Option<&F>
        ensures { option_map (λ x. x.now) result ≡ slice_get (figures self.now) place }
    {
        match (self, place) {
            (FigureSet::One { first }, 0) => Some(first),
            (FigureSet::Two { first, .. }, 0) => Some(first),
            (FigureSet::Two { second, .. }, 1) => Some(second),
            (FigureSet::Three { first, .. }, 0) => Some(first),
            (FigureSet::Three { second, .. }, 1) => Some(second),
            (FigureSet::Three { third, .. }, 2) => Some(third),
            (FigureSet::Four { first, .. }, 0) => Some(first),
            (FigureSet::Four { second, .. }, 1) => Some(second),
            (FigureSet::Four { third, .. }, 2) => Some(third),
            (FigureSet::Four { fourth, .. }, 3) => Some(fourth),
            _ => None,
        }
    }

    // The figures, one after another.
    pub fn iter(&self) -> Figures<'_, F>
        ensures { figures_left result ≡ figures self.now }
    {
        Figures { set: self, next: 0 }
    }
}

// The figures of a set from a place on.
// By the place of the next: they stand in named fields, so that there is no slice to go over.
#[derive(Drop)]
pub struct Figures<'a, F> {
    set: &'a FigureSet<F>,
    next: usize,
}

impl<'a, F> Iterator for Figures<'a, F> {
    type Item = &'a F;

    ghost next_gives = { YieldsFirstRef figures_left };

    ghost remaining = { item_count figures_left };

    fn next(&mut self) -> Option<&'a F> {
        let figure = self.set.get(self.next)?;
        self.next += 1;
        Some(figure)
    }
}

impl<F: Figure> FigureSet<F> {
    // The largest reach after: how many later rows of its key a row waits for.
    pub fn reach_after(&self) -> u16
        ensures value { result ≡ largest F.Figure.ahead (figures self.now) }
        ensures largest { IsLargest F.Figure.ahead (figures self.now) result }
    {
        self.iter().fold(0, |most, figure| most.max(figure.after()))
    }

    // The largest sum of a figure's two reaches: how many of a key's last rows the results to come may need.
    pub fn reach(&self) -> u32
        ensures value { result ≡ largest (λ f. F.Figure.back f + F.Figure.ahead f) (figures self.now) }
        ensures largest { IsLargest (λ f. F.Figure.back f + F.Figure.ahead f) (figures self.now) result }
    {
        self.iter().fold(0, |most, figure| {
            most.max(u32::from(figure.before()) + u32::from(figure.after()))
        })
    }
}
