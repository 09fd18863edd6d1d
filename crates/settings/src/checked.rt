// Checked settings: a key kind, a searcher with its mode, and a set of figures.
ghost use Rattle.std.specs.Prelude.{◌≡◌};

use faults::settings::SettingsFault;
use figures::set::FigureSet;
use std::marker::PhantomData;

// Made by checks alone, so that whoever has them need not check again. The searcher is part of them: no run has another mode than its settings.
#[derive(Drop)]
pub struct Settings<K, S, F> {
    searcher: S,
    set: FigureSet<F>,
    keys: PhantomData<K>,
}

impl<K, S, F> Settings<K, S, F> {
    // Settings of a searcher and figures of anyone's own. There is nothing to refuse: whatever keeps the traits' meanings will do.
    pub fn of(searcher: S, set: FigureSet<F>) -> Self
        ensures searcher { result.searcher ≡ searcher }
        ensures set { result.set ≡ set }
    {
        Settings {
            searcher,
            set,
            keys: PhantomData,
        }
    }

    pub fn searcher(&self) -> &S
        ensures { result.now ≡ self.now.searcher }
    {
        &self.searcher
    }

    pub fn set(&self) -> &FigureSet<F>
        ensures { result.now ≡ self.now.set }
    {
        &self.set
    }

    // Takes the settings apart.
    pub fn into_parts(self) -> (S, FigureSet<F>)
        ensures searcher { result.0 ≡ self.searcher }
        ensures set { result.1 ≡ self.set }
    {
        (self.searcher, self.set)
    }
}

// A set of figures whose settings were refused, handed back with the reason.
#[derive(Drop)]
pub struct Unchecked<F> {
    pub fault: SettingsFault,
    pub set: FigureSet<F>,
}
