// What a figure is.
ghost use Rattle.std.specs.Prelude.{◌≡◌, ℕ, List};
ghost use Rattle.figures.specs.declared.carry.Carry.{Carry};
ghost use Rattle.figures.specs.Cells.{Cell, Outcome};

use crate::carry::Carry;
use crate::cells::{Cell, Outcome};

// A figure by its meaning: how many rows before and after a row it reaches, the carry that it starts from, what that becomes with each row before the frame, and the row's result from the carry, the frame and the row's position in it. Each method answers its own part of the meaning, for every input and each time alike.
pub trait Figure {
    ghost back: { Self → ℕ };

    ghost ahead: { Self → ℕ };

    ghost starts: { Self → Carry };

    ghost absorbs: { Self → Carry → List Cell → Carry };

    ghost yields: { Self → Carry → List (List Cell) → ℕ → Outcome };

    fn before(&self) -> u16
        ensures { result ≡ back self.now };

    fn after(&self) -> u16
        ensures { result ≡ ahead self.now };

    fn start(&self) -> Carry
        ensures { result ≡ starts self.now };

    fn absorb(&self, carry: Carry, cells: &[Cell; 4]) -> Carry
        ensures { result ≡ absorbs self.now carry cells.now };

    fn value(&self, carry: &Carry, frame: &[[Cell; 4]], position: usize) -> Outcome
        ensures { result ≡ yields self.now carry.now frame.now position };
}
