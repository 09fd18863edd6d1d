// What it takes to be a key. Code above a key kind sees these laws and nothing more: in particular
// not that equal keys are identical.
ghost use Rattle.std.specs.Prelude.{◌≡◌, ℕ, ◌<◌, ◌≤◌, true, List, length, Some, Option as Maybe};
ghost use Rattle.std.specs.declared.cmp.Ordering.TheVariants.{Equal};
ghost use Rattle.std.specs.declared.cmp.Ordering.{Ordering as Rank};
ghost use Rattle.std.specs.List.{AllByRecursion};
ghost use Rattle.std.specs.Cmp.{IsTotalOrder};
ghost use Rattle.raw_bytes.specs.Writing.{Written};

use raw_bytes::writer::Writer;
use std::cmp::Ordering;

// A key kind: an equality, and a hash and a written form that go with it.
pub trait Key: Copy + Eq {
    // a 64-bit hash; which one is open, but for the law that equal keys have equal hashes
    ghost hashed: { Self → ℕ };

    // the written form, a list of bytes
    ghost written: { Self → List ℕ };

    // the key that bytes are read as, if they are read as one
    ghost parsed: { List ℕ → Maybe Self };

    fn hash(&self) -> u64
        ensures { result ≡ hashed self.now };

    // Writes the written form.
    fn write(&self, writer: &mut Writer<'_>)
        ensures { Written writer.old (written self.now) writer.new };

    // The key that these bytes, all of them, are the written form of.
    // No `TryFrom<&[u8]>`: the bound would be owed at every lifetime, and each kind's line is the same.
    fn read(bytes: &[u8]) -> Option<Self>
        ensures { result ≡ parsed bytes.now };

    ghost agree: { (x y : Self) → Self.eq x y ≡ true → hashed x ≡ hashed y };

    ghost short: { (x : Self) → length (written x) ≤ 9 };

    ghost again: { (x : Self) → parsed (written x) ≡ Some x };
}

// A key kind with two comparisons: of whole keys, whose ties are exactly the equal keys, and of
// their sorted parts, in which equal keys tie.
pub trait OrderedKey: Key + Ord {
    ghost parts: { Self → Self → Rank };

    fn compare_parts(&self, other: &Self) -> Ordering
        ensures parts { result ≡ parts self.now other.now }
        ensures tied { Self.eq self.now other.now ≡ true → result ≡ Equal };

    ghost sorted: { IsTotalOrder parts };

    ghost tied: { (x y : Self) → Self.eq x y ≡ true → parts x y ≡ Equal };
}

// A key kind of the journal: its written forms have one width, no other bytes are read as a key,
// and a key has a printed form.
pub trait JournalKey: OrderedKey {
    ghost width: { ℕ };

    ghost shown: { Self → List ℕ };

    // How many bytes each written form has.
    fn width() -> usize
        ensures { result ≡ width };

    // Writes the printed form.
    // No `Display`: its text is promised only where `fmt` answers `Ok`, and this one is written or counted always.
    fn show(&self, writer: &mut Writer<'_>)
        ensures { Written writer.old (shown self.now) writer.new };

    ghost narrow: { width ≤ 9 };

    ghost sized: { (x : Self) → length (Self.Key.written x) ≡ width };

    ghost only: { (bytes : List ℕ) (x : Self) → AllByRecursion (λ b. b < 256) bytes → Self.Key.parsed bytes ≡ Some x → Self.Key.written x ≡ bytes };
}
