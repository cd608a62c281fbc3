//! The trait of everything that stores lines.

ghost use Rattle.std.specs.Prelude.{◌≡◌, ℕ, ◌%◌, ◌^◌, ◌≤◌, List, [], ◌∷◌, length, Result};
ghost use Rattle.std.specs.Borrow.{GName};
ghost use Rattle.line.specs.declared.denial.Denial.{Denial as Denied};
ghost use Rattle.medium.specs.Array.{array_of, fetched, Wrote};
ghost use Rattle.medium.specs.Pile.{Pile, Served};
ghost use Rattle.medium.specs.declared.call.Call.TheVariants.{Read, Write};

use line::denial::Denial;

/// A medium: lines that are read and written by their numbers, until its life is used.
///
/// The count of lines and the life never change. A denial alters nothing.
pub trait Medium {
    type Line: Copy;

    // the lines, in the order of their numbers
    ghost lines: { Self → List Self.Line };
    // how many writes were accepted
    ghost taken: { Self → ℕ };
    // how many writes are accepted in all
    ghost life: { Self → ℕ };
    // how many line writes the cells below have borne
    ghost wear: { Self → ℕ };
    // what lies below it, for a layer; a medium of which nothing more is known says `bottom`
    ghost pile: { Self → Pile Self.Line };

    // the memory that was lent to it, by the names of the references: a write keeps each
    ghost memory: { Self → List GName };
    // what a write of a value to a line, with that answer, does besides: what its memory then holds, for one that holds any
    ghost effect: { Self → ℕ → Self.Line → Result ℕ Denied → Self → Type 0 };

    /// How many lines there are, at most 4,096.
    fn count(&self) -> u16
        ensures answer { result ≡ length (lines self.now) }
        ensures bound { result ≤ 4096 };

    /// How many writes are accepted in all.
    fn life(&self) -> u32
        ensures answer { result ≡ life self.now };

    /// How many writes were accepted so far, at most the life.
    fn taken(&self) -> u32
        ensures answer { result ≡ taken self.now }
        ensures bound { result ≤ life self.now };

    /// The wear of the cells, modulo 2^64.
    fn wear(&self) -> u64
        ensures answer { result ≡ wear self.now % 2 ^ 64 };

    /// The line of that number. A number not below the count is denied with 1.
    fn read(&self, line: u16) -> Result<Self::Line, Denial>
        ensures answer { result ≡ fetched (lines self.now) line }
        ensures below { Served (pile self.now) (array_of lines taken life self.now) (wear self.now) (Read line ∷ []) (pile self.now) (wear self.now) };

    // Each implementation asks the two questions itself: a generic function that asks them of `self` gets no proof within its own impl.
    /// Replaces the line of that number, and answers the toll: what the wear grew by, modulo 2^64.
    /// A number not below the count is denied with 1, and then a used life with 2.
    fn write(&mut self, line: u16, value: Self::Line) -> Result<u64, Denial>
        ensures answer { Wrote (array_of lines taken life self.old) (wear self.old) line value (array_of lines taken life self.new) (wear self.new) result }
        ensures below { Served (pile self.old) (array_of lines taken life self.old) (wear self.old) (Write line value ∷ []) (pile self.new) (wear self.new) }
        ensures memory { memory self.new ≡ memory self.old }
        ensures effect { effect self.old line value result self.new };
}
