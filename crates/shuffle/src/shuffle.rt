//! What a shuffle is: a span, a forward and a back that undo each other below the span, and what follows of every shuffle.

ghost use Rattle.std.specs.Prelude.{◌≡◌, ℕ, ◌≤◌};
ghost use Rattle.shuffle.specs.Permutations.{Permutes, Undoes};

/// A shuffle: a permutation of the numbers below its span, and the one that undoes it. Neither they nor the span ever change.
pub trait Shuffle {
    // how many numbers are shuffled
    ghost span: { Self → ℕ };
    // where a number goes
    ghost forward: { Self → ℕ → ℕ };
    // where it came from
    ghost back: { Self → ℕ → ℕ };

    /// How many numbers are shuffled: those below the span, which is at most 4,096.
    fn span(&self) -> u16
        ensures answer { result ≡ span self.now };

    /// Where `number` goes. A number at or above the span is answered unaltered.
    fn forward(&self, number: u16) -> u16
        ensures answer { result ≡ forward self.now number };

    /// Where `number` came from. A number at or above the span is answered unaltered.
    fn back(&self, number: u16) -> u16
        ensures answer { result ≡ back self.now number };

    // The law: below the span, which is at most 4,096, each stays below it and undoes the other; any other number stays where it is.
    ghost few: { (s : Self) → span s ≤ 4096 };

    ghost undoes: { (s : Self) → Undoes (span s) (forward s) (back s) };
}

/// Shuffles a number forward and then back: the number itself, since forward permutes the numbers below the span.
pub fn forward_then_back<S: Shuffle>(shuffle: &S, number: u16) -> u16
    ensures same { result ≡ number }
    ensures permutes { Permutes (S.Shuffle.span shuffle.now) (S.Shuffle.forward shuffle.now) }
{
    shuffle.back(shuffle.forward(number))
}

/// Shuffles a number back and then forward: the number itself, since back permutes the numbers below the span.
pub fn back_then_forward<S: Shuffle>(shuffle: &S, number: u16) -> u16
    ensures same { result ≡ number }
    ensures permutes { Permutes (S.Shuffle.span shuffle.now) (S.Shuffle.back shuffle.now) }
{
    shuffle.forward(shuffle.back(number))
}
