//! The key shuffle: a number xor the low bits of a key.

ghost use Rattle.std.specs.Prelude.{◌≡◌, ◌^◌, ◌≤◌, IfOk};
ghost use Rattle.shuffle.specs.Key.{key_span, key_forward, key_back};
ghost use Rattle.shuffle.specs.Xored.{key_few, key_undoes};
ghost use Rattle.shuffle.specs.Making.{MadeInRange};

use crate::shuffle::Shuffle;
use crate::width::Width;
use line::denial::Denial;

/// The exclusive or with one key, over numbers of 1 to 12 bits.
#[derive(Clone, Copy)]
pub struct KeyShuffle {
    width: Width<12>,
    key: u16,
}

impl KeyShuffle {
    /// The shuffle of the numbers of `n` bits with this key, of which the low `n` bits count. An `n` that is not from 1 to 12 is denied with 6.
    pub fn new(n: u8, key: u16) -> Result<KeyShuffle, Denial>
        ensures cases { MadeInRange 12 n result }
        ensures span { IfOk result (λ s. ⟦<KeyShuffle as Shuffle>⟧.span s ≡ 2 ^ n) }
        ensures forward { IfOk result (λ s. ⟦<KeyShuffle as Shuffle>⟧.forward s ≡ key_forward n key) }
        ensures back { IfOk result (λ s. ⟦<KeyShuffle as Shuffle>⟧.back s ≡ key_back n key) }
    {
        let width = Width::new(n)?;
        Ok(KeyShuffle { width, key })
    }
}

impl Shuffle for KeyShuffle {
    ghost span = { λ s. key_span s.width.bits };

    ghost forward = { λ s. key_forward s.width.bits s.key };

    ghost back = { λ s. key_back s.width.bits s.key };

    ghost few = { λ s. key_few s.width.bits s.width.few };

    ghost undoes = { λ s. key_undoes s.width.bits s.key };

    fn span(&self) -> u16 {
        self.width.size()
    }

    fn forward(&self, number: u16) -> u16 {
        let span = self.span();
        if number < span {
            number ^ (self.key % span)
        } else {
            number
        }
    }

    fn back(&self, number: u16) -> u16 {
        self.forward(number)
    }
}
