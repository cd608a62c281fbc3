//! The Feistel shuffle: a stage for each of three keys, over the two halves of a number.

ghost use Rattle.std.specs.Prelude.{◌≡◌, ◌^◌, ◌<◌, ◌≤◌, IfOk};
ghost use Rattle.shuffle.specs.Network.{network_span};
ghost use Rattle.shuffle.specs.Feistel.{round, feistel_span, feistel_forward, feistel_back};
ghost use Rattle.shuffle.specs.Powers.{four_few};
ghost use Rattle.shuffle.specs.Rounds.{feistel_undoes};
ghost use Rattle.shuffle.specs.Making.{MadeInRange};

use crate::shuffle::Shuffle;
use crate::width::Width;
use line::denial::Denial;

/// A Feistel network of three stages, over halves of 1 to 6 bits.
#[derive(Clone, Copy)]
pub struct Feistel {
    half_width: Width<6>,
    keys: [u16; 3],
}

impl Feistel {
    /// The shuffle of half-width `n` with these keys, of each of which the low `n` bits count. An `n` that is not from 1 to 6 is denied with 6.
    pub fn new(n: u8, keys: [u16; 3]) -> Result<Feistel, Denial>
        ensures cases { MadeInRange 6 n result }
        ensures span { IfOk result (λ s. ⟦<Feistel as Shuffle>⟧.span s ≡ 4 ^ n) }
        ensures forward { IfOk result (λ s. ⟦<Feistel as Shuffle>⟧.forward s ≡ feistel_forward n keys) }
        ensures back { IfOk result (λ s. ⟦<Feistel as Shuffle>⟧.back s ≡ feistel_back n keys) }
    {
        let half_width = Width::new(n)?;
        Ok(Feistel { half_width, keys })
    }
}

impl Shuffle for Feistel {
    ghost span = { λ s. feistel_span s.half_width.bits };

    ghost forward = { λ s. feistel_forward s.half_width.bits s.keys };

    ghost back = { λ s. feistel_back s.half_width.bits s.keys };

    ghost few = { λ s. four_few s.half_width.bits s.half_width.few };

    ghost undoes = { λ s. feistel_undoes s.half_width.bits s.keys };

    #[tactic(auto, using(crate::specs::Powers::four_shl))]
    fn span(&self) -> u16 {
        1 << (2 * self.half_width.bits)
    }

    fn forward(&self, number: u16) -> u16 {
        if number >= self.span() {
            return number;
        }
        self.keys
            .iter()
            .copied()
            .fold(Split::new(self.half_width, number), Split::stage)
            .join()
    }

    fn back(&self, number: u16) -> u16 {
        if number >= self.span() {
            return number;
        }
        self.keys
            .iter()
            .copied()
            .rev()
            .fold(Split::new(self.half_width, number), Split::unstage)
            .join()
    }
}

// A number as its high and its low half.
#[derive(Clone, Copy)]
struct Split {
    width: Width<6>,
    left: u16,
    right: u16,
    ghost left_within: { left < 2 ^ width.bits },
    ghost right_within: { right < 2 ^ width.bits },
}

impl Split {
    ghost use Rattle.shuffle.specs.Network.{halves, joined};
    ghost use Rattle.shuffle.specs.Split.{halves_of, stage_of, unstage_of};

    // A number of twice the width, in its halves.
    #[tactic(auto, using(crate::specs::Networks::halves_within))]
    fn new(width: Width<6>, number: u16) -> Split
        requires { number < network_span width.bits }
        ensures width { result.width ≡ width }
        ensures halves { halves_of result ≡ halves width.bits number }
    {
        let size = width.size();
        Split {
            width,
            left: number / size,
            right: number % size,
        }
    }

    // The number that has these halves.
    fn join(self) -> u16
        ensures { result ≡ joined self.width.bits (halves_of self) }
    {
        self.left * self.width.size() + self.right
    }

    // The stage of a key.
    #[tactic(auto, using(std::proofs::lemmas::Nat::xor_lt))]
    fn stage(self, key: u16) -> Split
        ensures { result ≡ stage_of self key }
    {
        Split {
            width: self.width,
            left: self.right ^ round_of(self.width, key, self.left),
            right: self.left,
        }
    }

    // What undoes the stage of a key.
    #[tactic(auto, using(std::proofs::lemmas::Nat::xor_lt))]
    fn unstage(self, key: u16) -> Split
        ensures { result ≡ unstage_of self key }
    {
        Split {
            width: self.width,
            left: self.right,
            right: self.left ^ round_of(self.width, key, self.right),
        }
    }
}

// The round function of a key, at a half.
#[tactic(auto, using(crate::specs::Rounds::mixed_fits))]
fn round_of(width: Width<6>, key: u16, half: u16) -> u16
    requires { half < 2 ^ width.bits }
    ensures value { result ≡ round width.bits key half }
    ensures within { result < 2 ^ width.bits }
{
    let size = width.size();
    let mixed = half ^ (key % size);
    mixed * mixed % size
}
