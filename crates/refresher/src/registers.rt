//! The registers of a refresh layer, and the size and the life that the layer is made with.

ghost use Rattle.std.specs.Prelude.{◌≡◌, ℕ, ◌+◌, ◌-◌, ◌/◌, ◌<◌, ◌≤◌, ◌^◌, length};
ghost use Rattle.arrayvec.specs.ArrayVec.{array_vec_len};
ghost use Rattle.refresh.specs.Refresh.{place_of, holder_at, waits, refreshed, after_write, new_registers};
ghost use Rattle.refresh.specs.Life.{life_of};
ghost use Rattle.refresh.specs.Powers.{greatest_power};

use arrayvec::ArrayVec;
use refresh::round::Round;

// The two places whose lines a refresh exchanges: that of the line at the pointer by the previous key, and by the current one.
#[derive(Clone, Copy)]
pub(crate) struct Exchange {
    pub(crate) previous: u16,
    pub(crate) current: u16,
}

// How the lines of a layer lie, and what its next writes bring.
#[derive(Drop)]
pub(crate) struct Registers {
    // how many lines there are, 0 where the settings do not fit: no `Option`, since no lines is what an unfit layer has
    size: u16,
    // how many writes bring a refresh
    interval: u16,
    // the ring of keys
    keys: ArrayVec<u16, 16>,
    round: Round,
    // how many writes were accepted since the last refresh
    due: u16,
    copies: u32,
    ghost few: { size ≤ 4096 },
    ghost power: { (0 < size → size ≡ greatest_power size) },
    ghost turn: { round.turn < array_vec_len keys },
    ghost previous: { round.previous ≤ size - 1 },
    ghost current: { round.current ≤ size - 1 },
    ghost pointer: { round.pointer ≤ size - 1 },
    ghost waits: { due < interval },
}

impl Registers {
    ghost use Rattle.refresher.specs.Layer.{registers, due_exchange};

    // Those of a layer of `size` lines that has taken no write yet.
    pub(crate) fn new(size: u16, interval: u16, ring: &[u16]) -> Registers
        requires some { 0 < size }
        requires few { size ≤ 4096 }
        requires power { size ≡ greatest_power size }
        requires paced { 1 ≤ interval }
        requires two { 2 ≤ length ring.now }
        requires short { length ring.now ≤ 16 }
        ensures new { registers result ≡ new_registers size interval ring.now }
    {
        let keys: ArrayVec<u16, 16> = ArrayVec::try_from(ring).unwrap_or_default();
        let round = Round {
            previous: keys[0] % size,
            current: keys[1] % size,
            turn: 1,
            pointer: 0,
        };
        Registers {
            size,
            interval,
            keys,
            round,
            due: 0,
            copies: 0,
        }
    }

    // Those of a layer whose settings do not fit: it has no lines.
    pub(crate) fn unfit() -> Registers
        ensures none { result.size ≡ 0 }
        ensures paced { result.interval ≡ 1 }
        ensures due { result.due ≡ 0 }
        ensures copies { result.copies ≡ 0 }
        ensures pointer { result.round.pointer ≡ 0 }
    {
        let mut keys = ArrayVec::new();
        keys.push(0);
        Registers {
            size: 0,
            interval: 1,
            keys,
            round: Round {
                previous: 0,
                current: 0,
                turn: 0,
                pointer: 0,
            },
            due: 0,
            copies: 0,
        }
    }

    pub(crate) fn size(&self) -> u16
        ensures value { result ≡ self.now.size }
    {
        self.size
    }

    pub(crate) fn copies(&self) -> u32
        ensures value { result ≡ self.now.copies }
    {
        self.copies
    }

    // What `life` writes cost below, with all the copies that they may bring.
    pub(crate) fn cost(&self, life: u32) -> u32
        requires room { life + life / self.now.interval + self.now.size / 2 < 2 ^ 32 }
        ensures value { result ≡ life + life / self.now.interval + self.now.size / 2 }
    {
        life + life / self.interval as u32 + (self.size / 2) as u32
    }

    // The place of a line.
    #[tactic(auto, unfolding(refresh::specs::Refresh::place_of))]
    pub(crate) fn place(&self, line: u16) -> u16
        ensures value { result ≡ place_of self.now.round line }
    {
        let round = self.round;
        let mate = line ^ round.previous ^ round.current;
        if line < round.pointer || mate < round.pointer {
            line ^ round.current
        } else {
            line ^ round.previous
        }
    }

    // The line at a place, none from the size on.
    #[tactic(auto, unfolding(refresh::specs::Refresh::line_at))]
    pub(crate) fn line_at(&self, place: u16) -> Option<u16>
        ensures value { result ≡ holder_at self.now.size self.now.round place }
    {
        let round = self.round;
        let old = place ^ round.previous;
        let new = place ^ round.current;
        let line = if new < round.pointer || old < round.pointer {
            new
        } else {
            old
        };
        (place < self.size).then_some(line)
    }

    // Whether the next accepted write brings no refresh.
    fn waits(&self) -> bool
        ensures value { result ≡ waits (registers self.now) }
    {
        self.interval > self.due + 1
    }

    // The exchange that the next accepted write brings, if it brings one.
    pub(crate) fn exchange(&self) -> Option<Exchange>
        ensures value { result ≡ due_exchange (registers self.now) }
    {
        if self.waits() {
            return None;
        }
        let round = self.round;
        let previous = round.pointer ^ round.previous;
        let current = round.pointer ^ round.current;
        let mate = previous ^ round.current;
        (round.pointer < mate).then_some(Exchange { previous, current })
    }

    // The round after one refresh: the pointer rises, and at the end of the round the keys turn.
    #[tactic(auto, unfolding(refresh::specs::Refresh::refreshed))]
    fn refreshed(&self) -> Round
        requires some { 0 < self.now.size }
        ensures value { result ≡ refreshed self.now.size self.now.keys.items self.now.round }
    {
        let round = self.round;
        if round.pointer + 1 < self.size {
            Round {
                pointer: round.pointer + 1,
                ..round
            }
        } else {
            let ring = self.keys.len() as u16;
            let turn = (round.turn + 1) % ring;
            Round {
                previous: round.current,
                current: self.keys[turn as usize] % self.size,
                turn,
                pointer: 0,
            }
        }
    }

    // Counts an accepted write, with the copies that it brings.
    #[tactic(auto, unfolding(refresh::specs::Refresh::after_write, refresh::specs::Refresh::write_copies, refresh::specs::Refresh::refresh_copies))]
    pub(crate) fn count_write(&mut self)
        requires some { 0 < self.old.size }
        requires room { (after_write (registers self.old)).copies < 2 ^ 32 }
        ensures after { registers self.new ≡ after_write (registers self.old) }
    {
        if self.waits() {
            self.due += 1;
            return;
        }
        let copies = if self.exchange().is_some() { 2 } else { 0 };
        self.round = self.refreshed();
        self.due = 0;
        self.copies += copies;
    }
}

// The greatest power of two that is not above `count`, from 1 to 4,096.
pub(crate) fn size_for(count: u16) -> u16
    ensures value { result ≡ greatest_power count }
{
    1 << count.clamp(1, 4096).ilog2()
}

// The greatest number of writes that `left` writes below pay for, with all their copies.
#[tactic(auto, using(refresh::proofs::Lives::payable_room))]
pub(crate) fn life_for(left: u32, size: u16, interval: u16) -> u32
    requires some { 1 ≤ interval }
    ensures value { result ≡ life_of interval size left }
{
    let paid = left.saturating_sub((size / 2) as u32);
    let copies = (paid as u64 + 1) / (interval as u64 + 1);
    paid - copies as u32
}
