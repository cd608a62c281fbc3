//! How many bits a number of a shuffle has.

ghost use Rattle.std.specs.Prelude.{◌≡◌, ◌^◌, ◌≤◌, MatchResult};
ghost use Rattle.line.specs.declared.denial.Denial.TheVariants.{SettingsOutOfRange};

use line::denial::Denial;

// A number of bits from 1 to `MOST`, which is at most 12.
#[derive(Clone, Copy)]
pub(crate) struct Width<const MOST: u8> {
    pub(crate) bits: u8,
    ghost some: { 1 ≤ bits },
    ghost few: { bits ≤ MOST },
    ghost short: { bits ≤ 12 },
}

impl<const MOST: u8> Width<MOST> {
    // So many bits. A number of them out of range is denied with 6.
    pub(crate) fn new(bits: u8) -> Result<Width<MOST>, Denial>
        requires { MOST ≤ 12 }
        ensures { MatchResult result (λ w. (w.bits ≡ bits) × (1 ≤ bits) × (bits ≤ MOST)) (λ e. (e ≡ SettingsOutOfRange) × ((1 ≤ bits) × (bits ≤ MOST) → ⊥)) }
    {
        if !(1..=MOST).contains(&bits) {
            return Err(Denial::SettingsOutOfRange);
        }
        Ok(Width { bits })
    }

    // How many numbers have so many bits.
    pub(crate) fn size(&self) -> u16
        ensures { result ≡ 2 ^ self.now.bits }
    {
        1 << self.bits
    }
}
