//! The word: an unsigned number of 64 bits, for running totals.

ghost use Rattle.std.specs.Prelude.{ℕ, ◌^◌, ◌<◌};
ghost use Rattle.line.specs.Words.{at64, bytes64};
ghost use Rattle.std.proofs.Common.{rules};

use crate::denial::Denial;
use crate::kind::{LineKind, bytes_in, put};

impl LineKind for u64 {
    ghost width = { 8 };

    ghost writing = { bytes64 };

    ghost reading = { λ bs. at64 bs 0 };

    ghost fits = { λ v. v < 2 ^ 64 };

    ghost wide = { Prim.search rules };

    ghost long = { Prim.search rules };

    ghost back = { Prim.search rules };

    fn width() -> usize {
        8
    }

    fn write_to(&self, buf: &mut [u8]) -> Result<(), Denial> {
        put(self.to_le_bytes(), buf)
    }

    fn read_from(buf: &[u8]) -> Result<u64, Denial> {
        let bytes: [u8; 8] = bytes_in(buf)?;
        Ok(u64::from_le_bytes(bytes))
    }
}
