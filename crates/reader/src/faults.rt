//! Faults at the trailer.

ghost use Rattle.std.specs.Prelude.{◌≡◌, ◌^◌, ◌<◌};
ghost use Rattle.runfile.specs.declared.fault.Stage.TheVariants.{Trailer as in_trailer};

use line::denial::Denial;
use runfile::fault::{Fault, Stage};

// The fault of a denial at a place of the trailer.
pub(crate) fn at_trailer(denial: Denial, place: usize) -> Fault
    requires fits { place < 2 ^ 32 }
    ensures fault { result ≡ record { denial = denial; place = place; stage = in_trailer } }
{
    Fault::new(denial, place as u32, Stage::Trailer)
}
