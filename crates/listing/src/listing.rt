//! A whole listing, by `Display`.

ghost use Rattle.std.specs.Prelude.{Some};
ghost use Rattle.listing.specs.Listings.{listing_text};

use crate::requests::requests;
use runfile::fault::Fault;
use runfile::slot::Slot;
use runner::totals::Totals;
use std::fmt;

/// What a run prints: one line for its fault; or one that says that no layer is fitted, one for each request and one for the totals.
// An enum and no `Result`: either is what is printed, and nobody handles one of them as an error.
#[derive(Clone, Copy)]
pub enum Listing<'a> {
    Faulty(Fault),
    Run { slots: &'a [Slot], totals: Totals },
}

impl<'a> fmt::Display for Listing<'a> {
    ghost output = { λ l. Some (listing_text l) };

    fn fmt<W: fmt::Write>(&self, f: &mut fmt::Formatter<W>) -> fmt::Result {
        match *self {
            Listing::Faulty(fault) => writeln!(f, "{fault}"),
            Listing::Run { slots, totals } => {
                writeln!(f, "no layer is fitted")?;
                requests(slots, f)?;
                writeln!(f, "{totals}")
            }
        }
    }
}
