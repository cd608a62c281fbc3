//! The lines of the requests.

ghost use Rattle.std.specs.Fmt.{WritesOnOk};
ghost use Rattle.listing.specs.Listings.{slots_text};

use runfile::slot::Slot;
use std::fmt;

// One line for each slot, in order.
pub(crate) fn requests<W: fmt::Write>(slots: &[Slot], f: &mut fmt::Formatter<W>) -> fmt::Result
    ensures { WritesOnOk W.Write.write_str_gives f.old result (slots_text slots.now) f.new }
{
    for slot in slots {
        writeln!(f, "{slot}")?;
    }
    Ok(())
}
