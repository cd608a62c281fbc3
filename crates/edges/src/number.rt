//! What a call answers, as a number.

use line::denial::Denial;

/// The number of the denial, and 0 where the call was carried out, as the stored output has them.
pub(crate) fn number<T: Drop>(answer: &Result<T, Denial>) -> u8 {
    match answer {
        Ok(_) => 0,
        Err(denial) => denial.number(),
    }
}
