//! Numbers out of words: each in the range of its type.

ghost use Rattle.std.specs.Prelude.{◌≡◌, ◌≤◌, IfOk};
ghost use Rattle.compose.specs.Numerals.{number, integer};

use crate::fields::Field;
use crate::refusal::Wrong;

// One impl for each width: one for all of them would take in `i32` too.
impl Field for u8 {
    ghost spelled = { number 255 };

    fn read(word: &[u8]) -> Result<u8, Wrong> {
        Ok(read_number(word, u32::from(u8::MAX))? as u8)
    }
}

impl Field for u16 {
    ghost spelled = { number 65535 };

    fn read(word: &[u8]) -> Result<u16, Wrong> {
        Ok(read_number(word, u32::from(u16::MAX))? as u16)
    }
}

impl Field for u32 {
    ghost spelled = { number 4294967295 };

    fn read(word: &[u8]) -> Result<u32, Wrong> {
        read_number(word, u32::MAX)
    }
}

/// Digits, with a minus sign before them where the number is negative.
impl Field for i32 {
    ghost spelled = { integer };

    fn read(word: &[u8]) -> Result<i32, Wrong> {
        if let Some(digits) = word.strip_prefix(b"-") {
            let amount = read_number(digits, i32::MIN.unsigned_abs())?;
            return Ok((-i64::from(amount)) as i32);
        }
        Ok(read_number(word, i32::MAX as u32)? as i32)
    }
}

// The number up to `greatest` that the digits of a word spell. Refused at the first byte that is no digit, or at which the number becomes
// too great; a word without bytes is no number.
fn read_number(word: &[u8], greatest: u32) -> Result<u32, Wrong>
    ensures answer { result ≡ number greatest word.now }
    ensures bound { IfOk result (λ n. n ≤ greatest) }
{
    if word.is_empty() {
        return Err(Wrong::NotANumber);
    }
    let mut number: u32 = 0;
    for byte in word {
        if !byte.is_ascii_digit() {
            return Err(Wrong::NotANumber);
        }
        // In 64 bits, since no checked sum knows `greatest`.
        let longer = u64::from(number) * 10 + u64::from(*byte - b'0');
        if longer > u64::from(greatest) {
            return Err(Wrong::OutOfRange);
        }
        number = longer as u32;
    }
    Ok(number)
}
