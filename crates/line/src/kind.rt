//! A line's kind: how wide its lines are, and how a value is written into bytes and read from them.

ghost use Rattle.std.specs.Prelude.{◌≡◌, ℕ, ◌^◌, ◌<◌, ◌≤◌, List, length, if◌then◌else◌, Ok, Err, nat_eq};
ghost use Rattle.line.specs.declared.denial.Denial.TheVariants.{WrongLength};

use crate::denial::Denial;

/// A line kind. Its law: a value that is written and then read comes back equal.
pub trait LineKind: Copy {
    // how many bytes a line has
    ghost width: { ℕ };
    // the bytes that a value is written as
    ghost writing: { Self → List ℕ };
    // the value that such bytes are read as
    ghost reading: { List ℕ → Self };
    // what is true of every value that a program holds: `write_to` ensures it of any
    ghost fits: { Self → Type 0 };

    /// How many bytes a line of this kind has, from 1 to 64.
    fn width() -> usize
        ensures { result ≡ width };

    /// Writes the value into `buf`. A buffer of another length than the width is denied with 5, and left as it was.
    fn write_to(&self, buf: &mut [u8]) -> Result<(), Denial>
        ensures fit { fits self.now }
        ensures answer { result ≡ (if nat_eq (length buf.old) width then Ok tt else Err WrongLength) }
        ensures after { buf.new ≡ (if nat_eq (length buf.old) width then writing self.now else buf.old) };

    /// Reads a value from `buf`. A buffer of another length than the width is denied with 5.
    fn read_from(buf: &[u8]) -> Result<Self, Denial>
        ensures answer { result ≡ (if nat_eq (length buf.now) width then Ok (reading buf.now) else Err WrongLength) };

    ghost wide: { (1 ≤ width) × (width ≤ 64) };

    ghost long: { (v : Self) → length (writing v) ≡ width };

    ghost back: { (v : Self) → fits v → reading (writing v) ≡ v };
}

// Copies the bytes of a value into `buf`. A buffer of another length is denied with 5, and left as it was.
pub(crate) fn put<const N: usize>(bytes: [u8; N], buf: &mut [u8]) -> Result<(), Denial>
    ensures answer { result ≡ (if nat_eq (length buf.old) N then Ok tt else Err WrongLength) }
    ensures after { buf.new ≡ (if nat_eq (length buf.old) N then bytes.entry else buf.old) }
{
    // no `<&mut [u8; N]>::try_from(buf)`: of what is written through its answer the proof is not found
    if buf.len() != N {
        return Err(Denial::WrongLength);
    }
    buf.copy_from_slice(&bytes);
    Ok(())
}

// The bytes of a value that stand in `buf`. A buffer of another length is denied with 5.
pub(crate) fn bytes_in<const N: usize>(buf: &[u8]) -> Result<[u8; N], Denial>
    ensures answer { result ≡ (if nat_eq (length buf.now) N then Ok buf.now else Err WrongLength) }
{
    <[u8; N]>::try_from(buf).map_err(|_| Denial::WrongLength)
}

/// Writes a value and reads it back: the law of line kinds, as a call. Denied with 5 as writing is.
pub fn write_then_read<K: LineKind>(value: K, buf: &mut [u8]) -> Result<K, Denial>
    ensures answer { result ≡ (if nat_eq (length buf.old) K.LineKind.width then Ok value else Err WrongLength) }
    ensures after { buf.new ≡ (if nat_eq (length buf.old) K.LineKind.width then K.LineKind.writing value else buf.old) }
{
    value.write_to(buf)?;
    K::read_from(buf)
}
