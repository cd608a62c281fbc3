//! Bytes at a place of a file.

ghost use Rattle.std.specs.Prelude.{◌≡◌, ◌+◌, ◌≤◌, length, take, drop};

// The N bytes at a place.
pub(crate) fn bytes_at<const N: usize>(bytes: &[u8], at: usize) -> [u8; N]
    requires within { at + N ≤ length bytes.now }
    ensures value { result ≡ take N (drop at bytes.now) }
{
    let Some(chunk) = bytes[at..].first_chunk::<N>() else {
        unreachable();
    };
    *chunk
}
