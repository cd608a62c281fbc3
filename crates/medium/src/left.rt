//! What is left of a medium's life.

ghost use Rattle.std.specs.Prelude.{◌≡◌};
ghost use Rattle.medium.specs.Law.{left};
ghost use Rattle.medium.specs.Meaning.{means};

use crate::medium::Medium;

/// How many writes a medium still accepts: its life minus what is taken.
pub fn left<M: Medium>(medium: &M) -> u32
    ensures left { result ≡ left (means M.Medium medium.now) }
{
    medium.life() - medium.taken()
}
