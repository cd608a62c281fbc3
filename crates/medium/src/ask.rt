//! Puts calls to a medium.

ghost use Rattle.std.specs.Prelude.{◌≡◌, [], ◌∷◌};
ghost use Rattle.medium.specs.Chain.{InTurn};
ghost use Rattle.medium.specs.Law.{Ran};
ghost use Rattle.medium.specs.Meaning.{means};

use crate::call::Call;
use crate::medium::Medium;
use line::answer::{Accepted, Answer};

/// Puts one call to a medium: a read answers the line, a write its toll, and each is denied as the trait says.
pub fn ask<M: Medium>(medium: &mut M, call: Call<M::Line>) -> Answer<M::Line>
    ensures memory { M.Medium.memory medium.new ≡ M.Medium.memory medium.old }
    ensures turn { InTurn M.Medium medium.old (call ∷ []) (result ∷ []) medium.new }
    ensures ran { Ran (M.Medium.pile medium.old) (means M.Medium medium.old) (M.Medium.wear medium.old) (call ∷ []) (result ∷ []) (M.Medium.pile medium.new) (means M.Medium medium.new) (M.Medium.wear medium.new) }
{
    match call {
        Call::Read(line) => Ok(Accepted::Line((*medium).read(line)?)),
        Call::Write(line, value) => Ok(Accepted::Toll((*medium).write(line, value)?)),
    }
}
