//! A lent medium is a medium: layers are made over what they own, or over what is lent to them.

ghost use Rattle.std.specs.Prelude.{◌∷◌};

use crate::medium::Medium;
use line::denial::Denial;

impl<'b, M: Medium> Medium for &'b mut M {
    type Line = M::Line;

    ghost lines = { λ m. M.Medium.lines m.now };

    ghost taken = { λ m. M.Medium.taken m.now };

    ghost life = { λ m. M.Medium.life m.now };

    ghost wear = { λ m. M.Medium.wear m.now };

    ghost pile = { λ m. M.Medium.pile m.now };

    ghost memory = { λ m. m.ghost_name ∷ M.Medium.memory m.now };

    ghost effect = { λ m i v r n. M.Medium.effect m.now i v r n.now };

    fn count(&self) -> u16 {
        (**self).count()
    }

    fn life(&self) -> u32 {
        (**self).life()
    }

    fn taken(&self) -> u32 {
        (**self).taken()
    }

    fn wear(&self) -> u64 {
        (**self).wear()
    }

    fn read(&self, line: u16) -> Result<M::Line, Denial> {
        (**self).read(line)
    }

    fn write(&mut self, line: u16, value: M::Line) -> Result<u64, Denial> {
        (**self).write(line, value)
    }
}
