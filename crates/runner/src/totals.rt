//! What a run comes to in all.

ghost use Rattle.std.specs.Prelude.{Some};
ghost use Rattle.runner.specs.Texts.{totals_text};

use std::fmt;

/// The totals of a run: how many requests were carried out, the pile's taken, left and wear, and the copies of all its layers.
#[derive(Clone, Copy)]
pub struct Totals {
    pub requests: usize,
    pub taken: u32,
    pub left: u32,
    pub copies: u64,
    pub wear: u64,
}

/// Totals are shown by their names, without the number of requests.
impl fmt::Display for Totals {
    ghost output = { λ t. Some (totals_text t) };

    fn fmt<W: fmt::Write>(&self, f: &mut fmt::Formatter<W>) -> fmt::Result {
        let Totals {
            taken,
            left,
            copies,
            wear,
            ..
        } = *self;
        write!(f, "taken {taken} left {left} copies {copies} wear {wear}")
    }
}
