//! Carries out a succession of calls on any medium.

ghost use Rattle.std.specs.Prelude.{◌≡◌, min, length, take, drop};
ghost use Rattle.medium.specs.Chain.{InTurn};
ghost use Rattle.medium.specs.Law.{Law};
ghost use Rattle.medium.specs.Meaning.{means};

use line::answer::Answer;
use medium::ask::ask;
use medium::call::Call;
use medium::medium::Medium;

/// Carries out calls in their order, as far as there is room for their answers, and answers how many those were.
///
/// The calls are put to the medium one after the other, and each is answered as the trait says. Whatever the medium is, a pile of layers
/// in any order over any bottom or a plain medium, and whatever the calls are, the law holds.
pub fn carry_out<M: Medium>(
    pile: &mut M,
    calls: &[Call<M::Line>],
    answers: &mut [Answer<M::Line>],
) -> usize
    ensures count { result ≡ min (length calls.now) (length answers.old) }
    ensures rest { drop result answers.new ≡ drop result answers.old }
    ensures memory { M.Medium.memory pile.new ≡ M.Medium.memory pile.old }
    ensures turns { InTurn M.Medium pile.old (take result calls.now) (take result answers.new) pile.new }
    ensures law { Law (M.Medium.pile pile.old) (means M.Medium pile.old) (M.Medium.wear pile.old) (take result calls.now) (take result answers.new) (M.Medium.pile pile.new) (means M.Medium pile.new) (M.Medium.wear pile.new) }
{
    let n = calls.len().min(answers.len());
    // By an index: of slots written through `answers.iter_mut().zip(calls)` a proof knows nothing afterwards.
    for i in 0..n {
        answers[i] = ask(pile, calls[i]);
    }
    n
}
