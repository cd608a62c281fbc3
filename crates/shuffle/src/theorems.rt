//! What is proved of the definitions themselves: known cases by their numbers, and the law of every Feistel network.

ghost use Rattle.std.specs.Prelude.{◌≡◌, [], ◌∷◌};
ghost use Rattle.shuffle.specs.Marked.{MarkedShuffle};
ghost use Rattle.shuffle.specs.Network.{NetworkUndoes};

use crate::feistel::Feistel;
use crate::shuffle::Shuffle;

/// The marked cases: where the Feistel shuffle of half-width 2 with the keys 1, 2 and 3 takes the numbers 0, 6 and 15.
pub fn marked_cases() -> [u16; 3]
    ensures marked { MarkedShuffle }
    ensures answer { result ≡ 5 ∷ 9 ∷ 10 ∷ [] }
{
    let Ok(shuffle) = Feistel::new(2, [1, 2, 3]) else {
        unreachable()
    };
    [shuffle.forward(0), shuffle.forward(6), shuffle.forward(15)]
}

/// States that in every Feistel network back undoes forward, whatever its round functions, if their answers have the width of a half.
#[tactic(auto, using(crate::specs::Networks::network_undoes))]
pub fn any_round_functions()
    ensures undoes { NetworkUndoes }
{}
