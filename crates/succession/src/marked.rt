//! The marked cases of all parts, as one list.

ghost use Rattle.std.specs.Prelude.{◌≡◌, [], ◌∷◌};
ghost use Rattle.refresh.specs.Theorems.{MarkedRefresh};
ghost use Rattle.shuffle.specs.Marked.{MarkedShuffle};
ghost use Rattle.startgap.specs.Theorems.{MarkedGaps};

/// The marked cases: places of the Feistel shuffle, of gap regions and of a refresh round, the copies of refreshes, and lives; all of the
/// definitions that the contracts cite. Answers the three places of the shuffle, and the two lives of gap regions, as the code has them.
pub fn marked_cases() -> ([u16; 3], [u32; 2])
    ensures marked { MarkedShuffle × MarkedGaps × MarkedRefresh }
    ensures answer { (result.0 ≡ 5 ∷ 9 ∷ 10 ∷ []) × (result.1 ≡ 13 ∷ 3 ∷ []) }
{
    refresh::theorems::marked_refresh();
    (
        shuffle::theorems::marked_cases(),
        startgap::theorems::marked_cases(),
    )
}
