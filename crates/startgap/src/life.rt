//! The life of a layer of gap regions, computed.

ghost use Rattle.std.specs.Prelude.{◌≡◌, ◌<◌};
ghost use Rattle.startgap.specs.Life.{GreatestLife, life_of};

/// How many writes a layer whose regions move after each `interval` writes takes, where `left` writes are left below it: the greatest
/// number that is paid for with the copies that follow. It is 0 at the interval 0, which no layer has.
pub fn life(left: u32, interval: u16) -> u32
    ensures answer { result ≡ life_of left interval }
    ensures greatest { 0 < interval → GreatestLife left interval result }
{
    let interval = interval as u32;
    let whole = left / (interval + 1);
    let rest = left % (interval + 1);
    whole * interval + rest.min(interval.saturating_sub(1))
}
