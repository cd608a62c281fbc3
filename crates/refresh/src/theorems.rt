//! What is proved of the registers and the mapping.

ghost use Rattle.refresh.specs.Theorems.{PlacesAndHolders, MappingInFull, RefreshesExchange, RegistersOverWrites, CopiesCounted, LifeSuffices, GreatestPowers, MarkedRefresh};

/// States that in every sound round lines and places correspond one to one below the count of lines, and that no line lies above.
pub fn places_and_holders()
    ensures laws { PlacesAndHolders }
{}

/// States the mapping in full: a line is placed by the current key once it or its mate is below the pointer, and by the previous key before that.
pub fn mapping_in_full()
    ensures mapping { MappingInFull }
{}

/// States what one refresh does: the line at the pointer and its mate change places where the mate is above, and nothing else moves.
pub fn one_refresh()
    ensures refresh { RefreshesExchange }
{}

/// States what accepted writes do to the registers: they stay sound, and each interval's worth of writes brings one refresh.
pub fn registers_over_writes()
    ensures registers { RegistersOverWrites }
{}

/// States how many copies are made: a whole round's worth where the keys differ, and never more than the refreshes and half the lines.
pub fn copies_counted()
    ensures copies { CopiesCounted }
{}

/// States that the computed life is the greatest that is paid, and that it pays for every copy.
pub fn life_suffices()
    ensures life { LifeSuffices }
{}

/// States that the computed count of lines is the greatest power of two that is not above a medium's count.
pub fn greatest_powers()
    ensures powers { GreatestPowers }
{}

/// States the marked cases, of 8 lines and the keys 4 and 6.
pub fn marked_refresh()
    ensures marked { MarkedRefresh }
{}
