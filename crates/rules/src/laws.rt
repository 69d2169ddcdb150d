//! What the rules of tidying ask for, by examples, and why each of them is sound: each function's contract is one law.

ghost use Rattle.rules.specs.Examples.{AsTheRowsSay};
ghost use Rattle.rules.specs.Laws.{PartByPart, EqualFitAlike, Unnesting, Doubles, SinglePart, DeadSequence, NeighbourGoes, NeighboursDead, Alternatives, NestedDead, NestedGoes};

/// The table's queries to which a rule applies, and those to which none does.
pub fn examples_are_as_the_rows_say()
    ensures { AsTheRowsSay }
{}

/// What a part fits is all that a whole sees of it.
pub fn part_by_part()
    ensures { PartByPart }
{}

/// Equal queries fit the same stretches.
pub fn equal_fit_alike()
    ensures { EqualFitAlike }
{}

/// Unnesting: a whole in a whole of its own kind gives way to its parts.
pub fn unnesting_is_sound()
    ensures { Unnesting }
{}

/// Doubles: a part equal to an earlier one goes.
pub fn doubles_are_sound()
    ensures { Doubles }
{}

/// Single part: a whole of one part becomes it.
pub fn single_part_is_sound()
    ensures { SinglePart }
{}

/// Dead sequence: a sequence with a part that fits nothing fits nothing.
pub fn dead_sequence_is_sound()
    ensures { DeadSequence }
{}

/// Neighbours: behind a repeat, another of the same part goes if it may be null.
pub fn neighbour_goes_is_sound()
    ensures { NeighbourGoes }
{}

/// Neighbours: behind a repeat, another of the same part that may not be null fits nothing.
pub fn neighbours_dead_is_sound()
    ensures { NeighboursDead }
{}

/// Alternatives: two repeats of one part become one that has the numbers of both.
pub fn alternatives_are_sound()
    ensures { Alternatives }
{}

/// Nested repeats: two or more repeats one after another fit nothing.
pub fn nested_dead_is_sound()
    ensures { NestedDead }
{}

/// Nested repeats: one repeat of a repeat is that repeat, where no window is inside.
pub fn nested_goes_is_sound()
    ensures { NestedGoes }
{}
