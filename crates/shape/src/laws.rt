//! What each kind of shape fits, in plain logic: each function's contract is one law.

ghost use Rattle.shape.specs.Laws.{SymbolFits, AnyFits, ConcatOfOneFits, ConcatFits, ExactFits, ChainIsShort, AtleastFits, AtmostFits, InFits, PreciselyFits, NolessFits, NomoreFits, AndFits, OrFits, InorderFits};
ghost use Rattle.shape.specs.Listing.{OnlyListing};

/// A symbol fits one step that carries it, and nothing else.
pub fn symbol_fits()
    ensures { SymbolFits }
{}

/// `any` fits just where one of its parts does.
pub fn any_fits()
    ensures { AnyFits }
{}

/// `concat` of one part is that part.
pub fn concat_of_one_fits()
    ensures { ConcatOfOneFits }
{}

/// `concat` of more parts fits just where its first part fits up to some position, and the `concat` of the others from there, seen from there.
pub fn concat_fits()
    ensures { ConcatFits }
{}

/// `exact` fits just where there is a chain of so many occurrences, and none before or after it.
pub fn exact_fits()
    ensures { ExactFits }
{}

/// A chain of occurrences has no more of them than steps.
pub fn chain_is_short()
    ensures { ChainIsShort }
{}

/// `atleast` is `exact` with the same number or a larger one.
pub fn atleast_fits()
    ensures { AtleastFits }
{}

/// `atmost` is `exact` with the same number or a smaller one.
pub fn atmost_fits()
    ensures { AtmostFits }
{}

/// `in` fits just as many steps as it says, where its part holds of them.
pub fn in_fits()
    ensures { InFits }
{}

/// `precisely` holds just where its part fits so many stretches inside.
pub fn precisely_fits()
    ensures { PreciselyFits }
{}

/// `noless` holds just where its part fits so many stretches inside, or more.
pub fn noless_fits()
    ensures { NolessFits }
{}

/// `nomore` holds just where its part fits so many stretches inside, or fewer.
pub fn nomore_fits()
    ensures { NomoreFits }
{}

/// `and` holds just where all of its parts do.
pub fn and_fits()
    ensures { AndFits }
{}

/// `or` holds just where one of its parts does.
pub fn or_fits()
    ensures { OrFits }
{}

/// `inorder` holds just where its parts fit stretches one after another inside.
pub fn inorder_fits()
    ensures { InorderFits }
{}

/// The listing is the only list that has all fitted stretches of the line that are not null, each once, by start and then by end.
pub fn only_listing()
    ensures { OnlyListing }
{}
