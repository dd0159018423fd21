// What follows from the contracts, in the subject's own words.
ghost use Rattle.std.specs.Prelude.{Result};
ghost use Rattle.edit.specs.Laws.{ItemsDecide, ListsReadBack, OptionsOf, StaysLawful};

// law: stop keeps the items before the first refused one, continue performs each that can be, rollback keeps none if any is
// refused, whatever one item does.
pub fn options_are<C, I, F>()
    ensures { (does : C → I → Result C F) → OptionsOf does }
{}

// law: an edit leaves a lawful configuration lawful, whatever its list, its option and its answer.
pub fn stays_lawful()
    ensures { StaysLawful }
{}

// law: two lists of items with one edit list are one.
pub fn items_decide()
    ensures { ItemsDecide }
{}

// law: reading the edit list of at most 16 items gives these items.
pub fn lists_read_back()
    ensures { ListsReadBack }
{}
