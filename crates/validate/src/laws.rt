// What follows from the contracts, in the words of the rules.
ghost use Rattle.validate.specs.Laws.{RequiredTold, SchemaTold};

// law: the schema rules say yes exactly if none is broken, and else tell the lowest that is, and its lowest path.
pub fn schema_told()
    ensures { SchemaTold }
{}

// law: required values say yes exactly if each is met, and else tell the lowest path that is not.
pub fn required_told()
    ensures { RequiredTold }
{}
