// The model of the rules: what a host may expect of an engine, from the formatted configuration, the calls and their answers
// alone. No code of the engine is here; the definitions are in specs/.
#![tactic(auto)]

ghost use Rattle.model.specs.Laws.{SameDecides};

// law: two configurations are told to be the same exactly if they are.
pub fn configurations_compare() -> u8
    ensures { SameDecides }
{
    0
}
