// What a reader line by line makes of the `.names` lines that it accepts is what is made of them in the order of placing: laws alone.

#![tactic(auto)]

ghost use Rattle.placing_blif.specs.Lines.{BuiltAlike};

// The same nodes and names, whatever the inputs of the circuit before them.
pub fn built_alike()
    ensures { BuiltAlike }
{}
