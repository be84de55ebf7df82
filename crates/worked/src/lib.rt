// The worked examples of the protocol, as one theorem over the definitions that the contracts of the terminal cite.
#![tactic(auto)]

ghost use Rattle.worked.specs.Examples.{Examples};

// Each line of the table of worked examples holds.
pub fn examples_hold()
    ensures { Examples }
{}
