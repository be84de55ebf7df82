// Worked examples, as one theorem.
ghost use Rattle.value.specs.Examples.{Examples};

// Each line of the table of worked examples holds.
pub fn examples_hold()
    ensures { Examples }
{}
