// Worked examples.
ghost use Rattle.command.specs.Examples.{Examples};

// A table of whole commands and what is read of each holds, by computation.
pub fn examples_hold()
    ensures { Examples }
{}
