// Worked examples of the definitions, proved by computation.
ghost use Rattle.messages.specs.Examples.{Worked};

pub fn worked_examples()
    ensures { Worked }
{}
