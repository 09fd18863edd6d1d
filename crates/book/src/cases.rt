// Calls worked by hand.
ghost use Rattle.book.specs.Cases.{Worked};

pub fn worked_cases()
    ensures { Worked }
{}
