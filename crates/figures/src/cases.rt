// Cases worked by hand.
ghost use Rattle.figures.specs.Cases.{Worked};

// The definitions give the cases.
pub fn worked_cases()
    ensures { Worked }
{}
