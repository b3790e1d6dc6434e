// Worked sides, proved to come out of the definitions.
ghost use Rattle.item_limits.specs.Worked.{SidesWorked};

// A size of 50 with a minimum of 80 and a maximum of 60 is 80; a ratio goes by the content box; of two maxima the ratio keeps the tighter.
pub fn sides_are_worked()
    ensures { SidesWorked }
{}
