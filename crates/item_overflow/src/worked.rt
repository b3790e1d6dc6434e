// Examples whose numbers were found by hand, proved to come out of the definitions.
ghost use Rattle.item_overflow.specs.Worked.{ContributionsHold};

// Every worked item adds the rectangle, and answers the baseline, that it is said to.
pub fn contributions_hold()
    ensures { ContributionsHold }
{}
