// The worked places come out of the definitions.
ghost use Rattle.item_placing.specs.Worked.{Worked};

pub fn places_hold()
    ensures { Worked }
{}
