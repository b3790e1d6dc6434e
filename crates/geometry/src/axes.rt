// The two axes, and what each of them has.
ghost use Rattle.std.specs.Prelude.{◌≡◌};
ghost use Rattle.geometry.specs.Shapes.{other_axis, along};

use crate::{AbsoluteAxis, InBothAbsAxis};

impl AbsoluteAxis {
    pub fn other_axis(self) -> AbsoluteAxis
        ensures { result ≡ other_axis self }
    {
        match self {
            AbsoluteAxis::Horizontal => AbsoluteAxis::Vertical,
            AbsoluteAxis::Vertical => AbsoluteAxis::Horizontal,
        }
    }
}

impl<T: Drop> InBothAbsAxis<T> {
    pub fn get(self, axis: AbsoluteAxis) -> T
        ensures { result ≡ along axis self }
    {
        match axis {
            AbsoluteAxis::Horizontal => self.horizontal,
            AbsoluteAxis::Vertical => self.vertical,
        }
    }
}
