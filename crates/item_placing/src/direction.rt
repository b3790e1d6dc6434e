// The way in which an axis runs.
ghost use Rattle.std.specs.Prelude.{◌≡◌};
ghost use Rattle.item_placing.specs.Blocks.{direction_of, flow_relative};

use crate::area_item::AreaItem;
use geometry::{AbsoluteAxis, Line};
use style::alignment::Direction;

// Left and right as the start and the end of a line that runs in this direction. The same exchange leads back.
pub(crate) fn flow_relative<T>(sides: Line<T>, direction: Direction) -> Line<T>
    ensures { result ≡ flow_relative direction sides }
{
    match direction {
        Direction::Ltr => sides,
        Direction::Rtl => Line {
            start: sides.end,
            end: sides.start,
        },
    }
}

impl AreaItem {
    // Vertically an axis always runs onward from the top.
    pub(crate) fn axis_direction(self) -> Direction
        ensures { result ≡ direction_of self }
    {
        match self.axis {
            AbsoluteAxis::Horizontal => self.direction,
            AbsoluteAxis::Vertical => Direction::Ltr,
        }
    }
}
