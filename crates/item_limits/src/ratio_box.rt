// Boxes whose sides stand in a preferred aspect ratio, and the limits that one side transfers to the other, per CSS Sizing 4.
ghost use Rattle.std.specs.Prelude.{◌≡◌};
ghost use Rattle.item_limits.specs.RatioBoxes.{box_of_width, box_of_height, limited_box};
ghost use Rattle.item_limits.specs.LimitLaws.{Held};

use crate::limits::{Limits, SideLength};
use geometry::Size;

// The width over the height, in the box that `box-sizing` names, and the limits of the two sides.
#[derive(Clone, Copy)]
pub struct AspectRatio {
    pub ratio: f32,
    pub limits: Size<Limits>,
}

impl AspectRatio {
    // The box of this width. One function for both axes would be a `match` on the axis with these two bodies: limits and operator differ too.
    pub fn box_of_width(self, width: SideLength) -> Size<SideLength>
        ensures { result ≡ box_of_width self width }
    {
        Size {
            width,
            height: self.limits.height.named_length(width.named / self.ratio),
        }
    }

    // The box of this height.
    pub fn box_of_height(self, height: SideLength) -> Size<SideLength>
        ensures { result ≡ box_of_height self height }
    {
        Size {
            width: self.limits.width.named_length(height.named * self.ratio),
            height,
        }
    }

    // A box of which neither side is definite, bounded side by side by the boxes of its limits.
    // The limits of the height first, those of the width last. A minimum height counts if the style has one.
    pub fn limited(self, natural: Size<SideLength>) -> Size<SideLength>
        ensures sides { result ≡ limited_box self natural }
        ensures law { Held self.limits.width result.width.border }
    {
        let Size { width, height } = self.limits;
        let low = height.max.map_or(natural, |max| {
            natural.zip_map(self.box_of_height(max), SideLength::at_most)
        });
        let high = height.min.map_or(low, |min| {
            low.zip_map(self.box_of_height(min), SideLength::at_least)
        });
        let narrow = width.max.map_or(high, |max| {
            high.zip_map(self.box_of_width(max), SideLength::at_most)
        });
        narrow.zip_map(self.box_of_width(width.least()), SideLength::at_least)
    }
}
