// Rectangles, the lines that their sides make, and sums of sides.
ghost use Rattle.std.specs.Prelude.{◌≡◌, ◌&&◌, is_some};
ghost use Rattle.geometry.specs.Shapes.{sides};
ghost use Rattle.geometry.specs.Holds.{union_of, SmallestAround};

use crate::{AbsoluteAxis, Line, Rect, Size};
use number::{f32_max, f32_min};
use std::ops::Add;

impl<T: Add<T> + Copy> Line<T> {
    pub fn sum(self) -> T::Output
        requires { T.Add.can_add self.start self.end }
        ensures { T.Add.add_gives self.start self.end result }
    {
        self.start + self.end
    }
}

impl<T> Line<Option<T>> {
    pub fn both_set(&self) -> bool
        ensures { result ≡ (is_some self.now.start && is_some self.now.end) }
    {
        self.start.is_some() && self.end.is_some()
    }
}

impl<T> Rect<T> {
    // The axes exchanged: left with top, and right with bottom.
    pub fn transpose(self) -> Rect<T>
        ensures { result ≡ record { left = self.top; right = self.bottom; top = self.left; bottom = self.right } }
    {
        Rect {
            left: self.top,
            right: self.bottom,
            top: self.left,
            bottom: self.right,
        }
    }
}

impl<T: Drop> Rect<T> {
    // The two sides along an axis.
    pub fn axis_components(self, axis: AbsoluteAxis) -> Line<T>
        ensures { result ≡ sides axis self }
    {
        match axis {
            AbsoluteAxis::Horizontal => Line {
                start: self.left,
                end: self.right,
            },
            AbsoluteAxis::Vertical => Line {
                start: self.top,
                end: self.bottom,
            },
        }
    }
}

// The two sides of an axis together, as of padding: not the extent of the rectangle.
impl<T: Add<T> + Copy> Rect<T> {
    pub fn grid_axis_sum(self, axis: AbsoluteAxis) -> T::Output
        requires { T.Add.can_add (sides axis self).start (sides axis self).end }
        ensures { T.Add.add_gives (sides axis self).start (sides axis self).end result }
    {
        match axis {
            AbsoluteAxis::Horizontal => self.left + self.right,
            AbsoluteAxis::Vertical => self.top + self.bottom,
        }
    }

    pub fn sum_axes(self) -> Size<T::Output>
        requires { T.Add.can_add self.left self.right × T.Add.can_add self.top self.bottom }
        ensures { T.Add.add_gives self.left self.right result.width × T.Add.add_gives self.top self.bottom result.height }
    {
        Size {
            width: self.grid_axis_sum(AbsoluteAxis::Horizontal),
            height: self.grid_axis_sum(AbsoluteAxis::Vertical),
        }
    }
}

impl Rect<f32> {
    pub const ZERO: Rect<f32> = Rect {
        left: 0.0,
        right: 0.0,
        top: 0.0,
        bottom: 0.0,
    };

    pub fn new(start: f32, end: f32, top: f32, bottom: f32) -> Rect<f32>
        ensures { result ≡ record { left = start; right = end; top = top; bottom = bottom } }
    {
        Rect {
            left: start,
            right: end,
            top,
            bottom,
        }
    }

    // The smallest rectangle that holds both.
    #[tactic(auto, using(crate::proofs::Unions::union_smallest))]
    pub fn union(self, other: Rect<f32>) -> Rect<f32>
        ensures edges { result ≡ union_of self other }
        ensures law { SmallestAround self other result }
    {
        Rect {
            left: f32_min(self.left, other.left),
            right: f32_max(self.right, other.right),
            top: f32_min(self.top, other.top),
            bottom: f32_max(self.bottom, other.bottom),
        }
    }
}
