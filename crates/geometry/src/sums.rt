// Sums and differences of shapes, side by side.
ghost use Rattle.std.specs.Prelude.{◌≡◌, Float};
ghost use Rattle.std.specs.Float.Ieee as Ieee;
ghost use Rattle.std.specs.Float.{binary32};
ghost use Rattle.geometry.specs.declared.Point.{Point};
ghost use Rattle.geometry.specs.declared.Rect.{Rect};
ghost use Rattle.geometry.specs.declared.Size.{Size};
ghost use Rattle.geometry.specs.Shapes.{zip_size, zip_rect};

use crate::{Point, Rect, Size};
use std::ops::{Add, Sub};

impl<T: Add> Add for Size<T> {
    type Output = Size<<T as Add>::Output>;

    ghost can_add = { λ a b. T.Add.can_add a.width b.width × T.Add.can_add a.height b.height };

    ghost add_gives = { λ a b sum. T.Add.add_gives a.width b.width sum.width × T.Add.add_gives a.height b.height sum.height };

    fn add(self, rhs: Size<T>) -> Size<<T as Add>::Output> {
        Size {
            width: self.width + rhs.width,
            height: self.height + rhs.height,
        }
    }
}

impl<T: Sub> Sub for Size<T> {
    type Output = Size<<T as Sub>::Output>;

    ghost can_sub = { λ a b. T.Sub.can_sub a.width b.width × T.Sub.can_sub a.height b.height };

    ghost sub_gives = { λ a b rest. T.Sub.sub_gives a.width b.width rest.width × T.Sub.sub_gives a.height b.height rest.height };

    fn sub(self, rhs: Size<T>) -> Size<<T as Sub>::Output> {
        Size {
            width: self.width - rhs.width,
            height: self.height - rhs.height,
        }
    }
}

// The place at `offset` from this one.
impl<T: Add> Add for Point<T> {
    type Output = Point<<T as Add>::Output>;

    ghost can_add = { λ place offset. T.Add.can_add place.x offset.x × T.Add.can_add place.y offset.y };

    ghost add_gives = { λ place offset moved. T.Add.add_gives place.x offset.x moved.x × T.Add.add_gives place.y offset.y moved.y };

    fn add(self, offset: Point<T>) -> Point<<T as Add>::Output> {
        Point {
            x: self.x + offset.x,
            y: self.y + offset.y,
        }
    }
}

impl<T: Add> Add for Rect<T> {
    type Output = Rect<<T as Add>::Output>;

    ghost can_add = { λ a b. T.Add.can_add a.left b.left × T.Add.can_add a.right b.right × T.Add.can_add a.top b.top × T.Add.can_add a.bottom b.bottom };

    ghost add_gives = { λ a b sum. T.Add.add_gives a.left b.left sum.left × T.Add.add_gives a.right b.right sum.right × T.Add.add_gives a.top b.top sum.top × T.Add.add_gives a.bottom b.bottom sum.bottom };

    fn add(self, rhs: Rect<T>) -> Rect<<T as Add>::Output> {
        Rect {
            left: self.left + rhs.left,
            right: self.right + rhs.right,
            top: self.top + rhs.top,
            bottom: self.bottom + rhs.bottom,
        }
    }
}

// Of numbers there is always a sum, each side rounded by itself.
pub fn sums_hold()
    ensures can_add_sizes { (self rhs : Size Float) → ⟦<Size<f32> as Add>⟧.can_add self rhs }
    ensures can_sub_sizes { (self rhs : Size Float) → ⟦<Size<f32> as Sub>⟧.can_sub self rhs }
    ensures can_add_points { (self offset : Point Float) → ⟦<Point<f32> as Add>⟧.can_add self offset }
    ensures can_add_rects { (self rhs : Rect Float) → ⟦<Rect<f32> as Add>⟧.can_add self rhs }
    ensures sizes { (self rhs result : Size Float) → ⟦<Size<f32> as Add>⟧.add_gives self rhs result → result ≡ zip_size (Ieee.add binary32) self rhs }
    ensures rests { (self rhs result : Size Float) → ⟦<Size<f32> as Sub>⟧.sub_gives self rhs result → result ≡ zip_size (Ieee.sub binary32) self rhs }
    ensures points { (self offset result : Point Float) → ⟦<Point<f32> as Add>⟧.add_gives self offset result → result ≡ record { x = Ieee.add binary32 self.x offset.x; y = Ieee.add binary32 self.y offset.y } }
    ensures rects { (self rhs result : Rect Float) → ⟦<Rect<f32> as Add>⟧.add_gives self rhs result → result ≡ zip_rect (Ieee.add binary32) self rhs }
{}
