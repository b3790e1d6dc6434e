// Widths and heights.
ghost use Rattle.std.specs.Prelude.{◌≡◌, ◌&&◌, is_some, Some};
ghost use Rattle.std.specs.Float as Floats;
ghost use Rattle.std.specs.Option.{unwrap_or, option_or};
ghost use Rattle.geometry.specs.Shapes.{extent, zip_size, has_area, with_aspect_ratio};

use crate::{AbsoluteAxis, Size};
use number::{f32_max, f32_min};

impl<T> Size<T> {
    // The width and the height exchanged.
    pub fn transpose(self) -> Size<T>
        ensures { result ≡ record { width = self.height; height = self.width } }
    {
        Size {
            width: self.height,
            height: self.width,
        }
    }

    // `f` of the width, and of the height.
    pub fn map<U, F: Fn(T) -> U>(self, f: F) -> Size<U>
        requires { F.pre f self.width × F.pre f self.height }
        ensures { F.post f self.width result.width × F.post f self.height result.height }
    {
        Size {
            width: f(self.width),
            height: f(self.height),
        }
    }

    // `f` of the two widths, and of the two heights.
    pub fn zip_map<U, V, F: Fn(T, U) -> V>(self, other: Size<U>, f: F) -> Size<V>
        requires { F.pre f self.width other.width × F.pre f self.height other.height }
        ensures { F.post f self.width other.width result.width × F.post f self.height other.height result.height }
    {
        Size {
            width: f(self.width, other.width),
            height: f(self.height, other.height),
        }
    }
}

impl<T: Drop> Size<T> {
    // The extent along an axis.
    pub fn get_abs(self, axis: AbsoluteAxis) -> T
        ensures { result ≡ extent axis self }
    {
        match axis {
            AbsoluteAxis::Horizontal => self.width,
            AbsoluteAxis::Vertical => self.height,
        }
    }
}

impl<T: Drop> Size<Option<T>> {
    // What is missing is taken from `alt`.
    pub fn unwrap_or(self, alt: Size<T>) -> Size<T>
        ensures { result ≡ zip_size unwrap_or self alt }
    {
        self.zip_map(alt, Option::unwrap_or)
    }

    // What is missing is taken from `alt`, where it may be missing too.
    pub fn or(self, alt: Size<Option<T>>) -> Size<Option<T>>
        ensures { result ≡ zip_size option_or self alt }
    {
        self.zip_map(alt, Option::or)
    }

    pub fn both_axis_defined(&self) -> bool
        ensures { result ≡ (is_some self.now.width && is_some self.now.height) }
    {
        self.width.is_some() && self.height.is_some()
    }
}

impl Size<f32> {
    pub const ZERO: Size<f32> = Size {
        width: 0.0,
        height: 0.0,
    };

    pub fn f32_max(self, rhs: Size<f32>) -> Size<f32>
        ensures { result ≡ zip_size Floats.float_max self rhs }
    {
        self.zip_map(rhs, f32_max)
    }

    pub fn f32_min(self, rhs: Size<f32>) -> Size<f32>
        ensures { result ≡ zip_size Floats.float_min self rhs }
    {
        self.zip_map(rhs, f32_min)
    }

    // Both above zero.
    pub fn has_non_zero_area(self) -> bool
        ensures { result ≡ has_area self }
    {
        self.width > 0.0 && self.height > 0.0
    }
}

impl Size<Option<f32>> {
    pub const NONE: Size<Option<f32>> = Size {
        width: None,
        height: None,
    };

    pub fn new(width: f32, height: f32) -> Size<Option<f32>>
        ensures { result ≡ record { width = Some width; height = Some height } }
    {
        Size {
            width: Some(width),
            height: Some(height),
        }
    }

    // A missing side by the ratio of width to height, where there is a ratio and the other side.
    pub fn maybe_apply_aspect_ratio(self, aspect_ratio: Option<f32>) -> Size<Option<f32>>
        ensures { result ≡ with_aspect_ratio aspect_ratio self }
    {
        match (aspect_ratio, self.width, self.height) {
            (Some(ratio), Some(width), None) => Size {
                width: self.width,
                height: Some(width / ratio),
            },
            (Some(ratio), None, Some(height)) => Size {
                width: Some(height * ratio),
                height: self.height,
            },
            _ => self,
        }
    }
}
