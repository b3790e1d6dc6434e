// Places on the page.
ghost use Rattle.std.specs.Prelude.{◌≡◌};

use crate::Point;

impl<T> Point<T> {
    // x and y exchanged.
    pub fn transpose(self) -> Point<T>
        ensures { result ≡ record { x = self.y; y = self.x } }
    {
        Point {
            x: self.y,
            y: self.x,
        }
    }
}

impl Point<f32> {
    // The origin.
    pub const ZERO: Point<f32> = Point { x: 0.0, y: 0.0 };
}
