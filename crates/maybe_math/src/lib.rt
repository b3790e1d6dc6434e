// Limits and sums of numbers that may be missing.
#![tactic(auto)]

ghost use Rattle.std.specs.Prelude.{◌≡◌, Some};
ghost use Rattle.std.specs.Option.{unwrap_or};
ghost use Rattle.geometry.specs.Shapes.{zip_size, zip_three_sizes};
ghost use Rattle.maybe_math.specs.MaybeMath.{maybe_min, maybe_max, maybe_clamp, maybe_add, maybe_sub};

use geometry::Size;
use number::{f32_max, f32_min};

// Where `self` is missing, so is the result; where the other is missing, `self` stays.
pub trait MaybeMath<In, Out>: Sized {
    ghost minimum: { Self → In → Out };

    ghost maximum: { Self → In → Out };

    ghost clamped: { Self → In → In → Out };

    ghost sum: { Self → In → Out };

    ghost difference: { Self → In → Out };

    fn maybe_min(self, rhs: In) -> Out
        ensures { result ≡ minimum self rhs };

    fn maybe_max(self, rhs: In) -> Out
        ensures { result ≡ maximum self rhs };

    // At most `max`, and then at least `min`.
    fn maybe_clamp(self, min: In, max: In) -> Out
        ensures { result ≡ clamped self min max };

    fn maybe_add(self, rhs: In) -> Out
        ensures { result ≡ sum self rhs };

    fn maybe_sub(self, rhs: In) -> Out
        ensures { result ≡ difference self rhs };
}

impl MaybeMath<Option<f32>, Option<f32>> for Option<f32> {
    ghost minimum = { maybe_min };

    ghost maximum = { maybe_max };

    ghost clamped = { maybe_clamp };

    ghost sum = { maybe_add };

    ghost difference = { maybe_sub };

    fn maybe_min(self, rhs: Option<f32>) -> Option<f32> {
        self.map(|val| val.maybe_min(rhs))
    }

    fn maybe_max(self, rhs: Option<f32>) -> Option<f32> {
        self.map(|val| val.maybe_max(rhs))
    }

    fn maybe_clamp(self, min: Option<f32>, max: Option<f32>) -> Option<f32> {
        self.map(|val| val.maybe_clamp(min, max))
    }

    fn maybe_add(self, rhs: Option<f32>) -> Option<f32> {
        self.map(|val| val.maybe_add(rhs))
    }

    fn maybe_sub(self, rhs: Option<f32>) -> Option<f32> {
        self.map(|val| val.maybe_sub(rhs))
    }
}

impl MaybeMath<f32, Option<f32>> for Option<f32> {
    ghost minimum = { λ o y. maybe_min o (Some y) };

    ghost maximum = { λ o y. maybe_max o (Some y) };

    ghost clamped = { λ o lower upper. maybe_clamp o (Some lower) (Some upper) };

    ghost sum = { λ o y. maybe_add o (Some y) };

    ghost difference = { λ o y. maybe_sub o (Some y) };

    fn maybe_min(self, rhs: f32) -> Option<f32> {
        self.maybe_min(Some(rhs))
    }

    fn maybe_max(self, rhs: f32) -> Option<f32> {
        self.maybe_max(Some(rhs))
    }

    fn maybe_clamp(self, min: f32, max: f32) -> Option<f32> {
        self.maybe_clamp(Some(min), Some(max))
    }

    fn maybe_add(self, rhs: f32) -> Option<f32> {
        self.maybe_add(Some(rhs))
    }

    fn maybe_sub(self, rhs: f32) -> Option<f32> {
        self.maybe_sub(Some(rhs))
    }
}

// The result is there, since `self` is.
impl MaybeMath<Option<f32>, f32> for f32 {
    ghost minimum = { λ x o. unwrap_or (maybe_min (Some x) o) x };

    ghost maximum = { λ x o. unwrap_or (maybe_max (Some x) o) x };

    ghost clamped = { λ x lower upper. unwrap_or (maybe_clamp (Some x) lower upper) x };

    ghost sum = { λ x o. unwrap_or (maybe_add (Some x) o) x };

    ghost difference = { λ x o. unwrap_or (maybe_sub (Some x) o) x };

    fn maybe_min(self, rhs: Option<f32>) -> f32 {
        rhs.map_or(self, |val| f32_min(self, val))
    }

    fn maybe_max(self, rhs: Option<f32>) -> f32 {
        rhs.map_or(self, |val| f32_max(self, val))
    }

    fn maybe_clamp(self, min: Option<f32>, max: Option<f32>) -> f32 {
        self.maybe_min(max).maybe_max(min)
    }

    fn maybe_add(self, rhs: Option<f32>) -> f32 {
        rhs.map_or(self, |val| self + val)
    }

    fn maybe_sub(self, rhs: Option<f32>) -> f32 {
        rhs.map_or(self, |val| self - val)
    }
}

// Width by width, and height by height.
impl<In, Out, T: MaybeMath<In, Out>> MaybeMath<Size<In>, Size<Out>> for Size<T> {
    ghost minimum = { zip_size T.MaybeMath.minimum };

    ghost maximum = { zip_size T.MaybeMath.maximum };

    ghost clamped = { zip_three_sizes T.MaybeMath.clamped };

    ghost sum = { zip_size T.MaybeMath.sum };

    ghost difference = { zip_size T.MaybeMath.difference };

    fn maybe_min(self, rhs: Size<In>) -> Size<Out> {
        self.zip_map(rhs, |x, y| x.maybe_min(y))
    }

    fn maybe_max(self, rhs: Size<In>) -> Size<Out> {
        self.zip_map(rhs, |x, y| x.maybe_max(y))
    }

    // By hand: with a pair of limits for each side, `zip_map` would take apart what it has just put together.
    fn maybe_clamp(self, min: Size<In>, max: Size<In>) -> Size<Out> {
        Size {
            width: self.width.maybe_clamp(min.width, max.width),
            height: self.height.maybe_clamp(min.height, max.height),
        }
    }

    fn maybe_add(self, rhs: Size<In>) -> Size<Out> {
        self.zip_map(rhs, |x, y| x.maybe_add(y))
    }

    fn maybe_sub(self, rhs: Size<In>) -> Size<Out> {
        self.zip_map(rhs, |x, y| x.maybe_sub(y))
    }
}
