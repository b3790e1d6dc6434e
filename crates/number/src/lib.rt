// Numbers as `f32`: the limits, a zero without its sign, the larger and the smaller of two, and the laws that all else rests on.
#![tactic(auto)]

pub mod laws;

ghost use Rattle.std.specs.Prelude.{◌≡◌};
ghost use Rattle.std.specs.Float.{float_max, float_min};
ghost use Rattle.number.specs.Limits.{within, in_limits};
ghost use Rattle.number.specs.Zeros.{without_zero_sign};

// The most that a number of a page may be in magnitude, 2 ^ 20.
pub const LIMIT: f32 = 1048576.0;

// At most `bound` in magnitude. No NaN is.
pub fn is_within(x: f32, bound: f32) -> bool
    ensures { result ≡ within bound x }
{
    x <= bound && -bound <= x
}

// Finite, and at most 1,048,576 in magnitude.
pub fn in_limits(x: f32) -> bool
    ensures { result ≡ in_limits x }
{
    is_within(x, LIMIT)
}

// The number itself, but for a negative zero, which becomes the positive one.
pub fn without_zero_sign(x: f32) -> f32
    ensures { result ≡ without_zero_sign x }
{
    if x == 0.0 { 0.0 } else { x }
}

// The larger of two; where one is a NaN, the other. By hand, as the smaller: std's `max` and `min` leave open which of 0 and -0 comes out.
pub fn f32_max(a: f32, b: f32) -> f32
    ensures { result ≡ float_max a b }
{
    if b <= a || b.is_nan() { a } else { b }
}

// The smaller of two; where one is a NaN, the other.
pub fn f32_min(a: f32, b: f32) -> f32
    ensures { result ≡ float_min a b }
{
    if a <= b || b.is_nan() { a } else { b }
}
