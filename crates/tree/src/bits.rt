// Equal in every bit: a number, and what is made of numbers.
ghost use Rattle.std.specs.Prelude.{◌≡◌, Bool, true};
ghost use Rattle.tree.specs.Bits.{same_f32, same_option, same_space, same_size};

use geometry::Size;
use std::num::f32_to_bits_with_nan;
use style::length::AvailableSpace;

// The same number to the bit: two zeros of different sign are two, and one NaN is as good as another.
pub fn same_f32(a: f32, b: f32) -> bool
    ensures test { result ≡ same_f32 a b }
    ensures same { result ≡ true → a ≡ b }
    ensures back { a ≡ b → result ≡ true }
{
    f32_to_bits_with_nan(a) == f32_to_bits_with_nan(b)
}

// A thing made of numbers. `alike` says that two are equal in every bit.
// By hand: by the derived `==` two zeros of different sign are equal and no NaN is, and a type round `f32` with another `==` would be unwrapped at each use of a size.
pub trait SameBits: Copy {
    ghost alike: { Self → Self → Bool };

    fn same_bits(self, other: Self) -> bool
        ensures test { result ≡ alike self other }
        ensures same { result ≡ true → self ≡ other }
        ensures back { self ≡ other → result ≡ true };
}

impl SameBits for f32 {
    ghost alike = { same_f32 };

    fn same_bits(self, other: f32) -> bool {
        same_f32(self, other)
    }
}

impl<T: SameBits> SameBits for Option<T> {
    ghost alike = { same_option T.SameBits.alike };

    fn same_bits(self, other: Option<T>) -> bool {
        match (self, other) {
            (Some(a), Some(b)) => a.same_bits(b),
            (None, None) => true,
            (Some(_), None) | (None, Some(_)) => false,
        }
    }
}

impl SameBits for AvailableSpace {
    ghost alike = { same_space };

    fn same_bits(self, other: AvailableSpace) -> bool {
        match (self, other) {
            (AvailableSpace::Definite(a), AvailableSpace::Definite(b)) => same_f32(a, b),
            (AvailableSpace::MinContent, AvailableSpace::MinContent)
            | (AvailableSpace::MaxContent, AvailableSpace::MaxContent) => true,
            _ => false,
        }
    }
}

impl<T: SameBits> SameBits for Size<T> {
    ghost alike = { same_size T.SameBits.alike };

    fn same_bits(self, other: Size<T>) -> bool {
        self.width.same_bits(other.width) && self.height.same_bits(other.height)
    }
}
