// A test of every number: of a number, and of what is made of numbers.
ghost use Rattle.std.specs.Prelude.{◌≡◌, Bool, Float};
ghost use Rattle.tree.specs.Numbers.{every_option, every_space, every_size, every_rect, every_line};

use geometry::{Line, Rect, Size};
use style::length::AvailableSpace;

// A thing made of numbers. `every` says that each number in it passes a test; a number that is not there passes.
pub trait Numbers: Copy {
    ghost every: { (Float → Bool) → Self → Bool };

    fn every_number<F: Fn(f32) -> bool>(self, passes: &F) -> bool
        requires { F.IsAlwaysCallable passes.now }
        ensures { (test : Float → Bool) → ((x : Float) (b : Bool) → F.post passes.now x b → b ≡ test x) → result ≡ every test self };
}

impl Numbers for f32 {
    ghost every = { λ test x. test x };

    fn every_number<F: Fn(f32) -> bool>(self, passes: &F) -> bool {
        passes(self)
    }
}

impl<T: Numbers> Numbers for Option<T> {
    ghost every = { λ test. every_option (T.Numbers.every test) };

    fn every_number<F: Fn(f32) -> bool>(self, passes: &F) -> bool {
        self.is_none_or(|x| x.every_number(passes))
    }
}

impl Numbers for AvailableSpace {
    ghost every = { every_space };

    fn every_number<F: Fn(f32) -> bool>(self, passes: &F) -> bool {
        match self {
            AvailableSpace::Definite(x) => passes(x),
            AvailableSpace::MinContent | AvailableSpace::MaxContent => true,
        }
    }
}

impl<T: Numbers> Numbers for Size<T> {
    ghost every = { λ test. every_size (T.Numbers.every test) };

    fn every_number<F: Fn(f32) -> bool>(self, passes: &F) -> bool {
        self.width.every_number(passes) && self.height.every_number(passes)
    }
}

impl<T: Numbers> Numbers for Rect<T> {
    ghost every = { λ test. every_rect (T.Numbers.every test) };

    fn every_number<F: Fn(f32) -> bool>(self, passes: &F) -> bool {
        self.left.every_number(passes)
            && self.right.every_number(passes)
            && self.top.every_number(passes)
            && self.bottom.every_number(passes)
    }
}

impl<T: Numbers> Numbers for Line<T> {
    ghost every = { λ test. every_line (T.Numbers.every test) };

    fn every_number<F: Fn(f32) -> bool>(self, passes: &F) -> bool {
        self.start.every_number(passes) && self.end.every_number(passes)
    }
}
