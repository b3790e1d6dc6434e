// A size as it is written in a page description.
ghost use Rattle.std.specs.Prelude.{◌≡◌, T, IfSome};
ghost use Rattle.page_words.specs.WrittenSizes.{size_in_range, size_read};

use crate::decimal::read_decimal;

// From 0 to 1,048,576.
pub(crate) fn is_size(x: f32) -> bool
    ensures { result ≡ size_in_range x }
{
    0.0 <= x && number::in_limits(x)
}

// The size that a word is.
pub fn read_size(word: &str) -> Option<f32>
    ensures value { result ≡ size_read word.now }
    ensures range { IfSome result (λ x. T (size_in_range x)) }
{
    read_decimal(word).filter(|x| is_size(*x))
}
