// The ranges that the numbers of a style keep, and the first value of a style, in the order of reading, that is out of its own.
ghost use Rattle.std.specs.Prelude.{◌≡◌, Bool};
ghost use Rattle.style.specs.Ranges.{fraction_in_range, ratio_in_range, if_any, length_percentage_in_range, length_percentage_auto_in_range, dimension_in_range};
ghost use Rattle.style.specs.Ranges.{side_of, sides, axes, first_out_of_range, NamesFirst};
ghost use Rattle.geometry.specs.Shapes.{extent};
ghost use Rattle.style.specs.FirstFailing.{first_failing};

use crate::length::{Dimension, LengthPercentage, LengthPercentageAuto};
use crate::style::Style;
use geometry::{AbsoluteAxis, Rect, Size};

// A side of a box.
#[derive(Clone, Copy, Debug, PartialEq, Eq)]
pub enum Side {
    Left,
    Right,
    Top,
    Bottom,
}

// A value of a style that holds a number.
#[derive(Clone, Copy, Debug, PartialEq, Eq)]
pub enum StyleField {
    ScrollbarWidth,
    AspectRatio,
    Inset(Side),
    Padding(Side),
    Border(Side),
    Size(AbsoluteAxis),
    MinSize(AbsoluteAxis),
    MaxSize(AbsoluteAxis),
    Margin(Side),
}

// At most 1,024, which is 102,400%, in magnitude.
pub fn percent_in_range(fraction: f32) -> bool
    ensures { result ≡ fraction_in_range fraction }
{
    number::is_within(fraction, 1024.0)
}

// From 1/1,024 to 1,024. No ratio is no number.
pub fn aspect_ratio_in_range(ratio: Option<f32>) -> bool
    ensures { result ≡ if_any ratio_in_range ratio }
{
    ratio.is_none_or(|ratio| 0.0009765625 <= ratio && ratio <= 1024.0)
}

// A length whose number, if it has one, can be out of range. A calculation has none, and no keyword has.
pub trait InRange {
    ghost allowed: { Self → Bool };

    fn in_range(&self) -> bool
        ensures { result ≡ allowed self.now };
}

impl InRange for LengthPercentage {
    ghost allowed = { length_percentage_in_range };

    fn in_range(&self) -> bool {
        match *self {
            LengthPercentage::Px(x) => number::in_limits(x),
            LengthPercentage::Percent(x) => percent_in_range(x),
            LengthPercentage::Calc(_) => true,
        }
    }
}

impl InRange for LengthPercentageAuto {
    ghost allowed = { length_percentage_auto_in_range };

    fn in_range(&self) -> bool {
        match *self {
            LengthPercentageAuto::Auto => true,
            LengthPercentageAuto::Length(length) => length.in_range(),
        }
    }
}

impl InRange for Dimension {
    ghost allowed = { dimension_in_range };

    fn in_range(&self) -> bool {
        match *self {
            Dimension::Length(length) | Dimension::FitContentFunction(length) => length.in_range(),
            _ => true,
        }
    }
}

// What stands at a side.
fn side_of<L>(rect: &Rect<L>, side: Side) -> &L
    ensures { result.now ≡ side_of rect.now side }
{
    match side {
        Side::Left => &rect.left,
        Side::Right => &rect.right,
        Side::Top => &rect.top,
        Side::Bottom => &rect.bottom,
    }
}

// The first of left, right, top and bottom that is out of range.
fn first_side_out_of_range<L: InRange>(rect: &Rect<L>) -> Option<Side>
    ensures { result ≡ first_failing (λ side. L.InRange.allowed (side_of rect.now side)) sides }
{
    [Side::Left, Side::Right, Side::Top, Side::Bottom]
        .iter()
        .copied()
        .find(|side| !side_of(rect, *side).in_range())
}

// The first of width and height that is out of range.
fn first_extent_out_of_range<L: InRange + Copy>(size: &Size<L>) -> Option<AbsoluteAxis>
    ensures { result ≡ first_failing (λ axis. L.InRange.allowed (extent axis size.now)) axes }
{
    [AbsoluteAxis::Horizontal, AbsoluteAxis::Vertical]
        .iter()
        .copied()
        .find(|axis| !size.get_abs(*axis).in_range())
}

// The first value of the style, in the order in which placing an item reads them, whose number is out of range.
pub fn first_out_of_range(style: &Style) -> Option<StyleField>
    ensures value { result ≡ first_out_of_range style.now }
    ensures law { NamesFirst style.now result }
{
    let scrollbar_width = (!number::in_limits(style.scrollbar_width)).then_some(
        StyleField::ScrollbarWidth,
    );
    let aspect_ratio = (!aspect_ratio_in_range(style.aspect_ratio)).then_some(
        StyleField::AspectRatio,
    );
    scrollbar_width
        .or(aspect_ratio)
        .or_else(|| first_side_out_of_range(&style.inset).map(StyleField::Inset))
        .or_else(|| first_side_out_of_range(&style.padding).map(StyleField::Padding))
        .or_else(|| first_side_out_of_range(&style.border).map(StyleField::Border))
        .or_else(|| first_extent_out_of_range(&style.size).map(StyleField::Size))
        .or_else(|| first_extent_out_of_range(&style.min_size).map(StyleField::MinSize))
        .or_else(|| first_extent_out_of_range(&style.max_size).map(StyleField::MaxSize))
        .or_else(|| first_side_out_of_range(&style.margin).map(StyleField::Margin))
}
