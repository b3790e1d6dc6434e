// A length of a side of a box, and the limits that the side is held in, per CSS Sizing 3.
ghost use Rattle.std.specs.Prelude.{◌≡◌};
ghost use Rattle.item_limits.specs.Limits.{adjustment_of, named_length, border_length, at_most, at_least, least, limits_of, clamped};
ghost use Rattle.item_limits.specs.LimitLaws.{Number, Ordered, Fits};

use number::{f32_max, f32_min};
use style::modes::BoxSizing;

// One length of a side, said twice: in the box that `box-sizing` names, and in the border box. Said twice since `v + a - a` is not `v` in f32.
#[derive(Clone, Copy)]
pub struct SideLength {
    pub named: f32,
    pub border: f32,
}

// What a side is held in.
#[derive(Clone, Copy)]
pub struct Limits {
    // The border box less the box that `box-sizing` names.
    pub adjustment: f32,
    // What padding and border take: no side is smaller.
    pub padding_border: SideLength,
    // The style's own minimum, where it has one, and at least padding and border.
    pub min: Option<SideLength>,
    // The style's maximum, and at least the minimum.
    pub max: Option<SideLength>,
}

// What a length of the style lacks to be one of the border box.
pub fn box_sizing_adjustment(box_sizing: BoxSizing, padding_border: f32) -> f32
    ensures { result ≡ adjustment_of box_sizing padding_border }
{
    match box_sizing {
        BoxSizing::BorderBox => 0.0,
        BoxSizing::ContentBox => padding_border,
    }
}

impl SideLength {
    // A length of the box that `box-sizing` names. `of_border` is a function of its own: the two share no more than the struct.
    pub fn of_named(length: f32, adjustment: f32) -> SideLength
        ensures { result ≡ named_length adjustment length }
    {
        SideLength {
            named: length,
            border: length + adjustment,
        }
    }

    // A length of the border box.
    pub fn of_border(length: f32, adjustment: f32) -> SideLength
        ensures { result ≡ border_length adjustment length }
    {
        SideLength {
            named: length - adjustment,
            border: length,
        }
    }

    // Two functions: one that takes `f32_min` or `f32_max` would be as long, and both would still call it.
    pub fn at_most(self, other: SideLength) -> SideLength
        ensures { result ≡ at_most self other }
    {
        SideLength {
            named: f32_min(self.named, other.named),
            border: f32_min(self.border, other.border),
        }
    }

    pub fn at_least(self, other: SideLength) -> SideLength
        ensures { result ≡ at_least self other }
    {
        SideLength {
            named: f32_max(self.named, other.named),
            border: f32_max(self.border, other.border),
        }
    }
}

impl Limits {
    // From the style's minimum and maximum, as lengths of the box that `box-sizing` names. Plain arguments: a struct of the four would have no other use.
    pub fn of_style(
        min: Option<f32>,
        max: Option<f32>,
        padding_border: f32,
        box_sizing: BoxSizing,
    ) -> Limits
        ensures limits { result ≡ limits_of min max padding_border (adjustment_of box_sizing padding_border) }
        ensures law { Number padding_border → Ordered padding_border result }
    {
        let adjustment = box_sizing_adjustment(box_sizing, padding_border);
        let floor = SideLength::of_border(padding_border, adjustment);
        let min = min.map(|length| SideLength::of_named(length, adjustment).at_least(floor));
        let least = min.unwrap_or(floor);
        let max = max.map(|length| SideLength::of_named(length, adjustment).at_least(least));
        Limits {
            adjustment,
            padding_border: floor,
            min,
            max,
        }
    }

    // A length of the box that `box-sizing` names.
    pub fn named_length(self, length: f32) -> SideLength
        ensures { result ≡ named_length self.adjustment length }
    {
        SideLength::of_named(length, self.adjustment)
    }

    // A length of the border box.
    pub fn border_length(self, length: f32) -> SideLength
        ensures { result ≡ border_length self.adjustment length }
    {
        SideLength::of_border(length, self.adjustment)
    }

    // What the minimum comes to.
    pub fn least(self) -> SideLength
        ensures { result ≡ least self }
    {
        self.min.unwrap_or(self.padding_border)
    }

    // The length, held in the limits. The maximum first, the minimum last: where they cross, the minimum stands.
    pub fn fit(self, length: SideLength) -> SideLength
        ensures length { result ≡ clamped self length }
        ensures law { Fits self length result }
    {
        let capped = self.max.map_or(length, |max| length.at_most(max));
        capped.at_least(self.least())
    }
}
