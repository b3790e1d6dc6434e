// One axis of an item: the space that its side may fill, and what the side is to be before its content is measured.
ghost use Rattle.std.specs.Prelude.{◌≡◌, T};
ghost use Rattle.std.specs.Float.Ieee.{le};
ghost use Rattle.item_limits.specs.ItemAxes.{zero, stretch_fit_size, can_fill, auto_sizing, keyword_sizing, side_sizing, stretch_fit_side};
ghost use Rattle.item_limits.specs.ItemAxisLaws.{Sized};

use crate::limits::SideLength;
use crate::self_alignment::normal_fills;
use crate::sizing_keyword::{SizingKeywordResolution, resolve_sizing_keyword};
use geometry::{AbsoluteAxis, Line};
use maybe_math::MaybeMath;
use number::f32_max;
use style::alignment::{AlignItems, AlignItemsKeyword, AlignmentSafety};
use style::length::{AvailableSpace, Dimension};

// What counts along one axis, in resolved lengths. A margin or an inset that is missing is auto.
#[derive(Clone, Copy)]
pub struct ItemAxis {
    pub axis: AbsoluteAxis,
    // The area's extent.
    pub area: f32,
    pub margin: Line<Option<f32>>,
    pub inset: Line<Option<f32>>,
    // 0 in the horizontal axis.
    pub baseline_shim: f32,
    pub is_out_of_flow: bool,
    // The border box less the box that `box-sizing` names.
    pub adjustment: f32,
    // The self-alignment, in the words of the container.
    pub alignment: AlignItems,
    pub is_replaced: bool,
    pub has_ratio: bool,
}

// The size that the style prefers, and the numbers in it once they are resolved.
#[derive(Clone, Copy)]
pub struct PreferredSize {
    pub style: Dimension,
    // Of a length, a percentage or a calculation.
    pub length: Option<f32>,
    // Of `fit-content(..)`.
    pub fit_content_limit: Option<f32>,
}

// What a side is to be.
#[derive(Clone, Copy)]
pub enum SideSizing {
    // A definite size: a length, or the keyword `stretch`.
    Given(SideLength),
    // An intrinsic size: what the content measures in this space.
    Content(AvailableSpace),
    // The stretch-fit size, by an explicit `stretch` of an item in flow. It goes before an aspect ratio.
    Stretched(SideLength),
    // The stretch-fit size, by `normal`, or by `stretch` out of flow. It gives way to an aspect ratio.
    Filled(SideLength),
    // Whatever the layout makes it.
    Free,
}

impl ItemAxis {
    // The area less the margins and, out of flow, the insets: the border box that fills it.
    #[tactic(auto, using(crate::proofs::ItemAxes::not_negative))]
    pub fn stretch_fit_size(self) -> f32
        ensures size { result ≡ stretch_fit_size self }
        ensures law { T (le zero result) }
    {
        let inner = self
            .area
            .maybe_sub(self.margin.start)
            .maybe_sub(self.margin.end)
            - self.baseline_shim;
        let left = if self.is_out_of_flow {
            inner.maybe_sub(self.inset.start).maybe_sub(self.inset.end)
        } else {
            inner
        };
        f32_max(left, 0.0)
    }

    fn stretch_fit_side(self) -> SideLength
        ensures { result ≡ stretch_fit_side self }
    {
        SideLength::of_border(self.stretch_fit_size(), self.adjustment)
    }

    // Nothing along the axis is auto but the size: in flow no margin, out of flow no inset.
    pub fn can_fill(self) -> bool
        ensures { result ≡ can_fill self }
    {
        let ends = if self.is_out_of_flow {
            self.inset
        } else {
            self.margin
        };
        ends.both_set()
    }

    // What a side of automatic size is to be.
    pub fn auto_sizing(self) -> SideSizing
        ensures { result ≡ auto_sizing self }
    {
        if !self.can_fill() {
            return SideSizing::Free;
        }
        let side = self.stretch_fit_side();
        let fills = normal_fills(
            self.axis,
            self.is_out_of_flow,
            self.is_replaced,
            self.has_ratio,
        );
        match (self.alignment.keyword, self.alignment.safety) {
            (AlignItemsKeyword::Stretch, _) if self.is_out_of_flow => SideSizing::Filled(side),
            (AlignItemsKeyword::Stretch, AlignmentSafety::Default) => SideSizing::Stretched(side),
            (AlignItemsKeyword::Normal, _) if fills => SideSizing::Filled(side),
            _ => SideSizing::Free,
        }
    }

    fn keyword_sizing(self, size: PreferredSize) -> Option<SideSizing>
        ensures { result ≡ keyword_sizing self size }
    {
        resolve_sizing_keyword(
            size.style,
            Some(self.stretch_fit_size()),
            size.fit_content_limit,
        )
        .map(|keyword| match keyword {
            SizingKeywordResolution::Exact(size) => SideSizing::Given(SideLength::of_border(
                size,
                self.adjustment,
            )),
            SizingKeywordResolution::Measure(space) => SideSizing::Content(space),
        })
    }

    // What a side of this size is to be: by a length first, then by a sizing keyword, then by the alignment.
    pub fn side_sizing(self, size: PreferredSize) -> SideSizing
        ensures sizing { result ≡ side_sizing self size }
        ensures law { Sized self result }
    {
        size.length
            .map(|length| SideSizing::Given(SideLength::of_named(length, self.adjustment)))
            .or_else(|| self.keyword_sizing(size))
            .unwrap_or_else(|| self.auto_sizing())
    }
}
