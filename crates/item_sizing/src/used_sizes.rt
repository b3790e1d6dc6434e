// The used sizes of an item before it is laid out. A side that is absent is left to the layout.
ghost use Rattle.std.specs.Prelude.{◌≡◌};
ghost use Rattle.item_sizing.specs.Found.{Finds};
ghost use Rattle.item_sizing.specs.UsedSizes.{used_length, measured_length, used_width, used_height, sizes_by_axis, ratio_box, sizes_of_box, sizes_by_ratio, used_sizes};

use crate::sizing_item::SizingItem;
use geometry::Size;
use item_limits::item_axis::SideSizing;
use item_limits::limits::{Limits, SideLength};
use item_limits::ratio_box::AspectRatio;
use item_questions::asking::measure;
use item_questions::fault::ItemFault;
use tree::traits::LayoutPartialTree;

// A width that is settled, and the height that was measured along with it, if it still holds.
#[derive(Clone, Copy)]
pub struct UsedWidth {
    width: Option<f32>,
    height_along: Option<f32>,
}

fn used_length(limits: Limits, length: SideLength) -> f32
    ensures { result ≡ used_length limits length }
{
    limits.fit(length).border
}

fn measured_length(limits: Limits, length: f32) -> f32
    ensures { result ≡ measured_length limits length }
{
    used_length(limits, limits.border_length(length))
}

impl SizingItem {
    fn used_width<H: LayoutPartialTree>(self, host: &mut H) -> Result<UsedWidth, ItemFault>
        requires { H.ordered host.old }
        ensures { Finds H.LayoutPartialTree host.old host.new (used_width (H.meaning host.old).means self) result }
    {
        let limits = self.limits.width;
        match self.sizing.width {
            SideSizing::Given(w) | SideSizing::Stretched(w) | SideSizing::Filled(w) => {
                Ok(UsedWidth {
                    width: Some(used_length(limits, w)),
                    height_along: None,
                })
            }
            SideSizing::Content(space) => {
                let size = measure(host, self.width_question(space))?;
                let width = measured_length(limits, size.width);
                let still_holds = self.height_along().is_some() && size.width == width;
                Ok(UsedWidth {
                    width: Some(width),
                    height_along: still_holds.then_some(size.height),
                })
            }
            SideSizing::Free => Ok(UsedWidth {
                width: None,
                height_along: None,
            }),
        }
    }

    fn used_height<H: LayoutPartialTree>(
        self,
        host: &mut H,
        width: UsedWidth,
    ) -> Result<Option<f32>, ItemFault>
        requires { H.ordered host.old }
        ensures { Finds H.LayoutPartialTree host.old host.new (used_height (H.meaning host.old).means self width) result }
    {
        let limits = self.limits.height;
        match self.sizing.height {
            SideSizing::Given(h) | SideSizing::Stretched(h) | SideSizing::Filled(h) => {
                Ok(Some(used_length(limits, h)))
            }
            SideSizing::Content(space) => {
                // A `match`, since the `?` returns from this function.
                let height = match width.height_along {
                    Some(height) => height,
                    None => measure(host, self.height_question(width.width, space))?.height,
                };
                Ok(Some(measured_length(limits, height)))
            }
            SideSizing::Free => Ok(None),
        }
    }

    fn sizes_by_axis<H: LayoutPartialTree>(
        self,
        host: &mut H,
    ) -> Result<Size<Option<f32>>, ItemFault>
        requires { H.ordered host.old }
        ensures { Finds H.LayoutPartialTree host.old host.new (sizes_by_axis (H.meaning host.old).means self) result }
    {
        let width = self.used_width(host)?;
        let height = self.used_height(host, width)?;
        Ok(Size {
            width: width.width,
            height,
        })
    }

    // The box whose sides stand in the ratio, or none where neither side says what it is.
    fn ratio_box<H: LayoutPartialTree>(
        self,
        host: &mut H,
        ratio: AspectRatio,
    ) -> Result<Option<Size<SideLength>>, ItemFault>
        requires { H.ordered host.old }
        ensures { Finds H.LayoutPartialTree host.old host.new (ratio_box (H.meaning host.old).means self ratio) result }
    {
        let limits = self.limits;
        let of_given_height = |h: SideLength| ratio.box_of_height(limits.height.fit(h));
        // An arm for each width beside a given height: a `|` round patterns that test both sides gets no proof.
        let sides = match (self.sizing.width, self.sizing.height) {
            (SideSizing::Given(w) | SideSizing::Stretched(w), _) => {
                ratio.box_of_width(limits.width.fit(w))
            }
            (SideSizing::Content(_), SideSizing::Given(h)) => of_given_height(h),
            (SideSizing::Filled(_), SideSizing::Given(h)) => of_given_height(h),
            (SideSizing::Free, SideSizing::Given(h) | SideSizing::Stretched(h)) => {
                of_given_height(h)
            }
            (SideSizing::Content(space), _) => {
                let size = measure(host, self.width_question(space))?;
                ratio.limited(ratio.box_of_width(limits.width.border_length(size.width)))
            }
            (SideSizing::Filled(w), _) => ratio.limited(ratio.box_of_width(w)),
            (SideSizing::Free, SideSizing::Filled(h)) => ratio.limited(ratio.box_of_height(h)),
            (SideSizing::Free, SideSizing::Content(space)) => {
                let size = measure(host, self.height_question(None, space))?;
                ratio.limited(ratio.box_of_height(limits.height.border_length(size.height)))
            }
            (SideSizing::Free, SideSizing::Free) => return Ok(None),
        };
        Ok(Some(sides))
    }

    // Each side of the box within its own limits. A height that is given or stretched goes before the box's.
    fn sizes_of_box(self, sides: Option<Size<SideLength>>) -> Size<Option<f32>>
        ensures { result ≡ sizes_of_box self sides }
    {
        let limits = self.limits;
        let height = match self.sizing.height {
            SideSizing::Given(h) | SideSizing::Stretched(h) => Some(h),
            _ => sides.map(|sides| sides.height),
        };
        Size {
            width: sides.map(|sides| used_length(limits.width, sides.width)),
            height: height.map(|height| used_length(limits.height, height)),
        }
    }

    fn sizes_by_ratio<H: LayoutPartialTree>(
        self,
        host: &mut H,
        ratio: AspectRatio,
    ) -> Result<Size<Option<f32>>, ItemFault>
        requires { H.ordered host.old }
        ensures { Finds H.LayoutPartialTree host.old host.new (sizes_by_ratio (H.meaning host.old).means self ratio) result }
    {
        let sides = self.ratio_box(host, ratio)?;
        Ok(self.sizes_of_box(sides))
    }

    pub(crate) fn used_sizes<H: LayoutPartialTree>(
        self,
        host: &mut H,
    ) -> Result<Size<Option<f32>>, ItemFault>
        requires { H.ordered host.old }
        ensures { Finds H.LayoutPartialTree host.old host.new (used_sizes (H.meaning host.old).means self) result }
    {
        // A `match`, since both arms borrow the host, and two closures could not.
        match self.ratio() {
            None => self.sizes_by_axis(host),
            Some(ratio) => self.sizes_by_ratio(host, ratio),
        }
    }
}
