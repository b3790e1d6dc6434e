// The one layout of an item, and its final sizes.
ghost use Rattle.std.specs.Prelude.{◌≡◌};
ghost use Rattle.item_sizing.specs.Found.{Finds};
ghost use Rattle.item_sizing.specs.LaidOut.{whole_question, max_width, max_height, held, answered, wants_measuring, laid_out_with, laid_out_item};
ghost use Rattle.item_sizing.specs.SizingLaws.{Sized};

use crate::sizing_item::SizingItem;
use geometry::Size;
use item_limits::limits::SideLength;
use item_questions::asking::{measure, perform_layout};
use item_questions::fault::ItemFault;
use number::{f32_max, f32_min};
use style::length::AvailableSpace;
use style::modes::RequestedAxis;
use tree::layout::LayoutOutput;
use tree::question::Question;
use tree::traits::LayoutPartialTree;

// An item once it is laid out: its final size, what the layout answered, and the question that it was asked by.
#[derive(Clone, Copy)]
pub struct LaidOutItem {
    pub size: Size<f32>,
    pub output: LayoutOutput,
    pub question: Question,
}

fn hold(max: Option<SideLength>, min: f32, length: f32) -> f32
    ensures { result ≡ held max min length }
{
    let capped = max.map_or(length, |max| f32_min(length, max.border));
    f32_max(capped, min)
}

impl SizingItem {
    fn whole_question(self, known: Size<Option<f32>>) -> Question
        ensures { result ≡ whole_question self known }
    {
        let space = self.space.map(AvailableSpace::Definite);
        self.question(known, space, RequestedAxis::Both)
    }

    // The maximum of an answered width: its own, else that of the height, carried over. `max_height` reads the same in the other axis;
    // a function for both would still match on the axis for the box of the ratio.
    fn max_width(self) -> Option<SideLength>
        ensures { result ≡ max_width self }
    {
        let Size { width, height } = self.limits;
        let carried = height
            .max
            .zip(self.ratio())
            .map(|(max, ratio)| ratio.box_of_height(max).width);
        width.max.or(carried)
    }

    fn max_height(self) -> Option<SideLength>
        ensures { result ≡ max_height self }
    {
        let Size { width, height } = self.limits;
        let carried = width
            .max
            .zip(self.ratio())
            .map(|(max, ratio)| ratio.box_of_width(max).height);
        height.max.or(carried)
    }

    fn answered(self, size: Size<f32>) -> Size<f32>
        ensures { result ≡ answered self size }
    {
        let Size { width, height } = self.limits;
        Size {
            width: hold(self.max_width(), width.least().border, size.width),
            height: hold(self.max_height(), height.least().border, size.height),
        }
    }

    fn wants_measuring(self, known: Size<Option<f32>>) -> bool
        ensures { result ≡ wants_measuring self known }
    {
        self.is_out_of_flow && !known.both_axis_defined()
    }

    fn lay_out_with<H: LayoutPartialTree>(
        self,
        host: &mut H,
        known: Size<Option<f32>>,
    ) -> Result<LaidOutItem, ItemFault>
        requires { H.ordered host.old }
        ensures { Finds H.LayoutPartialTree host.old host.new (laid_out_with (H.meaning host.old).means self known) result }
    {
        if self.wants_measuring(known) {
            let measured = measure(host, self.whole_question(known))?;
            let question = self.whole_question(measured.map(Some));
            let output = perform_layout(host, question)?;
            Ok(LaidOutItem {
                size: self.answered(measured),
                output,
                question,
            })
        } else {
            let question = self.whole_question(known);
            let output = perform_layout(host, question)?;
            Ok(LaidOutItem {
                // A side that is settled is final.
                size: known.unwrap_or(self.answered(output.size)),
                output,
                question,
            })
        }
    }

    // Sizes the item and lays it out, with at most two measurements and one layout.
    pub fn lay_out<H: LayoutPartialTree>(self, host: &mut H) -> Result<LaidOutItem, ItemFault>
        requires { H.ordered host.old }
        ensures finds { Finds H.LayoutPartialTree host.old host.new (laid_out_item (H.meaning host.old).means self) result }
        ensures law { Sized (H.meaning host.old).means self result }
    {
        let known = self.used_sizes(host)?;
        self.lay_out_with(host, known)
    }
}
