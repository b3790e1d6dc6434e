// What is known of an item before its sizes are, and the questions that its sizes take.
ghost use Rattle.std.specs.Prelude.{◌≡◌};
ghost use Rattle.std.specs.Option.{option_map};
ghost use Rattle.item_sizing.specs.UsedSizes.{ratio_of, question as question_of, height_along_of, width_question, height_question};

use geometry::Size;
use item_limits::item_axis::SideSizing;
use item_limits::limits::Limits;
use item_limits::ratio_box::AspectRatio;
use style::length::AvailableSpace;
use style::modes::{RequestedAxis, SizingMode};
use tree::question::Question;

#[derive(Clone, Copy)]
pub struct SizingItem {
    pub node: u64,
    pub is_out_of_flow: bool,
    // What percentages resolve against: the parent's size in every question.
    pub basis: Size<f32>,
    // The stretch-fit sizes.
    pub space: Size<f32>,
    pub limits: Size<Limits>,
    pub sizing: Size<SideSizing>,
    pub aspect_ratio: Option<f32>,
}

impl SizingItem {
    // The aspect ratio, with the limits that its boxes are held in.
    pub(crate) fn ratio(self) -> Option<AspectRatio>
        ensures { result ≡ option_map (ratio_of self) self.aspect_ratio }
    {
        let limits = self.limits;
        self.aspect_ratio.map(|ratio| AspectRatio { ratio, limits })
    }

    pub(crate) fn question(
        self,
        known_dimensions: Size<Option<f32>>,
        available_space: Size<AvailableSpace>,
        axis: RequestedAxis,
    ) -> Question
        ensures { result ≡ question_of self known_dimensions available_space axis }
    {
        Question {
            node: self.node,
            known_dimensions,
            parent_size: self.basis.map(Some),
            available_space,
            sizing_mode: SizingMode::InherentSize,
            axis,
        }
    }

    // The constraint of a content height that is measured along with the width.
    pub(crate) fn height_along(self) -> Option<AvailableSpace>
        ensures { result ≡ height_along_of self }
    {
        match self.sizing.height {
            SideSizing::Content(space) if !self.is_out_of_flow => Some(space),
            _ => None,
        }
    }

    pub(crate) fn width_question(self, space: AvailableSpace) -> Question
        ensures { result ≡ width_question self space }
    {
        let (height, axis) = match self.height_along() {
            Some(height) => (height, RequestedAxis::Both),
            None => (
                AvailableSpace::Definite(self.space.height),
                RequestedAxis::Horizontal,
            ),
        };
        self.question(
            Size::NONE,
            Size {
                width: space,
                height,
            },
            axis,
        )
    }

    pub(crate) fn height_question(self, width: Option<f32>, space: AvailableSpace) -> Question
        ensures { result ≡ height_question self width space }
    {
        let room = AvailableSpace::Definite(width.unwrap_or(self.space.width));
        let known = Size {
            width,
            height: None,
        };
        self.question(
            known,
            Size {
                width: room,
                height: space,
            },
            RequestedAxis::Vertical,
        )
    }
}
