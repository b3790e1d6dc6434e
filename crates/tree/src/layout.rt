// What a layout answers, what is stored of it, and a candidate: an out-of-flow box that an ancestor has yet to place.
ghost use Rattle.tree.specs.Numbers.{every_layout, every_candidate};

use crate::numbers::Numbers;
use geometry::{Line, Point, Rect, Size};
use style::alignment::AlignmentSafety;

// Which part of an area the margin box of an out-of-flow box is aligned to.
#[derive(Clone, Copy)]
pub enum AxisStaticEdge {
    Start,
    Center,
    End,
}

// The alignment of an out-of-flow box within its static-position area along one axis; the fallback counts where it is safe and the box overflows.
#[derive(Clone, Copy)]
pub struct AxisStaticAlign {
    pub keyword: AxisStaticEdge,
    pub safety: AlignmentSafety,
    pub fallback: AxisStaticEdge,
}

// The static position along one axis: the area, relative to the border box of the node that holds the candidate, and the alignment within it.
#[derive(Clone, Copy)]
pub struct AxisStaticPosition {
    pub area: Line<f32>,
    pub align: AxisStaticAlign,
}

// An out-of-flow box that is not yet laid out, since its containing block is an ancestor of its parent.
#[derive(Clone, Copy)]
pub struct OofCandidate {
    pub node: u64,
    pub static_position: Point<AxisStaticPosition>,
}

impl Numbers for OofCandidate {
    ghost every = { every_candidate };

    fn every_number<F: Fn(f32) -> bool>(self, passes: &F) -> bool {
        self.static_position.x.area.every_number(passes)
            && self.static_position.y.area.every_number(passes)
    }
}

// The answer to a layout. Its candidates are fetched one by one, by index, so that an answer holds no memory of its own.
#[derive(Clone, Copy)]
pub struct LayoutOutput {
    pub size: Size<f32>,
    pub scrollable_overflow_rect: Rect<f32>,
    pub first_baseline: Option<f32>,
    pub candidate_count: u32,
}

impl Numbers for LayoutOutput {
    ghost every = { every_layout };

    fn every_number<F: Fn(f32) -> bool>(self, passes: &F) -> bool {
        self.size.every_number(passes)
            && self.scrollable_overflow_rect.every_number(passes)
            && self.first_baseline.every_number(passes)
    }
}

// Where a node stands in its parent, and the widths of what surrounds its content.
#[derive(Clone, Copy)]
pub struct Layout {
    pub order: u32,
    pub location: Point<f32>,
    pub size: Size<f32>,
    pub scrollable_overflow_rect: Rect<f32>,
    pub scrollbar_size: Size<f32>,
    pub border: Rect<f32>,
    pub padding: Rect<f32>,
    pub margin: Rect<f32>,
}
