// The style of a grid item: every value that placing it reads, in the order in which they are read.
use crate::alignment::{AlignItems, Direction};
use crate::length::{Dimension, LengthPercentage, LengthPercentageAuto};
use crate::modes::{BoxSizing, Contain, Overflow, Position};
use geometry::{Point, Rect, Size};

const NO_EDGES: Rect<LengthPercentage> = Rect {
    left: LengthPercentage::Px(0.0),
    right: LengthPercentage::Px(0.0),
    top: LengthPercentage::Px(0.0),
    bottom: LengthPercentage::Px(0.0),
};

const AUTO_SIZE: Size<Dimension> = Size {
    width: Dimension::Auto,
    height: Dimension::Auto,
};

#[derive(Clone, Copy)]
pub struct Style {
    pub overflow: Point<Overflow>,
    pub contain: Contain,
    pub scrollbar_width: f32,
    // The width over the height.
    pub aspect_ratio: Option<f32>,
    pub is_replaced: bool,
    pub direction: Direction,
    // None: as the container says for all its items.
    pub justify_self: Option<AlignItems>,
    pub align_self: Option<AlignItems>,
    pub position: Position,
    pub inset: Rect<LengthPercentageAuto>,
    pub padding: Rect<LengthPercentage>,
    pub border: Rect<LengthPercentage>,
    pub box_sizing: BoxSizing,
    pub size: Size<Dimension>,
    pub min_size: Size<Dimension>,
    pub max_size: Size<Dimension>,
    pub margin: Rect<LengthPercentageAuto>,
}

impl Style {
    // The initial values of CSS, but for `box-sizing`, whose initial value here is `border-box`.
    pub const DEFAULT: Style = Style {
        overflow: Point {
            x: Overflow::Visible,
            y: Overflow::Visible,
        },
        contain: Contain::NONE,
        scrollbar_width: 0.0,
        aspect_ratio: None,
        is_replaced: false,
        direction: Direction::Ltr,
        justify_self: None,
        align_self: None,
        position: Position::Static,
        inset: Rect {
            left: LengthPercentageAuto::Auto,
            right: LengthPercentageAuto::Auto,
            top: LengthPercentageAuto::Auto,
            bottom: LengthPercentageAuto::Auto,
        },
        padding: NO_EDGES,
        border: NO_EDGES,
        box_sizing: BoxSizing::BorderBox,
        size: AUTO_SIZE,
        min_size: AUTO_SIZE,
        max_size: AUTO_SIZE,
        margin: Rect {
            left: LengthPercentageAuto::Length(LengthPercentage::Px(0.0)),
            right: LengthPercentageAuto::Length(LengthPercentage::Px(0.0)),
            top: LengthPercentageAuto::Length(LengthPercentage::Px(0.0)),
            bottom: LengthPercentageAuto::Length(LengthPercentage::Px(0.0)),
        },
    };
}
