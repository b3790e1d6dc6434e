// Sizes, points, lines and rectangles, written once for numbers, optional numbers and lengths.
#![tactic(auto)]

pub mod axes;
pub mod points;
pub mod rects;
pub mod sizes;
pub mod sums;

// The two axes of the page.
#[derive(Clone, Copy, Debug, PartialEq, Eq)]
pub enum AbsoluteAxis {
    Horizontal,
    Vertical,
}

// A width and a height.
#[derive(Clone, Copy, Debug, PartialEq)]
pub struct Size<T> {
    pub width: T,
    pub height: T,
}

// A place, x to the right and y downward.
#[derive(Clone, Copy, Debug, PartialEq)]
pub struct Point<T> {
    pub x: T,
    pub y: T,
}

// The two ends of something along one axis.
#[derive(Clone, Copy, Debug, PartialEq)]
pub struct Line<T> {
    pub start: T,
    pub end: T,
}

// Four edges, or what stands at each of four sides.
#[derive(Clone, Copy, Debug, PartialEq)]
pub struct Rect<T> {
    pub left: T,
    pub right: T,
    pub top: T,
    pub bottom: T,
}

// One thing for each axis.
#[derive(Clone, Copy, Debug, PartialEq)]
pub struct InBothAbsAxis<T> {
    pub horizontal: T,
    pub vertical: T,
}
