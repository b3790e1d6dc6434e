// The two boxes that a contribution to scrollable overflow speaks of, per CSS Overflow 3, 2.2.
use geometry::{Point, Rect, Size};
use style::alignment::Direction;
use style::modes::{Contain, Overflow};

// The container: the width of its border box, and its borders.
#[derive(Clone, Copy)]
pub struct ContainerBox {
    pub width: f32,
    pub border: Rect<f32>,
    pub direction: Direction,
    pub is_scroll_container: bool,
}

// An item's border box, located from the top left corner of the container's border box.
#[derive(Clone, Copy)]
pub struct ItemBox {
    pub location: Point<f32>,
    pub size: Size<f32>,
    pub border: Rect<f32>,
    // From the inline start and top edges of the item's padding box.
    pub scrollable_overflow_rect: Rect<f32>,
    pub overflow: Point<Overflow>,
    pub contain: Contain,
    pub direction: Direction,
}
