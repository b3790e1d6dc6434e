// How a box is positioned, clipped, contained and sized, and what a layout may be asked for.
ghost use Rattle.std.specs.Prelude.{◌≡◌, ◌||◌};
ghost use Rattle.style.specs.Modes.{out_of_flow, scroll_container, requested};

use geometry::AbsoluteAxis;

// Per CSS Positioned Layout 3.
#[derive(Clone, Copy, Debug, PartialEq, Eq)]
pub enum Position {
    Static,
    Relative,
    Absolute,
    Fixed,
    Sticky,
}

impl Position {
    // Takes no room among its siblings.
    pub fn is_out_of_flow(self) -> bool
        ensures { result ≡ out_of_flow self }
    {
        matches!(self, Position::Absolute | Position::Fixed)
    }
}

// What becomes of content beyond a box along one axis, per CSS Overflow 3.
#[derive(Clone, Copy, Debug, PartialEq, Eq)]
pub enum Overflow {
    Visible,
    Clip,
    Hidden,
    Scroll,
}

impl Overflow {
    // What it hides can be scrolled to, by a user or by a program.
    pub fn is_scroll_container(self) -> bool
        ensures { result ≡ scroll_container self }
    {
        matches!(self, Overflow::Hidden | Overflow::Scroll)
    }
}

// The containments of CSS Containment 2 that count in layout.
#[derive(Clone, Copy, Debug, PartialEq, Eq)]
pub struct Contain {
    pub layout: bool,
    pub paint: bool,
}

impl Contain {
    pub const NONE: Contain = Contain {
        layout: false,
        paint: false,
    };

    pub const LAYOUT: Contain = Contain {
        layout: true,
        paint: false,
    };

    pub const PAINT: Contain = Contain {
        layout: false,
        paint: true,
    };

    pub const CONTENT: Contain = Contain {
        layout: true,
        paint: true,
    };

    // Content beyond the box adds nothing to the scrollable overflow of the boxes around it.
    pub fn contains_scrollable_overflow(self) -> bool
        ensures { result ≡ (self.layout || self.paint) }
    {
        self.layout || self.paint
    }
}

// Which box a size speaks of, per CSS Sizing 3.
#[derive(Clone, Copy, Debug, PartialEq, Eq)]
pub enum BoxSizing {
    BorderBox,
    ContentBox,
}

// Whether a measurement goes by the content alone, or by the sizes of the style too.
#[derive(Clone, Copy, Debug, PartialEq, Eq)]
pub enum SizingMode {
    ContentSize,
    InherentSize,
}

// The axes that a measurement is asked for.
#[derive(Clone, Copy, Debug, PartialEq, Eq)]
pub enum RequestedAxis {
    Horizontal,
    Vertical,
    Both,
}

impl From<AbsoluteAxis> for RequestedAxis {
    ghost from_gives = { λ axis r. r ≡ requested axis };

    fn from(axis: AbsoluteAxis) -> RequestedAxis {
        match axis {
            AbsoluteAxis::Horizontal => RequestedAxis::Horizontal,
            AbsoluteAxis::Vertical => RequestedAxis::Vertical,
        }
    }
}
