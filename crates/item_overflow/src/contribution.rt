// What an item adds to its container's scrollable overflow area.
ghost use Rattle.std.specs.Prelude.{◌≡◌};
ghost use Rattle.item_overflow.specs.Laws.{Contributes};
ghost use Rattle.item_overflow.specs.ScrollableOverflow as area;

use crate::boxes::{ContainerBox, ItemBox};
use geometry::{AbsoluteAxis, Line, Point, Rect};
use number::{f32_max, f32_min};
use style::alignment::Direction;
use style::modes::Overflow;

fn shifted(line: Line<f32>, by: f32) -> Line<f32>
    ensures { result ≡ area.shifted by line }
{
    Line {
        start: by + line.start,
        end: by + line.end,
    }
}

// The line seen from the other end of the side that it is measured on.
fn mirrored(line: Line<f32>, side: f32) -> Line<f32>
    ensures { result ≡ area.mirrored side line }
{
    Line {
        start: side - line.end,
        end: side - line.start,
    }
}

// How far a box reaches along an axis, from its start edge.
fn reach(keeps_overflow: bool, overflow: Overflow, side: f32, content: Line<f32>) -> Line<f32>
    ensures { result ≡ area.reach keeps_overflow overflow side content }
{
    match overflow {
        Overflow::Visible if !keeps_overflow => Line {
            start: f32_min(0.0, content.start),
            end: f32_max(side, content.end),
        },
        _ => Line {
            start: 0.0,
            end: side,
        },
    }
}

fn is_empty(line: Line<f32>) -> bool
    ensures { result ≡ area.is_empty line }
{
    line.end <= line.start
}

// Wholly before the scroll origin in an axis.
fn is_unreachable(rect: Rect<f32>) -> bool
    ensures { result ≡ area.unreachable rect }
{
    rect.right <= 0.0 || rect.bottom <= 0.0
}

impl ItemBox {
    // From the corner of the container's padding box at its inline start and top, which is the scroll origin.
    fn corner(self, container: ContainerBox) -> Point<f32>
        ensures { result ≡ area.corner container self }
    {
        let x = match container.direction {
            Direction::Ltr => self.location.x - container.border.left,
            Direction::Rtl => {
                container.width - (self.location.x + self.size.width) - container.border.right
            }
        };
        Point {
            x,
            y: self.location.y - container.border.top,
        }
    }

    fn inline_overflow(self, container: ContainerBox) -> Line<f32>
        ensures { result ≡ area.inline_overflow container self }
    {
        let inline_start = match self.direction {
            Direction::Ltr => self.border.left,
            Direction::Rtl => self.border.right,
        };
        let content = shifted(
            self.scrollable_overflow_rect
                .axis_components(AbsoluteAxis::Horizontal),
            inline_start,
        );
        if self.direction == container.direction {
            content
        } else {
            mirrored(content, self.size.width)
        }
    }

    fn block_overflow(self) -> Line<f32>
        ensures { result ≡ area.block_overflow self }
    {
        shifted(
            self.scrollable_overflow_rect
                .axis_components(AbsoluteAxis::Vertical),
            self.border.top,
        )
    }

    // Nothing leaves a scroll container, nor a box that contains its overflow.
    fn keeps_overflow(self) -> bool
        ensures { result ≡ area.keeps_overflow self }
    {
        self.overflow.x.is_scroll_container()
            || self.overflow.y.is_scroll_container()
            || self.contain.contains_scrollable_overflow()
    }
}

// The rectangle that an item adds to its container's scrollable overflow area, from the container's scroll origin.
#[tactic(auto, using(crate::proofs::Reached::contributes))]
pub fn compute_scrollable_overflow_contribution(item: ItemBox, container: ContainerBox) -> Rect<f32>
    ensures value { result ≡ area.scrollable_overflow_contribution container item }
    ensures law { Contributes container item result }
{
    let keeps = item.keeps_overflow();
    let inline = item.inline_overflow(container);
    let inline_reach = reach(keeps, item.overflow.x, item.size.width, inline);
    let block_reach = reach(
        keeps,
        item.overflow.y,
        item.size.height,
        item.block_overflow(),
    );
    if is_empty(inline_reach) || is_empty(block_reach) {
        return Rect::ZERO;
    }
    let corner = item.corner(container);
    let across = shifted(inline_reach, corner.x);
    let down = shifted(block_reach, corner.y);
    let reached = Rect::new(across.start, across.end, down.start, down.end);
    if container.is_scroll_container && is_unreachable(reached) {
        return Rect::ZERO;
    }
    reached
}
