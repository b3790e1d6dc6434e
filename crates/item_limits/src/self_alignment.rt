// The alignment of an item within its area along one axis, per CSS Box Alignment 3.
ghost use Rattle.std.specs.Prelude.{◌≡◌};
ghost use Rattle.std.specs.Option.{unwrap_or};
ghost use Rattle.item_limits.specs.SelfAlignment.{self_alignment, ContainerRelative, normal_fills};

use geometry::AbsoluteAxis;
use style::alignment::{AlignItems, Direction};

// The item's own alignment, else the container's; `self-start` and `self-end` by the direction of the item. The inline axis is the horizontal one.
// Plain arguments: a struct of the five would have no other use.
#[tactic(auto, using(crate::proofs::SelfAlignment::container_relative))]
pub fn self_alignment(
    own: Option<AlignItems>,
    container: AlignItems,
    item_direction: Direction,
    container_direction: Direction,
    axis: AbsoluteAxis,
) -> AlignItems
    ensures alignment { result ≡ self_alignment own container item_direction container_direction axis }
    ensures law { ContainerRelative (unwrap_or own container) result }
{
    let alignment = own.unwrap_or(container);
    let is_inline = axis == AbsoluteAxis::Horizontal;
    alignment.resolve_self_relative(item_direction, container_direction, is_inline)
}

// Where `normal` behaves as `stretch`, per CSS Grid 1, section 6.2; elsewhere it behaves as `start`. In flow a box with a ratio takes its height from its width.
// Plain arguments: a method of an `ItemAxis` would ask for ten parts where four count.
pub fn normal_fills(
    axis: AbsoluteAxis,
    is_out_of_flow: bool,
    is_replaced: bool,
    has_ratio: bool,
) -> bool
    ensures { result ≡ normal_fills axis is_out_of_flow is_replaced has_ratio }
{
    match axis {
        AbsoluteAxis::Horizontal => !is_replaced,
        AbsoluteAxis::Vertical => !is_replaced && (is_out_of_flow || !has_ratio),
    }
}
