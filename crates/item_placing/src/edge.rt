// The edge of its alignment container that an item is aligned to, per CSS Box Alignment 3.
ghost use Rattle.std.specs.Prelude.{◌≡◌};
ghost use Rattle.item_placing.specs.Edges.{aligned_edge, overflow_position, keyword_on_overflow};

use crate::direction::flow_relative;
use geometry::Line;
use style::alignment::{AlignItems, AlignItemsKeyword, AlignmentSafety, Direction};

// A physical edge of the alignment container, or the middle between the two.
#[derive(Clone, Copy)]
pub enum Edge {
    First,
    Last,
    Middle,
}

// The edge that a keyword names. A baseline counts as the start; `self-start` and `self-end` as those of an item that runs as its container does.
pub(crate) fn aligned_edge(keyword: AlignItemsKeyword, direction: Direction) -> Edge
    ensures { result ≡ aligned_edge keyword direction }
{
    let physical = Line {
        start: Edge::First,
        end: Edge::Last,
    };
    let edges = flow_relative(physical, direction);
    match keyword {
        AlignItemsKeyword::Center => Edge::Middle,
        AlignItemsKeyword::End | AlignItemsKeyword::FlexEnd | AlignItemsKeyword::SelfEnd =>
            edges.end,
        _ => edges.start,
    }
}

// Between two insets an alignment is safe unless it says otherwise, per CSS Positioned Layout 3.
pub(crate) fn overflow_position(safety: AlignmentSafety, between_insets: bool) -> AlignmentSafety
    ensures { result ≡ overflow_position safety between_insets }
{
    match safety {
        AlignmentSafety::Default if between_insets => AlignmentSafety::Safe,
        other => other,
    }
}

// The keyword that counts: a safe alignment whose subject overflows its container gives way to start.
pub fn resolve_self_alignment_safety(alignment: AlignItems, overflows: bool) -> AlignItemsKeyword
    ensures { result ≡ keyword_on_overflow alignment overflows }
{
    if alignment.is_safe() && overflows {
        AlignItemsKeyword::Start
    } else {
        alignment.keyword
    }
}
