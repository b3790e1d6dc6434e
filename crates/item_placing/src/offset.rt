// Relative positioning, per CSS Positioned Layout 3.
ghost use Rattle.std.specs.Prelude.{◌≡◌};
ghost use Rattle.item_placing.specs.Offsets.{inset_offset, relative_offset};

use crate::direction::flow_relative;
use geometry::Line;
use style::alignment::Direction;
use style::modes::Position;

// The inset at the start of the axis wins over the one at its end.
fn inset_offset(inset: Line<Option<f32>>, direction: Direction) -> f32
    ensures { result ≡ inset_offset direction inset.start inset.end }
{
    let offsets = Line {
        start: inset.start,
        end: inset.end.map(|end| -end),
    };
    let Line { start, end } = flow_relative(offsets, direction);
    start.or(end).unwrap_or(0.0)
}

// How far its insets move an item along one axis; no other position than `relative` moves. Vertically the direction is `Ltr`.
pub fn relative_offset(position: Position, inset: Line<Option<f32>>, direction: Direction) -> f32
    ensures { result ≡ relative_offset position inset direction }
{
    match position {
        Position::Relative => inset_offset(inset, direction),
        _ => 0.0,
    }
}
