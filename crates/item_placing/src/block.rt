// The alignment container of an item, along one axis.
ghost use Rattle.std.specs.Prelude.{◌≡◌};
ghost use Rattle.item_placing.specs.Blocks.{area_size, block_within, insets_of, block_of, length_of};

use crate::area_item::AreaItem;
use crate::direction::flow_relative;
use geometry::Line;
use number::f32_max;
use style::alignment::Direction;

// An area whose end comes before its start is empty.
fn area_size(area: Line<f32>) -> f32
    ensures { result ≡ area_size area }
{
    f32_max(length_of(area), 0.0)
}

pub(crate) fn length_of(block: Line<f32>) -> f32
    ensures { result ≡ length_of block }
{
    block.end - block.start
}

// What the insets leave of a size, from its start; two insets that cross leave nothing, at the start of the axis.
fn block_within(size: f32, inset: Line<Option<f32>>, direction: Direction) -> Line<f32>
    ensures { result ≡ block_within size inset direction }
{
    let block = Line {
        start: inset.start.unwrap_or(0.0),
        end: inset.end.map_or(size, |inset| size - inset),
    };
    if inset.both_set() && block.end < block.start {
        let edge = flow_relative(block, direction).start;
        Line {
            start: edge,
            end: edge,
        }
    } else {
        block
    }
}

impl AreaItem {
    // The insets that bound the block: in flow there are none.
    pub(crate) fn insets(self) -> Line<Option<f32>>
        ensures { result ≡ insets_of self }
    {
        if self.position.is_out_of_flow() {
            self.inset
        } else {
            Line {
                start: None,
                end: None,
            }
        }
    }

    // The block that the item is aligned in, measured from the start of its area.
    pub(crate) fn block(self) -> Line<f32>
        ensures { result ≡ block_of self }
    {
        block_within(area_size(self.area), self.insets(), self.axis_direction())
    }
}
