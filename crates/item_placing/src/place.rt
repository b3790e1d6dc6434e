// Where an item stands within its area along one axis.
ghost use Rattle.std.specs.Prelude.{◌≡◌};
ghost use Rattle.item_placing.specs.Laws.{Placed};
ghost use Rattle.item_placing.specs.Places.{overflows, edge_by_alignment, edge_of, placed};

use crate::area_item::AreaItem;
use crate::block::length_of;
use crate::edge::{Edge, aligned_edge, overflow_position, resolve_self_alignment_safety};
use geometry::Line;

impl AreaItem {
    // The item and the margins that are set are longer than the block.
    fn overflows(self) -> bool
        ensures { result ≡ overflows self }
    {
        length_of(self.block()) < self.size + self.set_margin_sum()
    }

    fn edge_by_alignment(self) -> Edge
        ensures { result ≡ edge_by_alignment self }
    {
        let safety = overflow_position(self.alignment.safety, self.insets().both_set());
        let keyword = resolve_self_alignment_safety(
            self.alignment.with_safety(safety),
            self.overflows(),
        );
        aligned_edge(keyword, self.axis_direction())
    }

    // A lone inset holds the item at its own edge; else the alignment says where it stands.
    fn edge(self) -> Edge
        ensures { result ≡ edge_of self }
    {
        let inset = self.insets();
        match (inset.start, inset.end) {
            (Some(_), None) => Edge::First,
            (None, Some(_)) => Edge::Last,
            _ => self.edge_by_alignment(),
        }
    }
}

// The place of the border box along the axis, and the margins that the item uses.
pub fn align_item_within_area(item: AreaItem) -> (f32, Line<f32>)
    ensures value { result ≡ placed item }
    ensures laws { Placed item result }
{
    let block = item.block();
    let margin = item.used_margins();
    let offset = match item.edge() {
        Edge::First => block.start + margin.start,
        Edge::Last => block.end - item.size - margin.end,
        Edge::Middle => (block.end - item.size + margin.start - margin.end + block.start) / 2.0,
    };
    (item.area.start + offset, margin)
}
