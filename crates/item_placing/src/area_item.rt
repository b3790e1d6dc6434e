// One axis of an item that is to be placed in its area.
use geometry::{AbsoluteAxis, Line};
use style::alignment::{AlignItems, Direction};
use style::modes::Position;

// The sides of area, insets and margins are physical: left and right, top and bottom. An automatic inset or margin is absent.
#[derive(Clone, Copy)]
pub struct AreaItem {
    pub area: Line<f32>,
    pub alignment: AlignItems,
    // Of the border box.
    pub size: f32,
    pub position: Position,
    pub inset: Line<Option<f32>>,
    pub margin: Line<Option<f32>>,
    // What baseline alignment adds above the item; 0 horizontally.
    pub baseline_shim: f32,
    pub axis: AbsoluteAxis,
    // The container's: it counts horizontally alone.
    pub direction: Direction,
}
