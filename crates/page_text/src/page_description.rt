// A page as it is described: its container, and the tracks of both axes.
use geometry::{Rect, Size};
use style::alignment::{AlignContent, Direction};
use tracks::grid_track::GridTrack;

// The container: the size of its content box, what surrounds that, and how its tracks are aligned.
#[derive(Clone, Copy)]
pub struct ContainerDescription {
    pub content_size: Size<f32>,
    pub padding: Rect<f32>,
    pub border: Rect<f32>,
    pub direction: Direction,
    pub justify_content: AlignContent,
    pub align_content: AlignContent,
}

#[derive(Drop)]
pub struct PageDescription {
    pub container: ContainerDescription,
    pub columns: Vec<GridTrack>,
    pub rows: Vec<GridTrack>,
}
