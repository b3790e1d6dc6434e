// Alignment of one axis of a described page, with what there is to say of it.
ghost use Rattle.std.specs.Prelude.{◌≡◌};
ghost use Rattle.geometry.specs.Shapes.{extent};
ghost use Rattle.tracks.specs.Laws.{WellPlaced};
ghost use Rattle.page_text.specs.Axes.{track_style, runs_back, shares, aligned_along, AxisInRange};

use crate::page_description::ContainerDescription;
use geometry::AbsoluteAxis;
use style::alignment::AlignContent;
use tracks::grid_track::GridTrack;
use tracks::track_alignment::TrackAlignment;
use tracks::walk::align_tracks;

// The space that an axis has, the alignment asked for, and what it came to.
#[derive(Clone, Copy)]
pub struct AxisAlignment {
    pub content_size: f32,
    pub asked: AlignContent,
    pub alignment: TrackAlignment,
}

impl ContainerDescription {
    fn track_style(&self, axis: AbsoluteAxis) -> AlignContent
        ensures { result ≡ track_style axis self.now }
    {
        match axis {
            AbsoluteAxis::Horizontal => self.justify_content,
            AbsoluteAxis::Vertical => self.align_content,
        }
    }

    fn axis_is_reversed(&self, axis: AbsoluteAxis) -> bool
        ensures { result ≡ runs_back axis self.now }
    {
        match axis {
            AbsoluteAxis::Horizontal => self.direction.is_rtl(),
            AbsoluteAxis::Vertical => false,
        }
    }
}

// Aligns the tracks of one axis, and says how they share its free space.
pub fn align_axis(
    container: &ContainerDescription,
    axis: AbsoluteAxis,
    tracks: &mut [GridTrack],
) -> AxisAlignment
    ensures offsets { tracks.new ≡ aligned_along axis container.now tracks.old }
    ensures said { result.alignment ≡ shares axis container.now tracks.old }
    ensures asked { result.asked ≡ track_style axis container.now }
    ensures placed { AxisInRange axis container.now tracks.old → WellPlaced (runs_back axis container.now) tracks.new }
    ensures content { result.content_size ≡ extent axis container.now.content_size }
{
    let content_size = container.content_size.get_abs(axis);
    let asked = container.track_style(axis);
    let reversed = container.axis_is_reversed(axis);
    let alignment = TrackAlignment::of(content_size, tracks, asked, reversed);
    let padding = container.padding.axis_components(axis);
    let border = container.border.axis_components(axis);
    align_tracks(content_size, padding, border, tracks, asked, reversed);
    AxisAlignment {
        content_size,
        asked,
        alignment,
    }
}
