// The walk along the tracks of one axis, which gives each its offset.
ghost use Rattle.std.specs.Prelude.{◌≡◌, ◌%◌, ◌==◌, length};
ghost use Rattle.tracks.specs.Tracks.{plus, positioned, onward, walked, start_walk, starts_odd, in_order, aligned};
ghost use Rattle.tracks.specs.Laws.{Laws};

use crate::grid_track::GridTrack;
use crate::track_alignment::TrackAlignment;
use geometry::Line;
use style::alignment::AlignContent;

// Where the walk stands: the next free place, and the space that is left before the next live track, which after the first is the gap.
#[derive(Clone, Copy)]
pub struct TrackWalk {
    place: f32,
    share: f32,
    gap: f32,
}

impl TrackWalk {
    // The walk before its first track. Where there is no live track to stand before, the origin takes the first share.
    fn start(origin: f32, alignment: TrackAlignment) -> TrackWalk
        ensures { result ≡ start_walk origin alignment }
    {
        let place = if alignment.num_tracks == 0 {
            origin + alignment.first_share
        } else {
            origin
        };
        TrackWalk {
            place,
            share: alignment.first_share,
            gap: alignment.gap,
        }
    }

    fn position_track(&mut self, index: usize, track: &mut GridTrack)
        ensures track { track.new ≡ positioned (index % 2 == 1) self.old track.old }
        ensures walk { self.new ≡ onward (index % 2 == 1) self.old track.old }
    {
        if track.is_live(index) {
            self.place += self.share;
            self.share = self.gap;
        }
        track.offset = self.place;
        self.place += track.base_size;
    }
}

// Along a reversed axis the walk begins at the track that is stored last.
fn walk_tracks(tracks: &mut [GridTrack], start: TrackWalk, axis_is_reversed: bool)
    ensures { tracks.new ≡ in_order axis_is_reversed (walked (starts_odd axis_is_reversed (length tracks.old)) start (in_order axis_is_reversed tracks.old)) }
{
    let mut walk = start;
    // By index: after `iter_mut().rev()` a proof knows no more of the tracks than how many they are.
    for step in 0..tracks.len() {
        let index = if axis_is_reversed {
            tracks.len() - 1 - step
        } else {
            step
        };
        walk.position_track(index, &mut tracks[index]);
    }
}

// Gives each track of one axis its offset, by `justify-content` for columns and by `align-content` for rows.
pub fn align_tracks(
    grid_container_content_box_size: f32,
    padding: Line<f32>,
    border: Line<f32>,
    tracks: &mut [GridTrack],
    track_alignment_style: AlignContent,
    axis_is_reversed: bool,
)
    ensures value { tracks.new ≡ aligned grid_container_content_box_size (plus padding.start border.start) track_alignment_style axis_is_reversed tracks.old }
    ensures laws { Laws grid_container_content_box_size padding border track_alignment_style axis_is_reversed tracks.old tracks.new }
{
    let alignment = TrackAlignment::of(
        grid_container_content_box_size,
        tracks,
        track_alignment_style,
        axis_is_reversed,
    );
    let origin = padding.start + border.start;
    let start = TrackWalk::start(origin, alignment);
    walk_tracks(tracks, start, axis_is_reversed);
}
