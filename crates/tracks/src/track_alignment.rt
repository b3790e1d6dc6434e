// How the tracks of one axis share the free space of their container.
ghost use Rattle.std.specs.Prelude.{◌≡◌};
ghost use Rattle.tracks.specs.Tracks.{track_alignment};

use crate::distribution::{Distribution, apply_alignment_fallback};
use crate::grid_track::{GridTrack, live_count, used_size};
use style::alignment::{AlignContent, AlignContentKeyword};

// What an axis comes to: the space used and free, the live tracks, the keyword left after fallback and reversal, and the shares.
#[derive(Clone, Copy)]
pub struct TrackAlignment {
    pub used_size: f32,
    pub free_space: f32,
    pub num_tracks: usize,
    pub keyword: AlignContentKeyword,
    pub first_share: f32,
    pub gap: f32,
}

impl TrackAlignment {
    pub fn of(
        content_size: f32,
        tracks: &[GridTrack],
        style: AlignContent,
        axis_is_reversed: bool,
    ) -> TrackAlignment
        ensures { result ≡ track_alignment content_size style axis_is_reversed tracks.now }
    {
        let used_size = used_size(tracks);
        let free_space = content_size - used_size;
        let num_tracks = live_count(tracks);
        let keyword = apply_alignment_fallback(free_space, num_tracks, style);
        let keyword = if axis_is_reversed {
            keyword.reversed()
        } else {
            keyword
        };
        let distribution = Distribution {
            free_space,
            num_items: num_tracks,
            keyword,
        };
        TrackAlignment {
            used_size,
            free_space,
            num_tracks,
            keyword,
            first_share: distribution.first_share(),
            gap: distribution.gap(),
        }
    }
}
