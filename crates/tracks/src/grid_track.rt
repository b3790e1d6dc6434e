// A track or gutter of one axis.
ghost use Rattle.std.specs.Prelude.{◌≡◌, ◌*◌, ◌≤◌, ◌%◌, ◌==◌, false, length};
ghost use Rattle.tracks.specs.Tracks.{live, used_size_of, live_count};

// Tracks of an odd index lie between gutters, which have the even ones.
#[derive(Clone, Copy)]
pub struct GridTrack {
    pub is_collapsed: bool,
    pub offset: f32,
    pub base_size: f32,
}

impl GridTrack {
    // Whether this track, which has the index given, is live: not a gutter, and not collapsed.
    pub(crate) fn is_live(&self, index: usize) -> bool
        ensures { result ≡ live (index % 2 == 1) self.now }
    {
        index % 2 == 1 && !self.is_collapsed
    }
}

// The sum of all base sizes, in storage order.
pub fn used_size(tracks: &[GridTrack]) -> f32
    ensures { result ≡ used_size_of tracks.now }
{
    // Not `sum`, which begins at -0.0.
    tracks
        .iter()
        .fold(0.0, |used, track| used + track.base_size)
}

// How many tracks are live.
pub fn live_count(tracks: &[GridTrack]) -> usize
    ensures value { result ≡ live_count false tracks.now }
    ensures bound { 2 * result ≤ length tracks.now }
{
    // Not `filter` and `count`, which took twice as long. A slice is too short for the sum to saturate.
    tracks.iter().enumerate().fold(
        0usize,
        |n, (index, track)| n.saturating_add(usize::from(track.is_live(index))),
    )
}
