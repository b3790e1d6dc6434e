// The tracks and gutters of an axis: a size each, or a size in `collapsed(..)`.
ghost use Rattle.std.specs.Prelude.{◌≡◌, IfSome};
ghost use Rattle.page_text.specs.WrittenTracks.{unplaced, TrackRead, TrackInRange};

use page_words::size::read_size;
use tracks::grid_track::GridTrack;

// The most tracks and gutters that an axis may have.
pub(crate) const MAX_TRACKS: usize = 513;

fn unplaced(is_collapsed: bool, base_size: f32) -> GridTrack
    ensures { result ≡ unplaced is_collapsed base_size }
{
    GridTrack {
        is_collapsed,
        offset: 0.0,
        base_size,
    }
}

// A size is a track; `collapsed(8)` is a collapsed one of size 8.
pub(crate) fn read_track(word: &str) -> Option<GridTrack>
    ensures read { TrackRead word.now result }
    ensures range { IfSome result TrackInRange }
{
    match word.strip_prefix("collapsed(") {
        Some(rest) => {
            let inside = rest.strip_suffix(")")?;
            read_size(inside).map(|size| unplaced(true, size))
        }
        None => read_size(word).map(|size| unplaced(false, size)),
    }
}
