// What is said of an axis: how its free space is shared, and where each track stands.
use crate::keyword_name::content_keyword_name;
use geometry::AbsoluteAxis;
use page_text::axis_alignment::AxisAlignment;
use std::fmt;
use style::alignment::{AlignContent, AlignmentSafety};
use tracks::grid_track::GridTrack;
use tracks::track_alignment::TrackAlignment;

// One axis after alignment.
#[derive(Clone, Copy)]
pub struct AxisReport<'a> {
    pub axis: AbsoluteAxis,
    pub alignment: AxisAlignment,
    pub tracks: &'a [GridTrack],
}

// A function and no `Display`: the type is of `style`, which knows nothing of a report, and `Default` has no word.
fn overflow_position(safety: AlignmentSafety) -> &'static str {
    match safety {
        AlignmentSafety::Default => "",
        AlignmentSafety::Safe => "safe ",
        AlignmentSafety::Unsafe => "unsafe ",
    }
}

// A line of the table of tracks.
#[derive(Clone, Copy)]
struct TrackLine {
    index: usize,
    track: GridTrack,
}

impl TrackLine {
    // What a track is: even indices are gutters.
    fn kind(self) -> &'static str {
        if self.track.is_collapsed {
            "collapsed"
        } else if self.index % 2 == 0 {
            "gutter"
        } else {
            "track"
        }
    }
}

impl fmt::Display for TrackLine {
    fn fmt<W: fmt::Write>(&self, f: &mut fmt::Formatter<W>) -> fmt::Result {
        let index = self.index;
        let offset = self.track.offset;
        let size = self.track.base_size;
        let end = offset + size;
        let kind = self.kind();
        writeln!(f, "  {index:>5} {offset:>12} {size:>12} {end:>12}  {kind}")
    }
}

// The alignment asked for and the one left, with the shares.
#[derive(Clone, Copy)]
struct ShareLines {
    asked: AlignContent,
    alignment: TrackAlignment,
}

impl fmt::Display for ShareLines {
    fn fmt<W: fmt::Write>(&self, f: &mut fmt::Formatter<W>) -> fmt::Result {
        let safety = overflow_position(self.asked.safety);
        let asked = content_keyword_name(self.asked.keyword);
        let left = content_keyword_name(self.alignment.keyword);
        let first_share = self.alignment.first_share;
        let gap = self.alignment.gap;
        writeln!(f, "{safety}{asked}; after fallback and reversal {left}")?;
        writeln!(f, "  first share {first_share}, gap {gap}")
    }
}

impl<'a> fmt::Display for AxisReport<'a> {
    fn fmt<W: fmt::Write>(&self, f: &mut fmt::Formatter<W>) -> fmt::Result {
        let (name, property) = match self.axis {
            AbsoluteAxis::Horizontal => ("columns", "justify-content"),
            AbsoluteAxis::Vertical => ("rows", "align-content"),
        };
        let content = self.alignment.content_size;
        let alignment = self.alignment.alignment;
        let used = alignment.used_size;
        let free = alignment.free_space;
        let live = alignment.num_tracks;
        let shares = ShareLines {
            asked: self.alignment.asked,
            alignment,
        };
        writeln!(
            f,
            "{name}: content {content}, used {used}, free {free}, {live} live"
        )?;
        write!(f, "  {property}: {shares}")?;
        writeln!(f, "  index       offset         size          end")?;
        for (index, track) in self.tracks.iter().enumerate() {
            let line = TrackLine {
                index,
                track: *track,
            };
            write!(f, "{line}")?;
        }
        Ok(())
    }
}
