// Words of the description, with the line in which they stand, and what is read from them: declarations and tracks.
ghost use Rattle.std.specs.Prelude.{◌≡◌, IfErr, OnOk};
ghost use Rattle.page_text.specs.WrittenTracks.{TracksInRange, GoesOn};
ghost use Rattle.page_text.specs.Pages.{AtLine};

use crate::container_text::ContainerText;
use crate::read_error::{Expected, ReadError, ReadFault};
use crate::track_text::{MAX_TRACKS, read_track};
use tracks::grid_track::GridTrack;

// A line, counted from 1, or words of it.
#[derive(Clone, Copy)]
pub(crate) struct SourceText<'a> {
    pub(crate) line: usize,
    pub(crate) text: &'a str,
}

impl<'a> SourceText<'a> {
    // Words of the same line.
    pub(crate) fn part(self, text: &'a str) -> SourceText<'a>
        ensures line { result.line ≡ self.entry.line }
        ensures text { result.text.now ≡ text.now }
    {
        SourceText {
            line: self.line,
            text,
        }
    }

    // Something else was expected in place of these words.
    pub(crate) fn refusal(self, expected: Expected) -> ReadError<'a>
        ensures { result.line ≡ self.entry.line }
    {
        ReadError::new(self.line, expected, Some(self.text))
    }

    // Adds the tracks that stand here to those of their axis.
    pub(crate) fn read_tracks(self, tracks: &mut Vec<GridTrack>) -> Result<(), ReadFault<'a>>
        requires { TracksInRange tracks.old.items }
        ensures added { OnOk result (GoesOn self.entry.text.now tracks.old.items tracks.new.items) }
        ensures range { TracksInRange tracks.new.items }
        ensures place { IfErr result (AtLine self.entry.line) }
    {
        for word in self.text.split_whitespace() {
            let track = read_track(word).ok_or(self.part(word).refusal(Expected::Track))?;
            if tracks.len() >= MAX_TRACKS {
                return Err(self.part(word).refusal(Expected::FreeTrack).into());
            }
            tracks.push(track)?;
        }
        Ok(())
    }

    fn read_declaration(self, container: &mut ContainerText) -> Result<(), ReadError<'a>>
        ensures { IfErr result (λ e. e.line ≡ self.entry.line) }
    {
        let (property, value) = self
            .text
            .split_once(':')
            .ok_or(self.refusal(Expected::Declaration))?;
        let taken = container.declare(property.trim(), value.trim());
        // Not by `refusal`: what a closure that calls it answers is not known, and so not the line.
        taken.map_err(|expected| ReadError::new(self.line, expected, Some(self.text)))
    }

    // Takes the declarations that stand here.
    pub(crate) fn read_declarations(
        self,
        container: &mut ContainerText,
    ) -> Result<(), ReadError<'a>>
        ensures { IfErr result (λ e. e.line ≡ self.entry.line) }
    {
        for declaration in self
            .text
            .split(';')
            .map(str::trim)
            .filter(|text| !text.is_empty())
        {
            self.part(declaration).read_declaration(container)?;
        }
        Ok(())
    }
}
