// What has been read of a page: a container and the tracks of both axes, to which each line adds.
ghost use Rattle.std.specs.Prelude.{◌≡◌, IfErr, if◌then◌else◌};
ghost use Rattle.std.proofs.Props.{props};
ghost use Rattle.page_text.specs.WrittenTracks.{TracksInRange};

use crate::container_text::ContainerText;
use crate::page_description::PageDescription;
use crate::read_error::{Expected, ReadFault};
use crate::source_text::SourceText;
use std::alloc::Global;
use tracks::grid_track::GridTrack;

// What has been read so far.
#[derive(Drop)]
pub(crate) struct Draft {
    container: ContainerText,
    columns: Vec<GridTrack>,
    rows: Vec<GridTrack>,
    ghost columns_so_far: { TracksInRange columns.items } by { Prim.hlevel props },
    ghost rows_so_far: { TracksInRange rows.items } by { Prim.hlevel props },
}

// An error where a page lacks what it is to have.
fn check(met: bool, expected: Expected) -> Result<(), Expected>
    ensures { result ≡ (if met then Ok tt else Err expected) }
{
    if met { Ok(()) } else { Err(expected) }
}

impl Draft {
    ghost use Rattle.page_text.specs.Pages.{Stated, draft_finished, AtLine};

    pub(crate) fn new(heap: Global) -> Draft {
        Draft {
            container: ContainerText::EMPTY,
            columns: Vec::new(heap),
            rows: Vec::new(heap),
        }
    }

    // Takes a statement, with the rest of its line.
    fn read_statement<'a>(
        &mut self,
        statement: &'a str,
        rest: SourceText<'a>,
    ) -> Result<(), ReadFault<'a>>
        ensures stated { Stated statement.now rest.entry.text.now self.old self.new result }
        ensures place { IfErr result (AtLine rest.entry.line) }
    {
        match statement {
            "" => Ok(()),
            "container" => Ok(rest.read_declarations(&mut self.container)?),
            "columns" => rest.read_tracks(&mut self.columns),
            "rows" => rest.read_tracks(&mut self.rows),
            _ => Err(rest.part(statement).refusal(Expected::Statement).into()),
        }
    }

    // Takes a line: what stands before `#`, its first word and the rest.
    pub(crate) fn read_line<'a>(&mut self, line: SourceText<'a>) -> Result<(), ReadFault<'a>>
        ensures { IfErr result (AtLine line.entry.line) }
    {
        let said = line
            .text
            .split_once('#')
            .map_or(line.text, |(before, _)| before)
            .trim();
        let (statement, rest) = said.split_once([' ', '\t']).unwrap_or((said, ""));
        self.read_statement(statement, line.part(rest))
    }

    // The page, once nothing more comes.
    pub(crate) fn finish(self) -> Result<PageDescription, Expected>
        ensures { result ≡ draft_finished self }
    {
        let Draft {
            container,
            columns,
            rows,
        } = self;
        let container = container.finish()?;
        check(!columns.is_empty(), Expected::Columns)?;
        check(!rows.is_empty(), Expected::Rows)?;
        check(columns.len() % 2 == 1, Expected::OddColumns)?;
        check(rows.len() % 2 == 1, Expected::OddRows)?;
        Ok(PageDescription {
            container,
            columns,
            rows,
        })
    }
}
