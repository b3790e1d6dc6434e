// Reads a page description, line by line: `container`, `columns` and `rows`, with `#` before a comment.
ghost use Rattle.std.specs.Prelude.{◌≤◌, MatchResult};
ghost use Rattle.page_text.specs.Pages.{PageInRange, AtSomeLine};

use crate::draft::Draft;
use crate::page_description::PageDescription;
use crate::read_error::{Expected, ReadError, ReadFault};
use crate::source_text::SourceText;
use std::alloc::Global;

// The line, counted from 1, in which a byte stands.
fn line_of(input: &[u8], at: usize) -> usize
    ensures { 1 ≤ result }
{
    input
        .iter()
        .take(at)
        .filter(|byte| **byte == b'\n')
        .count()
        .saturating_add(1)
}

// Reads the description of a page from any bytes.
pub fn read_page(heap: Global, input: &[u8]) -> Result<PageDescription, ReadFault<'_>>
    ensures { MatchResult result PageInRange AtSomeLine }
{
    let text = std::str::from_utf8(input).map_err(|error| {
        ReadError::new(line_of(input, error.valid_up_to()), Expected::Utf8, None)
    })?;
    let mut draft = Draft::new(heap);
    let mut line = 0usize;
    for (i, said) in text.lines().enumerate() {
        line = i.saturating_add(1);
        draft.read_line(SourceText { line, text: said })?;
    }
    let page = draft.finish().map_err(|expected| ReadError::new(
        line.saturating_add(1),
        expected,
        None,
    ))?;
    Ok(page)
}
