// Why a page description cannot be read: the line, what was expected there, and what stands there.
ghost use Rattle.std.specs.Prelude.{◌≡◌};
ghost use Rattle.page_text.specs.declared.read_error.ReadFault.TheVariants.{Unreadable, OutOfMemory};

use std::alloc::AllocFailed;
use std::fmt;

// What was expected. Columns and rows, width and height are variants of their own, since each has its own words.
#[derive(Clone, Copy, Debug, PartialEq, Eq)]
pub enum Expected {
    Utf8,
    Statement,
    Declaration,
    Property,
    SecondTime,
    Size,
    Sides,
    Direction,
    TrackAlignment,
    Track,
    FreeTrack,
    OddColumns,
    OddRows,
    Width,
    Height,
    Columns,
    Rows,
}

impl fmt::Display for Expected {
    fn fmt<W: fmt::Write>(&self, f: &mut fmt::Formatter<W>) -> fmt::Result {
        let words = match self {
            Expected::Utf8 => "text in UTF-8",
            Expected::Statement => "container, columns or rows",
            Expected::Declaration => "a declaration, as width: 640",
            Expected::Property => {
                "width, height, padding, border, direction, justify-content or align-content"
            }
            Expected::SecondTime => "each property once",
            Expected::Size => "a number from 0 to 1048576 of at most seven digits",
            Expected::Sides => "one to four numbers from 0 to 1048576 of at most seven digits",
            Expected::Direction => "ltr or rtl",
            Expected::TrackAlignment => {
                "start, end, flex-start, flex-end or center, perhaps after safe or unsafe, or stretch, space-between, space-around or space-evenly"
            }
            Expected::Track =>
                "a track size from 0 to 1048576 of at most seven digits, or one in collapsed(..)",
            Expected::FreeTrack => "at most 513 tracks and gutters on an axis",
            Expected::OddColumns =>
                "an odd number of columns: a gutter, then a track and a gutter each",
            Expected::OddRows => "an odd number of rows: a gutter, then a track and a gutter each",
            Expected::Width => "the width of the container",
            Expected::Height => "the height of the container",
            Expected::Columns => "columns",
            Expected::Rows => "rows",
        };
        f.write_str(words)
    }
}

// One line of the description, counted from 1, and the words there that do not fit, if there are any.
#[derive(Clone, Copy, Debug, PartialEq, Eq)]
pub struct ReadError<'a> {
    pub line: usize,
    pub expected: Expected,
    pub found: Option<&'a str>,
}

impl<'a> ReadError<'a> {
    pub(crate) fn new(line: usize, expected: Expected, found: Option<&'a str>) -> ReadError<'a>
        ensures { result.line ≡ line }
    {
        ReadError {
            line,
            expected,
            found,
        }
    }
}

impl<'a> fmt::Display for ReadError<'a> {
    fn fmt<W: fmt::Write>(&self, f: &mut fmt::Formatter<W>) -> fmt::Result {
        let line = self.line;
        let expected = self.expected;
        match self.found {
            Some(found) => write!(f, "line {line}: expected {expected}, found {found:?}"),
            None => write!(f, "line {line}: expected {expected}"),
        }
    }
}

// Why there is no page: it cannot be read, or there is no memory for it.
#[derive(Clone, Copy, Debug, PartialEq, Eq)]
pub enum ReadFault<'a> {
    Unreadable(ReadError<'a>),
    OutOfMemory,
}

impl<'a> fmt::Display for ReadFault<'a> {
    fn fmt<W: fmt::Write>(&self, f: &mut fmt::Formatter<W>) -> fmt::Result {
        match self {
            ReadFault::Unreadable(error) => write!(f, "{error}"),
            ReadFault::OutOfMemory => f.write_str("no memory for the page"),
        }
    }
}

impl<'a> From<ReadError<'a>> for ReadFault<'a> {
    ghost from_gives = { λ e f. f ≡ Unreadable e };

    fn from(error: ReadError<'a>) -> ReadFault<'a> {
        ReadFault::Unreadable(error)
    }
}

impl<'a, T: Drop> From<AllocFailed<T>> for ReadFault<'a> {
    ghost from_gives = { λ _ f. f ≡ OutOfMemory };

    fn from(_refused: AllocFailed<T>) -> ReadFault<'a> {
        ReadFault::OutOfMemory
    }
}
