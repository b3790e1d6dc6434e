// The words of CSS that a page description uses.
ghost use Rattle.std.specs.Prelude.{◌≡◌, ℕ, List};
ghost use Rattle.page_words.specs.Keywords.{meaning_of, properties, directions, overflow_positions, content_keywords, positional};

use style::alignment::{AlignContentKeyword, AlignmentSafety, Direction};

// What is named by a word: `words` has each word with its meaning. Not `FromStr`, since three of the four types are another crate's.
pub trait Keyword: Sized {
    ghost words: { List (List ℕ × Self) };

    fn named(word: &str) -> Option<Self>
        ensures { result ≡ meaning_of word.now words };
}

// A property of the container.
#[derive(Clone, Copy, Debug, PartialEq, Eq)]
pub enum Property {
    Width,
    Height,
    Padding,
    Border,
    Direction,
    JustifyContent,
    AlignContent,
}

impl Keyword for Property {
    ghost words = { properties };

    fn named(word: &str) -> Option<Property> {
        match word {
            "width" => Some(Property::Width),
            "height" => Some(Property::Height),
            "padding" => Some(Property::Padding),
            "border" => Some(Property::Border),
            "direction" => Some(Property::Direction),
            "justify-content" => Some(Property::JustifyContent),
            "align-content" => Some(Property::AlignContent),
            _ => None,
        }
    }
}

impl Keyword for Direction {
    ghost words = { directions };

    fn named(word: &str) -> Option<Direction> {
        match word {
            "ltr" => Some(Direction::Ltr),
            "rtl" => Some(Direction::Rtl),
            _ => None,
        }
    }
}

// An overflow position.
impl Keyword for AlignmentSafety {
    ghost words = { overflow_positions };

    fn named(word: &str) -> Option<AlignmentSafety> {
        match word {
            "safe" => Some(AlignmentSafety::Safe),
            "unsafe" => Some(AlignmentSafety::Unsafe),
            _ => None,
        }
    }
}

impl Keyword for AlignContentKeyword {
    ghost words = { content_keywords };

    fn named(word: &str) -> Option<AlignContentKeyword> {
        match word {
            "normal" => Some(AlignContentKeyword::Normal),
            "start" => Some(AlignContentKeyword::Start),
            "end" => Some(AlignContentKeyword::End),
            "flex-start" => Some(AlignContentKeyword::FlexStart),
            "flex-end" => Some(AlignContentKeyword::FlexEnd),
            "center" => Some(AlignContentKeyword::Center),
            "stretch" => Some(AlignContentKeyword::Stretch),
            "space-between" => Some(AlignContentKeyword::SpaceBetween),
            "space-evenly" => Some(AlignContentKeyword::SpaceEvenly),
            "space-around" => Some(AlignContentKeyword::SpaceAround),
            _ => None,
        }
    }
}

// Whether an overflow position may stand before the keyword.
pub fn is_positional(keyword: AlignContentKeyword) -> bool
    ensures { result ≡ positional keyword }
{
    matches!(
        keyword,
        AlignContentKeyword::Start
            | AlignContentKeyword::End
            | AlignContentKeyword::FlexStart
            | AlignContentKeyword::FlexEnd
            | AlignContentKeyword::Center
    )
}
