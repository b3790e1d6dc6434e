// The names of the keywords in a report.
ghost use Rattle.std.specs.Prelude.{◌≡◌, Some};
ghost use Rattle.page_words.specs.Keywords.{meaning_of, content_keywords};

use style::alignment::AlignContentKeyword;

// The name that reads back as the keyword. A function and no `Display`: the type is of `style`, which knows nothing of a page's words.
pub(crate) fn content_keyword_name(keyword: AlignContentKeyword) -> &'static str
    ensures { meaning_of result.now content_keywords ≡ Some keyword }
{
    match keyword {
        AlignContentKeyword::Normal => "normal",
        AlignContentKeyword::Start => "start",
        AlignContentKeyword::End => "end",
        AlignContentKeyword::FlexStart => "flex-start",
        AlignContentKeyword::FlexEnd => "flex-end",
        AlignContentKeyword::Center => "center",
        AlignContentKeyword::Stretch => "stretch",
        AlignContentKeyword::SpaceBetween => "space-between",
        AlignContentKeyword::SpaceEvenly => "space-evenly",
        AlignContentKeyword::SpaceAround => "space-around",
    }
}
