// The declarations of a container: each property at most once, in any order.
ghost use Rattle.std.specs.Prelude.{◌≡◌, IfSome};
ghost use Rattle.std.proofs.Props.{props};
ghost use Rattle.page_text.specs.Places.{filled, filling};
ghost use Rattle.page_text.specs.Ranges.{SizeInRange, SidesInRange, Aligns};

use crate::page_description::ContainerDescription;
use crate::read_error::Expected;
use geometry::{Rect, Size};
use page_words::keyword::{Keyword, Property, is_positional};
use page_words::size::read_size;
use style::alignment::{AlignContent, AlignContentKeyword, AlignmentSafety, Direction};

// What has been said of a container so far.
#[derive(Clone, Copy)]
pub(crate) struct ContainerText {
    width: Option<f32>,
    height: Option<f32>,
    padding: Option<Rect<f32>>,
    border: Option<Rect<f32>>,
    direction: Option<Direction>,
    justify_content: Option<AlignContent>,
    align_content: Option<AlignContent>,
    ghost width_said: { IfSome width SizeInRange } by { Prim.hlevel props },
    ghost height_said: { IfSome height SizeInRange } by { Prim.hlevel props },
    ghost padding_said: { IfSome padding SidesInRange } by { Prim.hlevel props },
    ghost border_said: { IfSome border SidesInRange } by { Prim.hlevel props },
    ghost columns_said: { IfSome justify_content Aligns } by { Prim.hlevel props },
    ghost rows_said: { IfSome align_content Aligns } by { Prim.hlevel props },
}

// The size that a word is, or the side that it would equal where there is none.
fn read_side(word: Option<&str>, other: f32) -> Option<f32>
    ensures { SizeInRange other → IfSome result SizeInRange }
{
    word.map_or(Some(other), read_size)
}

// One to four numbers as CSS reads them: all sides; top and bottom, left and right; top, left and right, bottom; top, right, bottom, left.
fn read_sides(value: &str) -> Option<Rect<f32>>
    ensures { IfSome result SidesInRange }
{
    let mut words = value.split_whitespace();
    let top = read_size(words.next()?)?;
    let right = read_side(words.next(), top)?;
    let bottom = read_side(words.next(), top)?;
    let left = read_side(words.next(), right)?;
    words.next().is_none().then_some(Rect {
        left,
        right,
        top,
        bottom,
    })
}

// A keyword, with an overflow position before it where that is allowed. `normal` says nothing of how tracks are aligned.
fn read_track_alignment(value: &str) -> Option<AlignContent>
    ensures { IfSome result Aligns }
{
    let mut words = value.split_whitespace();
    match (words.next()?, words.next(), words.next()) {
        (word, None, _) => AlignContentKeyword::named(word)
            .filter(|keyword| *keyword != AlignContentKeyword::Normal)
            .map(|keyword| AlignContent {
                keyword,
                safety: AlignmentSafety::Default,
            }),
        (position, Some(word), None) => {
            let safety = AlignmentSafety::named(position)?;
            AlignContentKeyword::named(word)
                .filter(|keyword| is_positional(*keyword))
                .map(|keyword| AlignContent { keyword, safety })
        }
        (_, Some(_), Some(_)) => None,
    }
}

// Fills a place that is empty.
fn fill<T: Drop>(place: &mut Option<T>, read: Option<T>, expected: Expected) -> Result<(), Expected>
    ensures place { place.new ≡ filled place.old read }
    ensures answer { result ≡ filling place.old read expected }
{
    let value = read.ok_or(expected)?;
    if place.is_some() {
        return Err(Expected::SecondTime);
    }
    *place = Some(value);
    Ok(())
}

impl ContainerText {
    ghost use Rattle.page_words.specs.Keywords.{meaning_of, properties};
    ghost use Rattle.page_text.specs.Containers.{container_finished, Takes, Declares};

    pub(crate) const EMPTY: ContainerText = ContainerText {
        width: None,
        height: None,
        padding: None,
        border: None,
        direction: None,
        justify_content: None,
        align_content: None,
    };

    // Takes the value of one property.
    fn take(&mut self, property: Property, value: &str) -> Result<(), Expected>
        ensures { Takes property value.now self.old self.new result }
    {
        match property {
            Property::Width => fill(&mut self.width, read_size(value), Expected::Size),
            Property::Height => fill(&mut self.height, read_size(value), Expected::Size),
            Property::Padding => fill(&mut self.padding, read_sides(value), Expected::Sides),
            Property::Border => fill(&mut self.border, read_sides(value), Expected::Sides),
            Property::Direction => fill(
                &mut self.direction,
                Direction::named(value),
                Expected::Direction,
            ),
            Property::JustifyContent => fill(
                &mut self.justify_content,
                read_track_alignment(value),
                Expected::TrackAlignment,
            ),
            Property::AlignContent => fill(
                &mut self.align_content,
                read_track_alignment(value),
                Expected::TrackAlignment,
            ),
        }
    }

    // Takes one declaration, `property: value`.
    pub(crate) fn declare(&mut self, property: &str, value: &str) -> Result<(), Expected>
        ensures { Declares (meaning_of property.now properties) value.now self.old self.new result }
    {
        let named = Property::named(property).ok_or(Expected::Property)?;
        self.take(named, value)
    }

    // The container, once its size is known. What was not said is CSS's initial value; `normal` behaves as `stretch`.
    pub(crate) fn finish(self) -> Result<ContainerDescription, Expected>
        ensures { result ≡ container_finished self }
    {
        let width = self.width.ok_or(Expected::Width)?;
        let height = self.height.ok_or(Expected::Height)?;
        Ok(ContainerDescription {
            content_size: Size { width, height },
            padding: self.padding.unwrap_or(Rect::ZERO),
            border: self.border.unwrap_or(Rect::ZERO),
            direction: self.direction.unwrap_or(Direction::Ltr),
            justify_content: self.justify_content.unwrap_or(AlignContent::STRETCH),
            align_content: self.align_content.unwrap_or(AlignContent::STRETCH),
        })
    }
}
