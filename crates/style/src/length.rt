// Lengths as a style writes them, before they are resolved against a basis, and the space that a box may take.
ghost use Rattle.std.specs.Prelude.{◌≡◌};
ghost use Rattle.style.specs.Lengths.{auto_length, auto_dimension, sizing_keyword};

// A padding or a border: the production `<length-percentage>`. A percentage is a fraction, 1.0 for 100%; a calculation goes by the handle that its host knows.
#[derive(Clone, Copy, Debug, PartialEq)]
pub enum LengthPercentage {
    Px(f32),
    Percent(f32),
    Calc(u32),
}

// A margin or an inset.
// No `Option`: `auto` is a value of its own, which becomes an absent number only where a length is resolved.
#[derive(Clone, Copy, Debug, PartialEq)]
pub enum LengthPercentageAuto {
    Auto,
    Length(LengthPercentage),
}

impl LengthPercentageAuto {
    pub fn is_auto(self) -> bool
        ensures { result ≡ auto_length self }
    {
        matches!(self, LengthPercentageAuto::Auto)
    }
}

// A size, a minimum size or a maximum size, per CSS Sizing 3 and 4. `FitContent` is the keyword, `FitContentFunction` is
// `fit-content(<length-percentage>)`.
#[derive(Clone, Copy, Debug, PartialEq)]
pub enum Dimension {
    Auto,
    Content,
    Length(LengthPercentage),
    MinContent,
    MaxContent,
    Stretch,
    FitContent,
    FitContentFunction(LengthPercentage),
}

impl Dimension {
    pub fn is_auto(self) -> bool
        ensures { result ≡ auto_dimension self }
    {
        matches!(self, Dimension::Auto)
    }

    // A keyword that sizes the box by its content or by the space around it.
    pub fn is_sizing_keyword(self) -> bool
        ensures { result ≡ sizing_keyword self }
    {
        matches!(
            self,
            Dimension::MinContent
                | Dimension::MaxContent
                | Dimension::Stretch
                | Dimension::FitContent
                | Dimension::FitContentFunction(_)
        )
    }
}

// The space in which a box is measured: so much, or as little or as much as its content asks for.
#[derive(Clone, Copy, Debug, PartialEq)]
pub enum AvailableSpace {
    Definite(f32),
    MinContent,
    MaxContent,
}
