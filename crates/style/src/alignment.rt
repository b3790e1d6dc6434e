// Alignment, per CSS Box Alignment 3: a position keyword, and what becomes of it on overflow.
ghost use Rattle.std.specs.Prelude.{◌≡◌, T};
ghost use Rattle.style.specs.Alignment.{is_rtl, safe, default_stretch, reversed, self_relative};

// The way in which a line of text runs.
#[derive(Clone, Copy, Debug, PartialEq, Eq)]
pub enum Direction {
    Ltr,
    Rtl,
}

impl Direction {
    pub fn is_rtl(self) -> bool
        ensures { result ≡ is_rtl self }
    {
        self == Direction::Rtl
    }
}

// Where an item stands within its area.
#[derive(Clone, Copy, Debug, PartialEq, Eq)]
pub enum AlignItemsKeyword {
    Normal,
    Start,
    End,
    FlexStart,
    FlexEnd,
    SelfStart,
    SelfEnd,
    Center,
    Baseline,
    Stretch,
}

// How the tracks of an axis share out the space that they leave.
#[derive(Clone, Copy, Debug, PartialEq, Eq)]
pub enum AlignContentKeyword {
    Normal,
    Start,
    End,
    FlexStart,
    FlexEnd,
    Center,
    Stretch,
    SpaceBetween,
    SpaceEvenly,
    SpaceAround,
}

// The overflow position: a safe alignment gives way to start where the subject overflows its container.
#[derive(Clone, Copy, Debug, PartialEq, Eq)]
pub enum AlignmentSafety {
    Default,
    Unsafe,
    Safe,
}

// A keyword, and the overflow position that goes with it.
#[derive(Clone, Copy, Debug, PartialEq, Eq)]
pub struct Alignment<K> {
    pub keyword: K,
    pub safety: AlignmentSafety,
}

// The alignment of an item: `align-items`, `align-self`, `justify-items`, `justify-self`.
pub type AlignItems = Alignment<AlignItemsKeyword>;

// The alignment of tracks: `align-content`, `justify-content`.
pub type AlignContent = Alignment<AlignContentKeyword>;

impl<K: Drop> Alignment<K> {
    pub fn is_safe(self) -> bool
        ensures { result ≡ safe self.safety }
    {
        self.safety == AlignmentSafety::Safe
    }

    // This keyword, with the overflow position given.
    pub fn with_safety(self, safety: AlignmentSafety) -> Self
        ensures keyword { result.keyword ≡ self.keyword }
        ensures safety { result.safety ≡ safety }
    {
        Alignment { safety, ..self }
    }
}

// Each constant is spelled out for both properties: a trait of keywords, by which `Alignment<K>` could have them once, would spell the five twice again.
impl AlignItems {
    pub const NORMAL: AlignItems = AlignItems {
        keyword: AlignItemsKeyword::Normal,
        safety: AlignmentSafety::Default,
    };

    pub const START: AlignItems = AlignItems {
        keyword: AlignItemsKeyword::Start,
        safety: AlignmentSafety::Default,
    };

    pub const END: AlignItems = AlignItems {
        keyword: AlignItemsKeyword::End,
        safety: AlignmentSafety::Default,
    };

    pub const CENTER: AlignItems = AlignItems {
        keyword: AlignItemsKeyword::Center,
        safety: AlignmentSafety::Default,
    };

    pub const STRETCH: AlignItems = AlignItems {
        keyword: AlignItemsKeyword::Stretch,
        safety: AlignmentSafety::Default,
    };

    // The same keyword, with the same overflow position. It is `==`, and says that `==` is identity.
    pub fn is_same(self, other: AlignItems) -> bool
        ensures { (T result → self ≡ other) × (self ≡ other → T result) }
    {
        self == other
    }

    // Equal to `AlignItems::STRETCH`: an overflow position makes it another alignment.
    pub fn is_stretch(self) -> bool
        ensures { result ≡ default_stretch self }
    {
        self == AlignItems::STRETCH
    }

    // `self-start` and `self-end` by the item's own direction, which counts in the inline axis alone; all else unchanged.
    pub fn resolve_self_relative(
        self,
        item_direction: Direction,
        container_direction: Direction,
        axis_is_inline: bool,
    ) -> AlignItems
        ensures { result ≡ self_relative self item_direction container_direction axis_is_inline }
    {
        let flip = axis_is_inline && item_direction != container_direction;
        let keyword = match (self.keyword, flip) {
            (AlignItemsKeyword::SelfStart, false) | (AlignItemsKeyword::SelfEnd, true) => {
                AlignItemsKeyword::Start
            }
            (AlignItemsKeyword::SelfStart, true) | (AlignItemsKeyword::SelfEnd, false) => {
                AlignItemsKeyword::End
            }
            (other, _) => other,
        };
        Alignment { keyword, ..self }
    }
}

impl AlignContentKeyword {
    // The keyword for a line that runs the other way. `Stretch` becomes `End`, since it packs toward the start.
    pub fn reversed(self) -> AlignContentKeyword
        ensures { result ≡ reversed self }
    {
        match self {
            AlignContentKeyword::Start => AlignContentKeyword::End,
            AlignContentKeyword::End => AlignContentKeyword::Start,
            AlignContentKeyword::FlexStart => AlignContentKeyword::FlexEnd,
            AlignContentKeyword::FlexEnd => AlignContentKeyword::FlexStart,
            AlignContentKeyword::Stretch => AlignContentKeyword::End,
            other => other,
        }
    }
}

impl AlignContent {
    pub const NORMAL: AlignContent = AlignContent {
        keyword: AlignContentKeyword::Normal,
        safety: AlignmentSafety::Default,
    };

    pub const START: AlignContent = AlignContent {
        keyword: AlignContentKeyword::Start,
        safety: AlignmentSafety::Default,
    };

    pub const END: AlignContent = AlignContent {
        keyword: AlignContentKeyword::End,
        safety: AlignmentSafety::Default,
    };

    pub const CENTER: AlignContent = AlignContent {
        keyword: AlignContentKeyword::Center,
        safety: AlignmentSafety::Default,
    };

    pub const STRETCH: AlignContent = AlignContent {
        keyword: AlignContentKeyword::Stretch,
        safety: AlignmentSafety::Default,
    };
}
