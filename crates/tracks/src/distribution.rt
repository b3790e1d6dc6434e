// Content distribution of CSS Box Alignment 3: the alignment that is used, and the space that it leaves before and between subjects.
ghost use Rattle.std.specs.Prelude.{◌≡◌, ◌+◌};
ghost use Rattle.tracks.specs.Distribution.{count, fallback, used_alignment, first_share_of, gap as gap_between};

use number::f32_max;
use style::alignment::{AlignContent, AlignContentKeyword, AlignmentSafety};

// A distribution's fallback alignment, which is safe; a positional alignment stays.
fn fallback(alignment: AlignContent) -> AlignContent
    ensures { result ≡ fallback alignment.keyword alignment }
{
    let keyword = match alignment.keyword {
        AlignContentKeyword::Normal
        | AlignContentKeyword::Stretch
        | AlignContentKeyword::SpaceBetween => AlignContentKeyword::FlexStart,
        AlignContentKeyword::SpaceAround | AlignContentKeyword::SpaceEvenly => {
            AlignContentKeyword::Center
        }
        _ => return alignment,
    };
    AlignContent {
        keyword,
        safety: AlignmentSafety::Safe,
    }
}

// The keyword to align by, once a distribution that is not possible fell back and a safe alignment that overflows became start.
// `normal` behaves as `stretch`, as on every grid container.
pub fn apply_alignment_fallback(
    free_space: f32,
    num_items: usize,
    alignment_mode: AlignContent,
) -> AlignContentKeyword
    ensures { result ≡ used_alignment free_space num_items alignment_mode }
{
    let alignment = if num_items <= 1 || free_space <= 0.0 {
        fallback(alignment_mode)
    } else {
        alignment_mode
    };
    if free_space <= 0.0 && alignment.is_safe() {
        return AlignContentKeyword::Start;
    }
    match alignment.keyword {
        AlignContentKeyword::Normal => AlignContentKeyword::Stretch,
        keyword => keyword,
    }
}

// A count as a number, rounded to the nearest.
fn as_number(n: usize) -> f32
    ensures { result ≡ count n }
{
    std::num::nearest_u64_to_f32(n as u64)
}

// How an alignment distributes the free space of a container among its items.
#[derive(Clone, Copy)]
pub(crate) struct Distribution {
    pub free_space: f32,
    pub num_items: usize,
    pub keyword: AlignContentKeyword,
}

impl Distribution {
    // The space before the first item.
    pub fn first_share(self) -> f32
        ensures { result ≡ first_share_of self.free_space self.num_items self.keyword }
    {
        match self.keyword {
            AlignContentKeyword::End | AlignContentKeyword::FlexEnd => self.free_space,
            AlignContentKeyword::Center => self.free_space / 2.0,
            AlignContentKeyword::SpaceAround => self.free_space / as_number(self.num_items) / 2.0,
            AlignContentKeyword::SpaceEvenly => self.free_space / self.num_spaces(),
            _ => 0.0,
        }
    }

    // The space between each two items.
    pub fn gap(self) -> f32
        ensures { result ≡ gap_between self.free_space self.num_items self.keyword }
    {
        let free_space = f32_max(self.free_space, 0.0);
        match self.keyword {
            AlignContentKeyword::SpaceBetween => free_space
                / as_number(self.num_items.saturating_sub(1)),
            AlignContentKeyword::SpaceAround => free_space / as_number(self.num_items),
            AlignContentKeyword::SpaceEvenly => free_space / self.num_spaces(),
            _ => 0.0,
        }
    }

    // The spaces before, between and after the items: one more than they. Where that sum saturates, it and the exact one round to 2^64 both.
    #[tactic(auto, using(crate::proofs::Shares::count_saturated))]
    fn num_spaces(self) -> f32
        ensures { result ≡ count (self.num_items + 1) }
    {
        as_number(self.num_items.saturating_add(1))
    }
}
