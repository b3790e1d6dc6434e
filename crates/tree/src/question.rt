// What a host is asked about a node: how large would it be, or how is it laid out, under these constraints.
ghost use Rattle.std.specs.Prelude.{◌≡◌, true};
ghost use Rattle.std.specs.Float.Ieee.Scale.{finite};
ghost use Rattle.tree.specs.Bits.{is_number};
ghost use Rattle.tree.specs.Questions.{same_question, every_number, answers_for};

use crate::bits::SameBits;
use crate::numbers::Numbers;
use geometry::Size;
use style::length::AvailableSpace;
use style::modes::{RequestedAxis, SizingMode};

// The constraints that a parent passes down, and the node that they are for.
#[derive(Clone, Copy)]
pub struct Question {
    pub node: u64,
    // Sizes to be taken as fixed.
    pub known_dimensions: Size<Option<f32>>,
    // What percentages resolve against.
    pub parent_size: Size<Option<f32>>,
    // The room for the border box, the margins taken off.
    pub available_space: Size<AvailableSpace>,
    pub sizing_mode: SizingMode,
    pub axis: RequestedAxis,
}

impl SameBits for Question {
    ghost alike = { same_question };

    fn same_bits(self, other: Question) -> bool {
        self.node == other.node
            && self.known_dimensions.same_bits(other.known_dimensions)
            && self.parent_size.same_bits(other.parent_size)
            && self.available_space.same_bits(other.available_space)
            && self.sizing_mode == other.sizing_mode
            && self.axis == other.axis
    }
}

impl Numbers for Question {
    ghost every = { every_number };

    fn every_number<F: Fn(f32) -> bool>(self, passes: &F) -> bool {
        self.known_dimensions.every_number(passes)
            && self.parent_size.every_number(passes)
            && self.available_space.every_number(passes)
    }
}

impl Question {
    // None of its numbers is a NaN.
    pub fn is_free_of_nan(self) -> bool
        ensures { result ≡ every_number is_number self }
    {
        self.every_number(&|x| !x.is_nan())
    }

    // None of its numbers is a NaN or an infinity.
    #[tactic(auto, using(crate::proofs::Finite::finite_is))]
    pub fn is_finite(self) -> bool
        ensures { result ≡ every_number finite self }
    {
        self.every_number(&|x| x.is_finite())
    }
}

// Whether an answer that was recorded for one question is the answer to another: equal in every bit, and without NaN.
pub fn answers_for(recorded: Question, asked: Question) -> bool
    ensures test { result ≡ answers_for recorded asked }
    ensures same { result ≡ true → recorded ≡ asked }
    ensures numbers { result ≡ true → every_number is_number asked ≡ true }
    ensures back { recorded ≡ asked → every_number is_number asked ≡ true → result ≡ true }
{
    recorded.same_bits(asked) && asked.is_free_of_nan()
}
