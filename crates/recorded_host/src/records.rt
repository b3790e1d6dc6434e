// The records of a recorded host, and what each is looked up by.
ghost use Rattle.recorded_host.specs.Records.{measurement_for, layout_for, candidate_for, calc_for};

use geometry::Size;
use style::style::Style;
use tables::keyed::Keyed;
use tables::nodes::OfNode;
use tree::bits::same_f32;
use tree::layout::{LayoutOutput, OofCandidate};
use tree::question::{Question, answers_for};

// A node that the host has, with its style or none.
#[derive(Clone, Copy)]
pub struct NodeRecord {
    pub node: u64,
    pub style: Option<Style>,
}

impl OfNode for NodeRecord {
    ghost names = { λ r. r.node };

    fn node(&self) -> u64 {
        self.node
    }
}

// The answer to a measurement.
#[derive(Clone, Copy)]
pub struct MeasurementRecord {
    pub question: Question,
    pub size: Size<f32>,
}

impl Keyed<Question> for MeasurementRecord {
    ghost fits = { λ r q. measurement_for q r };

    fn is_for(&self, question: &Question) -> bool {
        answers_for(self.question, *question)
    }
}

// The answer to a layout. No generic struct with the one above: each names its answer, as a size or as an output.
#[derive(Clone, Copy)]
pub struct LayoutRecord {
    pub question: Question,
    pub output: LayoutOutput,
}

impl Keyed<Question> for LayoutRecord {
    ghost fits = { λ r q. layout_for q r };

    fn is_for(&self, asked: &Question) -> bool {
        answers_for(self.question, *asked)
    }
}

// One of the candidates of a layout.
#[derive(Clone, Copy)]
pub struct CandidateRecord {
    pub question: Question,
    pub index: u32,
    pub candidate: OofCandidate,
}

impl Keyed<(Question, u32)> for CandidateRecord {
    ghost fits = { λ r k. candidate_for k.0 k.1 r };

    fn is_for(&self, key: &(Question, u32)) -> bool {
        self.index == key.1 && answers_for(self.question, key.0)
    }
}

// The value of a calculation at a basis.
#[derive(Clone, Copy)]
pub struct CalcRecord {
    pub handle: u32,
    pub basis: f32,
    pub number: f32,
}

impl Keyed<(u32, f32)> for CalcRecord {
    ghost fits = { λ r k. calc_for k.0 k.1 r };

    fn is_for(&self, key: &(u32, f32)) -> bool {
        self.handle == key.0 && same_f32(self.basis, key.1) && !key.1.is_nan()
    }
}
