// A layer that counts the questions that go through it.
ghost use Rattle.std.specs.Prelude.{◌≡◌};
ghost use Rattle.tree.specs.Meaning.{measures, lays_out, fetches, stores, with_stored, raise};
ghost use Rattle.layers.specs.Layers.{counted};

use geometry::Size;
use style::style::Style;
use tree::fault::HostFault;
use tree::layout::{Layout, LayoutOutput, OofCandidate};
use tree::question::Question;
use tree::traits::{LayoutGridContainer, LayoutPartialTree};

// How many measurements and layouts were asked for, answered or not. Each count stops at 2^32 - 1.
#[derive(Drop)]
pub struct Tally<H> {
    below: H,
    measurements: u32,
    layouts: u32,
}

impl<H> Tally<H> {
    pub fn new(below: H) -> Tally<H>
        ensures below { result.below ≡ below }
        ensures measurements { result.measurements ≡ 0 }
        ensures layouts { result.layouts ≡ 0 }
    {
        Tally {
            below,
            measurements: 0,
            layouts: 0,
        }
    }

    pub fn measurements(&self) -> u32
        ensures { result ≡ self.now.measurements }
    {
        self.measurements
    }

    pub fn layouts(&self) -> u32
        ensures { result ≡ self.now.layouts }
    {
        self.layouts
    }

    pub fn below(&self) -> &H
        ensures { result.now ≡ self.now.below }
    {
        &self.below
    }

    pub fn into_inner(self) -> H
        ensures { result ≡ self.below }
    {
        self.below
    }
}

// A method that has clauses of its own says those of the trait again, since its own stand in their place.
impl<H: LayoutPartialTree> LayoutPartialTree for Tally<H> {
    ghost meaning = { λ s. H.meaning s.below };

    ghost ordered = { λ s. H.ordered s.below };

    ghost tallied = { counted };

    fn measure(&mut self, question: Question) -> Result<Size<f32>, HostFault>
        requires { H.ordered self.old.below }
        ensures answer { result ≡ measures (H.meaning self.old.below).means question }
        ensures order { H.ordered self.new.below }
        ensures same { H.meaning self.new.below ≡ H.meaning self.old.below }
        ensures counts { counted self.new ≡ raise 1 0 (counted self.old) }
        ensures below { H.tallied self.new.below ≡ raise 1 0 (H.tallied self.old.below) }
    {
        self.measurements = self.measurements.saturating_add(1);
        self.below.measure(question)
    }

    fn perform_layout(&mut self, question: Question) -> Result<LayoutOutput, HostFault>
        requires { H.ordered self.old.below }
        ensures answer { result ≡ lays_out (H.meaning self.old.below).means question }
        ensures order { H.ordered self.new.below }
        ensures same { H.meaning self.new.below ≡ H.meaning self.old.below }
        ensures counts { counted self.new ≡ raise 0 1 (counted self.old) }
        ensures below { H.tallied self.new.below ≡ raise 0 1 (H.tallied self.old.below) }
    {
        self.layouts = self.layouts.saturating_add(1);
        self.below.perform_layout(question)
    }

    fn fetch_candidate(&mut self, question: Question, index: u32) -> Result<OofCandidate, HostFault>
        requires { H.ordered self.old.below }
        ensures answer { result ≡ fetches (H.meaning self.old.below).means question index }
        ensures order { H.ordered self.new.below }
        ensures same { H.meaning self.new.below ≡ H.meaning self.old.below }
        ensures counts { counted self.new ≡ counted self.old }
        ensures below { H.tallied self.new.below ≡ H.tallied self.old.below }
    {
        self.below.fetch_candidate(question, index)
    }

    fn calc(&self, handle: u32, basis: f32) -> f32 {
        self.below.calc(handle, basis)
    }

    fn store(&mut self, node: u64, layout: &Layout) -> Result<(), HostFault>
        requires { H.ordered self.old.below }
        ensures answer { result ≡ stores (H.meaning self.old.below).means node }
        ensures order { H.ordered self.new.below }
        ensures change { H.meaning self.new.below ≡ with_stored (H.meaning self.old.below) node layout.now }
        ensures counts { counted self.new ≡ counted self.old }
        ensures below { H.tallied self.new.below ≡ H.tallied self.old.below }
    {
        self.below.store(node, layout)
    }

    fn read_stored(&self, node: u64) -> Result<Layout, HostFault> {
        self.below.read_stored(node)
    }
}

impl<H: LayoutGridContainer> LayoutGridContainer for Tally<H> {
    fn style(&self, node: u64) -> Result<Style, HostFault> {
        self.below.style(node)
    }
}
