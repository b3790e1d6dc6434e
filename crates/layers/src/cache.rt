// A layer that remembers measurements, so that the host below is not asked again.
ghost use Rattle.std.specs.Prelude.{◌≡◌, [], None, MatchResult};
ghost use Rattle.tree.specs.Meaning.{measures, lays_out, fetches, stores, with_stored, raise};
ghost use Rattle.layers.specs.Layers.{entries_of, RemembersRightly, Cached};

use crate::memory::Memory;
use geometry::Size;
use std::alloc::{AllocFailed, Global};
use style::style::Style;
use tree::fault::HostFault;
use tree::layout::{Layout, LayoutOutput, OofCandidate};
use tree::question::Question;
use tree::traits::{LayoutGridContainer, LayoutPartialTree};

// In order when the host below is, and each remembered answer is the one below: by the rule a condition of the host, which its calls ask for, and not of the type.
#[derive(Drop)]
pub struct Cache<H> {
    below: H,
    memory: Memory,
}

impl<H: LayoutPartialTree> Cache<H> {
    // A cache that remembers nothing yet, and is in order over a host in order. For want of memory the host below comes back.
    pub fn new(heap: Global, below: H) -> Result<Cache<H>, AllocFailed<H>>
        ensures made { MatchResult result (λ c. (c.below ≡ below) × (entries_of c ≡ [])) (λ e. e.value ≡ below) }
        ensures order { H.ordered below → MatchResult result (λ c. H.ordered c.below × RemembersRightly H.meaning c) (λ e. H.ordered e.value) }
    {
        // By `match`, since either arm takes `below`.
        match Memory::new(heap) {
            Ok(memory) => Ok(Cache { below, memory }),
            Err(_) => Err(AllocFailed { value: below }),
        }
    }

    pub fn below(&self) -> &H
        ensures { result.now ≡ self.now.below }
    {
        &self.below
    }

    // What it remembers.
    pub fn memory(&self) -> &Memory
        ensures { result.now ≡ entries_of self.now }
    {
        &self.memory
    }

    pub fn into_inner(self) -> H
        ensures { result ≡ self.below }
    {
        self.below
    }
}

// A method that has clauses of its own says those of the trait again, since its own stand in their place.
impl<H: LayoutPartialTree> LayoutPartialTree for Cache<H> {
    ghost meaning = { λ s. H.meaning s.below };

    ghost ordered = { λ s. H.ordered s.below × RemembersRightly H.meaning s };

    ghost tallied = { λ _. None };

    fn measure(&mut self, question: Question) -> Result<Size<f32>, HostFault>
        requires { H.ordered self.old.below × RemembersRightly H.meaning self.old }
        ensures answer { result ≡ measures (H.meaning self.old.below).means question }
        ensures order { H.ordered self.new.below × RemembersRightly H.meaning self.new }
        ensures same { H.meaning self.new.below ≡ H.meaning self.old.below }
        ensures cached { Cached H.tallied self.old self.new question result }
    {
        if let Some(size) = self.memory.recall(question) {
            return Ok(size);
        }
        let size = self.below.measure(question)?;
        self.memory.remember(question, size);
        Ok(size)
    }

    fn perform_layout(&mut self, question: Question) -> Result<LayoutOutput, HostFault>
        requires { H.ordered self.old.below × RemembersRightly H.meaning self.old }
        ensures answer { result ≡ lays_out (H.meaning self.old.below).means question }
        ensures order { H.ordered self.new.below × RemembersRightly H.meaning self.new }
        ensures same { H.meaning self.new.below ≡ H.meaning self.old.below }
        ensures memory { self.new.memory ≡ self.old.memory }
        ensures below { H.tallied self.new.below ≡ raise 0 1 (H.tallied self.old.below) }
    {
        self.below.perform_layout(question)
    }

    fn fetch_candidate(&mut self, question: Question, index: u32) -> Result<OofCandidate, HostFault>
        requires { H.ordered self.old.below × RemembersRightly H.meaning self.old }
        ensures answer { result ≡ fetches (H.meaning self.old.below).means question index }
        ensures order { H.ordered self.new.below × RemembersRightly H.meaning self.new }
        ensures same { H.meaning self.new.below ≡ H.meaning self.old.below }
        ensures memory { self.new.memory ≡ self.old.memory }
        ensures below { H.tallied self.new.below ≡ H.tallied self.old.below }
    {
        self.below.fetch_candidate(question, index)
    }

    fn calc(&self, handle: u32, basis: f32) -> f32 {
        self.below.calc(handle, basis)
    }

    fn store(&mut self, node: u64, layout: &Layout) -> Result<(), HostFault>
        requires { H.ordered self.old.below × RemembersRightly H.meaning self.old }
        ensures answer { result ≡ stores (H.meaning self.old.below).means node }
        ensures order { H.ordered self.new.below × RemembersRightly H.meaning self.new }
        ensures change { H.meaning self.new.below ≡ with_stored (H.meaning self.old.below) node layout.now }
        ensures memory { self.new.memory ≡ self.old.memory }
        ensures below { H.tallied self.new.below ≡ H.tallied self.old.below }
    {
        self.below.store(node, layout)
    }

    fn read_stored(&self, node: u64) -> Result<Layout, HostFault> {
        self.below.read_stored(node)
    }
}

impl<H: LayoutGridContainer> LayoutGridContainer for Cache<H> {
    fn style(&self, node: u64) -> Result<Style, HostFault> {
        self.below.style(node)
    }
}
