// The interfaces of a host: what every host has in common is a meaning, and a grid host tells the style of a node besides.
ghost use Rattle.std.specs.Prelude.{◌≡◌, Option as Maybe};
ghost use Rattle.tree.specs.Meaning.{Meaning, Counts, measures, lays_out, fetches, styles_at, stores, reads, with_stored, raise};

use crate::fault::HostFault;
use crate::layout::{Layout, LayoutOutput, OofCandidate};
use crate::question::Question;
use geometry::Size;
use style::style::Style;

// A host in order answers exactly what it means, faults included, stays in order, and changes its meaning by storing alone.
pub trait LayoutPartialTree {
    // What the host means.
    ghost meaning: { Self → Meaning };

    // The host's own condition, under which it answers by its meaning. Each method asks for it: by the rule a host says itself when it is in order, and a trait
    // holds no invariant of the types that implement it.
    ghost ordered: { Self → Type 0 };

    // What a tally on top has counted; nothing where there is none.
    ghost tallied: { Self → Maybe Counts };

    // How large the node would be.
    fn measure(&mut self, question: Question) -> Result<Size<f32>, HostFault>
        requires { ordered self.old }
        ensures answer { result ≡ measures (meaning self.old).means question }
        ensures order { ordered self.new }
        ensures same { meaning self.new ≡ meaning self.old }
        ensures counts { tallied self.new ≡ raise 1 0 (tallied self.old) };

    // How the node is laid out.
    fn perform_layout(&mut self, question: Question) -> Result<LayoutOutput, HostFault>
        requires { ordered self.old }
        ensures answer { result ≡ lays_out (meaning self.old).means question }
        ensures order { ordered self.new }
        ensures same { meaning self.new ≡ meaning self.old }
        ensures counts { tallied self.new ≡ raise 0 1 (tallied self.old) };

    // One of the candidates of a layout, by index.
    fn fetch_candidate(&mut self, question: Question, index: u32) -> Result<OofCandidate, HostFault>
        requires { ordered self.old }
        ensures answer { result ≡ fetches (meaning self.old).means question index }
        ensures order { ordered self.new }
        ensures same { meaning self.new ≡ meaning self.old }
        ensures counts { tallied self.new ≡ tallied self.old };

    // The value of a calculation, a `calc()` of a style, by its handle.
    fn calc(&self, handle: u32, basis: f32) -> f32
        requires { ordered self.now }
        ensures { result ≡ (meaning self.now).means.calculates handle basis };

    // Keeps a layout for a known node, in place of the one before.
    fn store(&mut self, node: u64, layout: &Layout) -> Result<(), HostFault>
        requires { ordered self.old }
        ensures answer { result ≡ stores (meaning self.old).means node }
        ensures order { ordered self.new }
        ensures change { meaning self.new ≡ with_stored (meaning self.old) node layout.now }
        ensures counts { tallied self.new ≡ tallied self.old };

    // The layout last stored for a node.
    fn read_stored(&self, node: u64) -> Result<Layout, HostFault>
        requires { ordered self.now }
        ensures { result ≡ reads (meaning self.now) node };
}

// A host of grid items: it tells the style of a node as well.
pub trait LayoutGridContainer: LayoutPartialTree {
    fn style(&self, node: u64) -> Result<Style, HostFault>
        requires { Self.LayoutPartialTree.ordered self.now }
        ensures { result ≡ styles_at (Self.LayoutPartialTree.meaning self.now).means node };
}
