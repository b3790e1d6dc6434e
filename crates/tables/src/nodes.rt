// A table of nodes: each has a record, of which the first counts, and a place for the layout last stored for it.
ghost use Rattle.std.specs.Prelude.{◌≡◌, ℕ, [], ◌∷◌, ◌++◌, is_some, if◌then◌else◌, Some, None, Ok, Err, ◌==◌};
ghost use Rattle.std.specs.Option.{ok_or};
ghost use Rattle.tree.specs.Faults.{unknown_node, no_answer};
ghost use Rattle.tables.specs.Added.{Added};
ghost use Rattle.tables.specs.Nodes.{new_slot, slot_at, held_at, layout_at, layouts_with};

use crate::keyed::{Keyed, find, first_place};
use std::alloc::{AllocFailed, Global};
use std::marker::Model;
use tree::fault::{HostFault, HostReason};
use tree::layout::Layout;
use tree::question::Question;

// A record that names its node.
pub trait OfNode {
    ghost names: { Self → ℕ };

    fn node(&self) -> u64
        ensures { result ≡ names self.now };
}

// A record that is held, and the layout last stored for its node.
#[derive(Clone, Copy, Drop)]
pub struct Slot<R> {
    pub held: R,
    pub layout: Option<Layout>,
}

impl<R: OfNode> Keyed<u64> for Slot<R> {
    ghost fits = { λ s n. R.OfNode.names s.held == n };

    fn is_for(&self, node: &u64) -> bool {
        self.held.node() == *node
    }
}

// A list and no map by node: the contract of `add` names every record that was added, also a second one of a node, which a map would drop.
#[derive(Drop)]
pub struct NodeTable<R> {
    slots: Vec<Slot<R>>,
}

impl<R> Model for NodeTable<R> {
    ghost use Rattle.std.specs.Prelude.{List};
    ghost use Rattle.tables.specs.declared.nodes.Slot.{Slot};

    ghost Value = { List (Slot R) };

    ghost view = { λ table. table.slots.items };
}

impl<R> NodeTable<R> {
    pub fn new(heap: Global) -> NodeTable<R>
        ensures { result ≡ [] }
    {
        NodeTable {
            slots: Vec::new(heap),
        }
    }

    // One more record, with nothing stored; without the memory for it, it is given back.
    pub fn add(&mut self, held: R) -> Result<(), AllocFailed<R>>
        ensures { Added result held self.old (self.old ++ new_slot held ∷ []) self.new }
    {
        self.slots
            .push(Slot { held, layout: None })
            .map_err(|refused| AllocFailed {
                value: refused.value.held,
            })
    }
}

impl<R: OfNode + Copy> NodeTable<R> {
    fn slot(&self, node: u64, question: Option<Question>) -> Result<Slot<R>, HostFault>
        ensures { result ≡ ok_or (slot_at R.OfNode.names self.now node) (unknown_node node question) }
    {
        find(&self.slots, &node).ok_or_else(|| HostReason::UnknownNode.about(node, question))
    }

    // The first record of a node.
    pub fn record(&self, node: u64, question: Option<Question>) -> Result<R, HostFault>
        ensures { result ≡ ok_or (held_at R.OfNode.names self.now node) (unknown_node node question) }
    {
        let slot = self.slot(node, question)?;
        Ok(slot.held)
    }

    // The layout goes to the node's first record, in place of the one before.
    pub fn store(&mut self, node: u64, layout: &Layout) -> Result<(), HostFault>
        ensures answer { result ≡ (if is_some (held_at R.OfNode.names self.old node) then Ok tt else Err (unknown_node node None)) }
        ensures records { held_at R.OfNode.names self.new ≡ held_at R.OfNode.names self.old }
        ensures layouts { layout_at R.OfNode.names self.new ≡ layouts_with R.OfNode.names self.old node layout.now }
    {
        let unknown = HostReason::UnknownNode.about(node, None);
        // By place: after `iter_mut().find(..)` a proof does not know the other slots any more.
        let place = first_place(&self.slots, &node).ok_or(unknown)?;
        self.slots[place].layout = Some(*layout);
        Ok(())
    }

    // The layout last stored for a node.
    pub fn stored(&self, node: u64) -> Result<Layout, HostFault>
        ensures { result ≡ (if is_some (held_at R.OfNode.names self.now node) then ok_or (layout_at R.OfNode.names self.now node) (no_answer node None) else Err (unknown_node node None)) }
    {
        let slot = self.slot(node, None)?;
        slot.layout
            .ok_or_else(|| HostReason::NoAnswer.about(node, None))
    }
}
