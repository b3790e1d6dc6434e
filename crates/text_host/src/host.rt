// The text host: it holds a text for each node, and computes the answers.
ghost use Rattle.std.specs.Prelude.{◌≡◌, [], None};
ghost use Rattle.tables.specs.Added.{Added};
ghost use Rattle.tree.specs.Meaning.{measures as measured};
ghost use Rattle.text_host.specs.Computed.{InOrder, with_text, computed, computed_means};

use crate::text::TextRecord;
use geometry::{Rect, Size};
use std::alloc::{AllocFailed, Global};
use std::marker::Model;
use style::style::Style;
use tables::nodes::NodeTable;
use tree::fault::{HostFault, HostReason};
use tree::layout::{Layout, LayoutOutput, OofCandidate};
use tree::question::Question;
use tree::traits::{LayoutGridContainer, LayoutPartialTree};

#[derive(Drop)]
pub struct TextHost {
    texts: NodeTable<TextRecord>,
}

impl Model for TextHost {
    ghost use Rattle.std.specs.Prelude.{List};
    ghost use Rattle.tables.specs.declared.nodes.Slot.{Slot};
    ghost use Rattle.text_host.specs.declared.text.TextRecord.{TextRecord};

    ghost Value = { List (Slot TextRecord) };

    ghost view = { λ host. host.texts };
}

impl TextHost {
    // A host of no texts.
    pub fn new(heap: Global) -> TextHost
        ensures { result ≡ [] }
    {
        TextHost {
            texts: NodeTable::new(heap),
        }
    }

    pub fn add_text(&mut self, text: TextRecord) -> Result<(), AllocFailed<TextRecord>>
        ensures { Added result text self.old (with_text self.old text) self.new }
    {
        self.texts.add(text)
    }

    fn size(&self, question: Question) -> Result<Size<f32>, HostFault>
        ensures { result ≡ measured (computed_means self.now) question }
    {
        let text = self.texts.record(question.node, Some(question))?;
        text.size(question)
            .ok_or(HostReason::NoAnswer.about(question.node, Some(question)))
    }
}

impl LayoutPartialTree for TextHost {
    ghost meaning = { computed };

    ghost ordered = { InOrder };

    ghost tallied = { λ _. None };

    fn measure(&mut self, question: Question) -> Result<Size<f32>, HostFault> {
        self.size(question)
    }

    fn perform_layout(&mut self, question: Question) -> Result<LayoutOutput, HostFault> {
        let size = self.size(question)?;
        Ok(LayoutOutput {
            size,
            scrollable_overflow_rect: Rect::ZERO,
            first_baseline: None,
            candidate_count: 0,
        })
    }

    fn fetch_candidate(
        &mut self,
        question: Question,
        _index: u32,
    ) -> Result<OofCandidate, HostFault> {
        self.texts.record(question.node, Some(question))?;
        Err(HostReason::NoAnswer.about(question.node, Some(question)))
    }

    fn calc(&self, _handle: u32, _basis: f32) -> f32 {
        0.0
    }

    fn store(&mut self, node: u64, layout: &Layout) -> Result<(), HostFault> {
        self.texts.store(node, layout)
    }

    fn read_stored(&self, node: u64) -> Result<Layout, HostFault> {
        self.texts.stored(node)
    }
}

impl LayoutGridContainer for TextHost {
    fn style(&self, node: u64) -> Result<Style, HostFault> {
        self.texts.record(node, None).map(|text| text.style)
    }
}
