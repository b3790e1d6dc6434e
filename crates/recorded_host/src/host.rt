// The recorded host: what is asked of it is looked up in its tables.
ghost use Rattle.std.specs.Prelude.{◌≡◌, None, Some};
ghost use Rattle.std.specs.List.{find};
ghost use Rattle.tables.specs.Added.{Added};
ghost use Rattle.tree.specs.Meaning.{answers};
ghost use Rattle.recorded_host.specs.Recorded.{InOrder, no_tables, with_node, with_measurement, with_layout, with_candidate, with_calc, recorded, recorded_means};

use crate::records::{CalcRecord, CandidateRecord, LayoutRecord, MeasurementRecord, NodeRecord};
use geometry::Size;
use std::alloc::{AllocFailed, Global};
use std::marker::Model;
use style::style::Style;
use tables::keyed::{Keyed, find};
use tables::nodes::NodeTable;
use tree::fault::{HostFault, HostReason};
use tree::layout::{Layout, LayoutOutput, OofCandidate};
use tree::question::Question;
use tree::traits::{LayoutGridContainer, LayoutPartialTree};

// Lists and no maps: the contracts of `add_*` name every record that was added, and a question, which holds numbers of f32, has neither an order nor a hash.
#[derive(Drop)]
pub struct RecordedHost {
    nodes: NodeTable<NodeRecord>,
    measurements: Vec<MeasurementRecord>,
    layouts: Vec<LayoutRecord>,
    candidates: Vec<CandidateRecord>,
    calcs: Vec<CalcRecord>,
}

impl Model for RecordedHost {
    ghost use Rattle.recorded_host.specs.Tables.{Tables};

    ghost Value = { Tables };

    ghost use Rattle.recorded_host.specs.Recorded.{tables_of};

    ghost view = { tables_of };
}

impl RecordedHost {
    // A host of no nodes and no answers.
    pub fn new(heap: Global) -> RecordedHost
        ensures { result ≡ no_tables }
    {
        RecordedHost {
            nodes: NodeTable::new(heap),
            measurements: Vec::new(heap),
            layouts: Vec::new(heap),
            candidates: Vec::new(heap),
            calcs: Vec::new(heap),
        }
    }

    // One for each kind of record: a trait over the kinds would hold the same five bodies, each with its own table, and one more to call them.
    pub fn add_node(&mut self, node: NodeRecord) -> Result<(), AllocFailed<NodeRecord>>
        ensures { Added result node self.old (with_node self.old node) self.new }
    {
        self.nodes.add(node)
    }

    pub fn add_measurement(
        &mut self,
        measurement: MeasurementRecord,
    ) -> Result<(), AllocFailed<MeasurementRecord>>
        ensures { Added result measurement self.old (with_measurement self.old measurement) self.new }
    {
        self.measurements.push(measurement)
    }

    pub fn add_layout(&mut self, layout: LayoutRecord) -> Result<(), AllocFailed<LayoutRecord>>
        ensures { Added result layout self.old (with_layout self.old layout) self.new }
    {
        self.layouts.push(layout)
    }

    pub fn add_candidate(
        &mut self,
        candidate: CandidateRecord,
    ) -> Result<(), AllocFailed<CandidateRecord>>
        ensures { Added result candidate self.old (with_candidate self.old candidate) self.new }
    {
        self.candidates.push(candidate)
    }

    pub fn add_calc(&mut self, calc: CalcRecord) -> Result<(), AllocFailed<CalcRecord>>
        ensures { Added result calc self.old (with_calc self.old calc) self.new }
    {
        self.calcs.push(calc)
    }

    // The first record for the key, where the node that is asked about is one of the host's.
    fn answer<K, R: Keyed<K> + Copy>(
        &self,
        question: Question,
        records: &[R],
        key: &K,
    ) -> Result<R, HostFault>
        ensures { result ≡ answers (recorded_means self.now) question.node (Some question) (find (λ r. R.Keyed.fits r key.now) records.now) }
    {
        self.nodes.record(question.node, Some(question))?;
        find(records, key).ok_or_else(|| HostReason::NoAnswer.about(question.node, Some(question)))
    }
}

impl LayoutPartialTree for RecordedHost {
    ghost meaning = { recorded };

    ghost ordered = { InOrder };

    ghost tallied = { λ _. None };

    fn measure(&mut self, question: Question) -> Result<Size<f32>, HostFault> {
        let found = self.answer(question, &self.measurements, &question)?;
        Ok(found.size)
    }

    fn perform_layout(&mut self, question: Question) -> Result<LayoutOutput, HostFault> {
        let found = self.answer(question, &self.layouts, &question)?;
        Ok(found.output)
    }

    fn fetch_candidate(
        &mut self,
        question: Question,
        index: u32,
    ) -> Result<OofCandidate, HostFault> {
        let found = self.answer(question, &self.candidates, &(question, index))?;
        Ok(found.candidate)
    }

    fn calc(&self, handle: u32, basis: f32) -> f32 {
        find(&self.calcs, &(handle, basis)).map_or(0.0, |found| found.number)
    }

    fn store(&mut self, node: u64, layout: &Layout) -> Result<(), HostFault> {
        self.nodes.store(node, layout)
    }

    fn read_stored(&self, node: u64) -> Result<Layout, HostFault> {
        self.nodes.stored(node)
    }
}

impl LayoutGridContainer for RecordedHost {
    fn style(&self, node: u64) -> Result<Style, HostFault> {
        let found = self.nodes.record(node, None)?;
        found
            .style
            .ok_or_else(|| HostReason::UnknownNode.about(node, None))
    }
}
