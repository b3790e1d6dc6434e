// The first answer counts, and only for a node that the host has.
use crate::host::RecordedHost;
use crate::records::{MeasurementRecord, NodeRecord};
use geometry::Size;
use std::test::Fail;
use style::length::AvailableSpace;
use style::modes::{RequestedAxis, SizingMode};
use tree::question::Question;
use tree::traits::LayoutPartialTree;

fn question(node: u64) -> Question {
    Question {
        node,
        known_dimensions: Size {
            width: Some(20.0),
            height: None,
        },
        parent_size: Size::NONE,
        available_space: Size {
            width: AvailableSpace::MaxContent,
            height: AvailableSpace::MaxContent,
        },
        sizing_mode: SizingMode::InherentSize,
        axis: RequestedAxis::Both,
    }
}

fn measurement(node: u64, height: f32) -> MeasurementRecord {
    MeasurementRecord {
        question: question(node),
        size: Size {
            width: 20.0,
            height,
        },
    }
}

// The first of two answers counts, for a node that the host has.
#[test]
fn first_answer_of_a_known_node(rt: HostRuntime) -> Result<(), Fail> {
    let mut host = RecordedHost::new(rt.alloc());
    host.add_node(NodeRecord {
        node: 1,
        style: None,
    })?;
    host.add_measurement(measurement(1, 30.0))?;
    host.add_measurement(measurement(1, 40.0))?;
    host.add_measurement(measurement(2, 50.0))?;
    let Ok(size) = host.measure(question(1)) else {
        return Err(Fail::new("no answer"));
    };
    assert!(rt; size.height == 30.0);
    let Err(fault) = host.measure(question(2)) else {
        return Err(Fail::new("an answer for an unknown node"));
    };
    assert!(rt; u32::from(fault.reason) == 1);
    Ok(())
}
