// What a memory keeps, and which questions it takes for one.
use crate::memory::Memory;
use geometry::Size;
use std::test::Fail;
use style::length::AvailableSpace;
use style::modes::{RequestedAxis, SizingMode};
use tree::question::Question;

fn about(node: u64, width: f32) -> Question {
    Question {
        node,
        known_dimensions: Size::NONE,
        parent_size: Size::NONE,
        available_space: Size {
            width: AvailableSpace::Definite(width),
            height: AvailableSpace::MaxContent,
        },
        sizing_mode: SizingMode::ContentSize,
        axis: RequestedAxis::Both,
    }
}

const SIZE: Size<f32> = Size {
    width: 8.0,
    height: 16.0,
};

// The 65th measurement takes the place of the first.
#[test]
fn the_oldest_gives_way(rt: HostRuntime) -> Result<(), Fail> {
    let mut memory = Memory::new(rt.alloc())?;
    for node in 0..65 {
        memory.remember(about(node, 50.0), SIZE);
    }
    assert!(rt; memory.recall(about(0, 50.0)).is_none());
    assert!(rt; memory.recall(about(1, 50.0)).is_some());
    assert!(rt; memory.recall(about(64, 50.0)).is_some());
    Ok(())
}

// Zeros of different sign are different questions, and a NaN is not remembered.
#[test]
fn questions_are_equal_in_every_bit(rt: HostRuntime) -> Result<(), Fail> {
    let mut memory = Memory::new(rt.alloc())?;
    memory.remember(about(7, 0.0), SIZE);
    memory.remember(about(7, f32::NAN), SIZE);
    assert!(rt; memory.recall(about(7, 0.0)).is_some());
    assert!(rt; memory.recall(about(7, -0.0)).is_none());
    assert!(rt; memory.recall(about(7, f32::NAN)).is_none());
    Ok(())
}
