// A text that is broken into lines, through its host.
use crate::host::TextHost;
use crate::text::TextRecord;
use geometry::Size;
use std::test::Fail;
use style::length::AvailableSpace;
use style::modes::{RequestedAxis, SizingMode};
use style::style::Style;
use tree::question::Question;
use tree::traits::LayoutPartialTree;

// 50 has 6 whole cells of 8, and 10 letters take 2 lines of 6.
#[test]
fn ten_letters_in_a_width_of_fifty(rt: HostRuntime) -> Result<(), Fail> {
    let mut host = TextHost::new(rt.alloc());
    host.add_text(TextRecord {
        node: 1,
        style: Style::DEFAULT,
        letters: 10,
        longest_word: 4,
        cell_width: 8,
        line_height: 16,
    })?;
    let answer = host.measure(Question {
        node: 1,
        known_dimensions: Size::NONE,
        parent_size: Size::NONE,
        available_space: Size {
            width: AvailableSpace::Definite(50.0),
            height: AvailableSpace::MaxContent,
        },
        sizing_mode: SizingMode::InherentSize,
        axis: RequestedAxis::Both,
    });
    let Ok(size) = answer else {
        return Err(Fail::new("no answer"));
    };
    assert!(rt; size.width == 48.0);
    assert!(rt; size.height == 32.0);
    Ok(())
}
