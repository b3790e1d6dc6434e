// Alignments by direction, and the first value of a style that is out of range.
use geometry::AbsoluteAxis;
use style::alignment::{AlignItems, AlignItemsKeyword, AlignmentSafety, Direction};
use style::length::{Dimension, LengthPercentage, LengthPercentageAuto};
use style::range::{Side, StyleField, first_out_of_range};
use style::style::Style;

// An item that runs right to left in a container that runs left to right.
#[test]
fn self_start_is_the_end_of_the_line(rt: HostRuntime) {
    let own = AlignItems {
        keyword: AlignItemsKeyword::SelfStart,
        safety: AlignmentSafety::Safe,
    };
    let used = own.resolve_self_relative(Direction::Rtl, Direction::Ltr, true);
    assert_eq!(rt; used.keyword, AlignItemsKeyword::End);
    assert!(rt; used.is_safe());
}

// The ends of each range are in it.
#[test]
fn ends_are_in_range(rt: HostRuntime) {
    let mut style = Style::DEFAULT;
    style.aspect_ratio = Some(0.0009765625);
    style.padding.top = LengthPercentage::Px(1048576.0);
    style.margin.left = LengthPercentageAuto::Length(LengthPercentage::Percent(-1024.0));
    assert!(rt; first_out_of_range(&style).is_none());
}

// A number in a maximum's fit-content counts, and it is read before the margins.
#[test]
fn first_of_two(rt: HostRuntime) {
    let mut style = Style::DEFAULT;
    style.margin.left = LengthPercentageAuto::Length(LengthPercentage::Px(1048577.0));
    assert!(rt; first_out_of_range(&style) == Some(StyleField::Margin(Side::Left)));
    style.max_size.height = Dimension::FitContentFunction(LengthPercentage::Percent(1024.5));
    assert!(rt; first_out_of_range(&style) == Some(StyleField::MaxSize(AbsoluteAxis::Vertical)));
}
