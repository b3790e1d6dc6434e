// Sums, limits, ratios and unions of shapes.
use geometry::{AbsoluteAxis, Rect, Size};
use maybe_math::*;

#[test]
fn sums_of_sides(rt: HostRuntime) {
    let padding = Rect::<f32>::new(1.0, 2.0, 4.0, 8.0);
    let border = Rect::<f32>::new(16.0, 16.0, 32.0, 32.0);
    let both = Size {
        width: 35.0,
        height: 76.0,
    };
    assert_eq!(rt; (padding + border).sum_axes(), both);
    assert_eq!(rt; padding.grid_axis_sum(AbsoluteAxis::Vertical), 12.0);
}

#[test]
fn the_minimum_wins(rt: HostRuntime) {
    let size = Size::<Option<f32>>::new(50.0, 20.0);
    let min = Size {
        width: None,
        height: Some(40.0),
    };
    let max = Size::<Option<f32>>::new(45.0, 30.0);
    let used = Size {
        width: Some(45.0),
        height: Some(40.0),
    };
    assert_eq!(rt; size.maybe_clamp(min, max), used);
}

#[test]
fn a_side_by_the_ratio(rt: HostRuntime) {
    let wide = Size {
        width: Some(16.0),
        height: None,
    };
    let whole = Size {
        width: Some(16.0),
        height: Some(8.0),
    };
    assert_eq!(rt; wide.maybe_apply_aspect_ratio(Some(2.0)), whole);
}

#[test]
fn the_smallest_around_two(rt: HostRuntime) {
    let one = Rect::<f32>::new(-1.0, 4.0, 2.0, 6.0);
    let other = Rect::<f32>::new(0.0, 5.0, 1.0, 3.0);
    let all = Rect {
        left: -1.0,
        right: 5.0,
        top: 1.0,
        bottom: 6.0,
    };
    assert_eq!(rt; one.union(other), all);
}
