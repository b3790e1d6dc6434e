// Limits, zeros, and the larger and smaller of two.
use number::{f32_max, f32_min, in_limits, without_zero_sign};

#[test]
fn limits_end_at_two_to_the_twentieth(rt: HostRuntime) {
    assert!(rt; in_limits(1048576.0));
    assert!(rt; in_limits(-1048576.0));
    assert!(rt; !in_limits(1048576.125));
    assert!(rt; !in_limits(-1048576.125));
    assert!(rt; !in_limits(f32::NAN));
    assert!(rt; !in_limits(f32::INFINITY));
}

#[test]
fn a_zero_loses_its_sign(rt: HostRuntime) {
    assert!(rt; without_zero_sign(-0.0).is_sign_positive());
    assert!(rt; without_zero_sign(-2.5) == -2.5);
}

#[test]
fn a_nan_gives_way(rt: HostRuntime) {
    assert!(rt; f32_max(f32::NAN, 3.0) == 3.0);
    assert!(rt; f32_min(3.0, f32::NAN) == 3.0);
    assert!(rt; f32_max(-1.0, 2.0) == 2.0);
    assert!(rt; f32_min(-1.0, 2.0) == -1.0);
}
