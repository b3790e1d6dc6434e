// The first baseline of an item, as its container sees it.
ghost use Rattle.std.specs.Prelude.{◌≡◌};
ghost use Rattle.item_overflow.specs.Baselines.{child_first_baseline};

use number::{f32_max, f32_min};
use style::modes::Overflow;

// A scroll container's is held to its border box, per CSS Box Alignment 3, 9.1; without one it is the bottom edge.
pub fn child_first_baseline(
    first_baseline: Option<f32>,
    height: f32,
    overflow_y: Overflow,
) -> Option<f32>
    ensures { result ≡ child_first_baseline first_baseline height overflow_y }
{
    if overflow_y.is_scroll_container() {
        Some(f32_max(f32_min(first_baseline.unwrap_or(height), height), 0.0))
    } else {
        first_baseline
    }
}
