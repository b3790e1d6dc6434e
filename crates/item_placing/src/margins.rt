// The margins that an item uses along one axis, per CSS Grid Layout 1, section 10.2, and CSS 2, sections 10.3.7 and 10.6.4.
ghost use Rattle.std.specs.Prelude.{◌≡◌};
ghost use Rattle.item_placing.specs.Margins.{set_margins, set_size, auto_space, two_auto_margins, used_margins};

use crate::area_item::AreaItem;
use crate::block::length_of;
use crate::direction::flow_relative;
use geometry::{AbsoluteAxis, Line};
use number::f32_max;

impl AreaItem {
    // The margins that are set, an automatic one as 0; the baseline shim comes on top of the start.
    fn set_margins(self) -> Line<f32>
        ensures { result ≡ set_margins self }
    {
        Line {
            start: self.margin.start.unwrap_or(0.0) + self.baseline_shim,
            end: self.margin.end.unwrap_or(0.0),
        }
    }

    pub(crate) fn set_margin_sum(self) -> f32
        ensures { result ≡ set_size self }
    {
        self.set_margins().sum()
    }

    // What the automatic margins take: in flow the space that is left, if any; out of flow exactly what two insets leave.
    fn auto_space(self) -> f32
        ensures { result ≡ auto_space self }
    {
        let rest = length_of(self.block()) - self.size - self.set_margin_sum();
        if !self.position.is_out_of_flow() {
            f32_max(rest, 0.0)
        } else if self.inset.both_set() {
            rest
        } else {
            0.0
        }
    }

    // What two automatic margins take of a space: horizontally, one that is negative is all at the end of the line.
    fn two_auto_margins(self, space: f32) -> Line<f32>
        ensures { result ≡ two_auto_margins space self.axis self.direction }
    {
        match self.axis {
            AbsoluteAxis::Horizontal if space < 0.0 => {
                let at_line_end = Line {
                    start: 0.0,
                    end: space,
                };
                flow_relative(at_line_end, self.direction)
            }
            _ => Line {
                start: space / 2.0,
                end: space / 2.0,
            },
        }
    }

    // A lone automatic margin takes the whole space.
    pub(crate) fn used_margins(self) -> Line<f32>
        ensures { result ≡ used_margins self }
    {
        let space = self.auto_space();
        let auto = match (self.margin.start, self.margin.end) {
            (None, None) => self.two_auto_margins(space),
            _ => Line {
                start: space,
                end: space,
            },
        };
        Line {
            start: self.margin.start.unwrap_or(auto.start) + self.baseline_shim,
            end: self.margin.end.unwrap_or(auto.end),
        }
    }
}
