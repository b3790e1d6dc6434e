// The lengths of a style, resolved against a basis: px as they are, percentages of the basis, calculations by the host.
#![tactic(auto)]

pub mod resolve;

// A calculation whose result is out of limits, by its handle.
#[derive(Clone, Copy, Debug, PartialEq, Eq)]
pub struct CalcOutOfLimits {
    pub handle: u32,
}
