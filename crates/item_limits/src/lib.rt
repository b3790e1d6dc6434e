// The sides of a grid item before its content is measured: their limits, the space that they may fill, and what each is to be.
#![tactic(auto)]

pub mod item_axis;
pub mod limits;
pub mod ratio_box;
pub mod self_alignment;
pub mod sizing_keyword;
pub mod worked;
