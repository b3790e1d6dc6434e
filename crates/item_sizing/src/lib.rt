// The sizes of a grid item: measured where its content decides, held in their limits, and laid out once.
#![tactic(auto)]

pub mod laid_out;
pub mod sizing_item;
pub mod used_sizes;
