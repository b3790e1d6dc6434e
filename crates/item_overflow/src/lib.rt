// What an item adds to its container's scrollable overflow area, and the baseline that it answers.
#![tactic(auto)]

pub mod baseline;
pub mod boxes;
pub mod contribution;
pub mod worked;
