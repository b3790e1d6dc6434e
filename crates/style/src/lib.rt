// The style of a grid item: its alignments, lengths and modes, and the ranges that its numbers keep.
#![tactic(auto)]

pub mod alignment;
pub mod length;
pub mod modes;
pub mod range;
pub mod style;
