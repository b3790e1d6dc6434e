// The tracks of one axis of a grid: how they share its free space, and where each of them begins.
#![tactic(auto)]

pub mod distribution;
pub mod grid_track;
pub mod track_alignment;
pub mod walk;
