// The words of a page description: its numbers and its keywords.
#![tactic(auto)]

pub mod decimal;
pub mod keyword;
pub mod size;
