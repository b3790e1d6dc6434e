// What placing an item asks of its host: zeros go down without sign, and every answer is in limits or refused.
#![tactic(auto)]

pub mod asking;
pub mod fault;
