// What a layout algorithm asks of the tree that it works on, what it is answered, and what every host of such a tree has in common.
#![tactic(auto)]

pub mod bits;
pub mod fault;
pub mod laws;
pub mod layout;
pub mod numbers;
pub mod question;
pub mod traits;
