// Where an item stands within its grid area along one axis, and how far its insets move it from there.
#![tactic(auto)]

pub mod area_item;
pub mod block;
pub mod direction;
pub mod edge;
pub mod margins;
pub mod offset;
pub mod place;
pub mod worked;
