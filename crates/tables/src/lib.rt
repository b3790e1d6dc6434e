// Tables of records: the first record that is for a key, and nodes with a place for the layout of each.
#![tactic(auto)]

pub mod keyed;
pub mod nodes;
