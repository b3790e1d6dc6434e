// A host that answers by tables of records.
#![tactic(auto)]

pub mod host;
pub mod laws;
pub mod records;
#[cfg(test)]
mod tests;
