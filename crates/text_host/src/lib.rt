// A host of texts: it computes how each breaks into lines.
#![tactic(auto)]

pub mod host;
pub mod laws;
#[cfg(test)]
mod tests;
pub mod text;
