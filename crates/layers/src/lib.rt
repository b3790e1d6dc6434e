// Layers on a host: a cache, which remembers measurements, and a tally, which counts questions. A layer means what the host below it means.
#![tactic(auto)]

// Each layer forwards, call by call, what it adds nothing to. One impl for every layer might stand in the trait's own crate alone, and would say what each layer
// means, asks and counts a second time.
pub mod cache;
pub mod memory;
pub mod pile;
pub mod tally;
#[cfg(test)]
mod tests;
