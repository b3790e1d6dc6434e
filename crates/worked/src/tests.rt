// Examples of the crates below, by hand.
mod numbers;
mod shapes;
mod styles;
