// The laws of `f32`, each group on the contract of a function, so that the check asks for its proof.
ghost use Rattle.number.specs.Laws.{Sizes, Order, Signs, Monotone, Limits};

// A bound on operands bounds the rounded result.
pub fn sizes_hold()
    ensures { Sizes }
{}

// All values but NaN are in one order, with least upper and greatest lower bounds.
pub fn order_holds()
    ensures { Order }
{}

// Results of operands that are not below zero are not below zero.
pub fn signs_hold()
    ensures { Signs }
{}

// Sums and differences keep the order.
pub fn sums_are_monotone()
    ensures { Monotone }
{}

// The test of the limits says how large a number is.
pub fn limits_hold()
    ensures { Limits }
{}
