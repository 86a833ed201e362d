//! What holds of dual values, whatever the code. The law is the contract of a function that does nothing.
ghost use Rattle.dual_value.specs.Near.{DualFloorsAreNear};

/// The dual value of a book is at most its exact dual value, and less than a grain for each order below it.
pub fn dual_floors_are_near()
    ensures { DualFloorsAreNear }
{}
