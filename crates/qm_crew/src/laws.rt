//! What holds of marks, as the contract of a function that does nothing.

ghost use Rattle.qm_crew.specs.Orders.{MarksTheUnion};

/// In whatever order workers come to the end of their lists, what is marked is the union of these.
pub fn marks_are_the_union()
    ensures { MarksTheUnion }
{}
