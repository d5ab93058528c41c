//! The laws of a program's faults. Each is the contract of a function that does nothing.

ghost use Rattle.type_check.specs.Laws.{AcceptedHaveNoFault, RefusalNamesTheFirst};

/// The fault that a refusal names is one of the program's faults and none of them stands before it, by place and then by the order of
/// checks. An accepted program has none.
pub fn first_fault()
    ensures named { RefusalNamesTheFirst }
    ensures accepted { AcceptedHaveNoFault }
{}
