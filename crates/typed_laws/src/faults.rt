//! The rules on names and types tell the first rule that a text breaks.

ghost use Rattle.typed_laws.specs.SizesAndFaults.{FirstFault};

/// The rule that is told as broken is the first in the order of the text: of the nodes of an expression, operands before their operators; of
/// declarations, declarators, members, enumerators, parameters, statements and labels; of the items of a list of initializers and its end; and of the
/// conditions and statements of an `if`. All before it are fine, and where all are fine no rule is broken.
pub fn first_fault()
    ensures first { FirstFault }
{}
