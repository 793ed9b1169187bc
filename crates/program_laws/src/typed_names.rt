//! The names that the rules on names and types give to functions and static objects.

ghost use Rattle.program_laws.specs.TypedNames.{JudgedNamed};

/// Where the rules on names and types give a tree of the grammar a typed program, its functions have names of the text that differ, and its
/// static objects have names of the text, or FUNCTION.K.NAME.
pub fn judged_named()
    ensures named { JudgedNamed }
{}
