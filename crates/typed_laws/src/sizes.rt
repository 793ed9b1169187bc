//! The rules on names and types make few nodes of a text.

ghost use Rattle.typed_laws.specs.SizesAndFaults.{JudgedBounded, JudgedSmall};

/// Where the rules on names and types give a tree a typed program, its nodes, static objects, parameters and locals are together at most three
/// times as many as the tokens that the tree is spelled with. So a text of at most 262,144 tokens has at most 2 to the 20 of them.
pub fn judged_small()
    ensures small { JudgedSmall }
    ensures bounded { JudgedBounded }
{}
