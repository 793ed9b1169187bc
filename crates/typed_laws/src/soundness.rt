//! The rules on names and types imply what a typed program keeps.

ghost use Rattle.typed_laws.specs.Soundness.{JudgedSound};

/// Where the rules on names and types give a tree a typed program, that program is sound: what each node names is there with its
/// declared type, the typing rules hold at each node, members and first values lie within their objects, labels are distinct and lead
/// into their switch, and sizes are those of the types.
pub fn judged_sound()
    ensures sound { JudgedSound }
{}
