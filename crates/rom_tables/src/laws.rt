//! What holds of each program whose tables are read by calls.

ghost use Rattle.rom_tables.specs.Laws.{KeepsAcyclic, KeepsNames, KeepsRoots, KeepsSmall, KeepsSound};

/// A program whose tables are read by calls is sound where the given one is, and at most 16 times as large: nodes, static
/// objects, parameters and locals together. Nothing calls itself, and the rules on main and on the interrupt handler hold,
/// where that is so in the given program, and functions have different names, where names are so there.
pub fn outlined_laws()
    ensures sound { KeepsSound }
    ensures small { KeepsSmall }
    ensures acyclic { KeepsAcyclic }
    ensures roots { KeepsRoots }
    ensures names { KeepsNames }
{}
