//! What the jumps and calls of compiled code name is there.

ghost use Rattle.program_code.specs.Targets.{AllIsThere, EndsAreThere, TargetsAreThere};

/// Labels are numbered by where a construct begins, so each jump of a body goes to a label of its own construct or of a loop round it;
/// byte code calls copies by their numbers, operators call helpers that have a copy, and a routine jumps within itself. Selects name
/// the target of the instruction behind them, and leaving some out takes no label away. With the law that each byte has an address this
/// is all that the image of a program needs.
pub fn targets_are_there()
    ensures targets { TargetsAreThere }
    ensures ends { EndsAreThere }
    ensures all { AllIsThere }
{}
