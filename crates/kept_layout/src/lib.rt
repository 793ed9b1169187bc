//! Symbolic code over the layout of an optimising build, in which the static objects that aren't kept are main's own bytes.
//!
//! In: nothing; the crate has definitions, and laws about them. Out: nothing.
//! The promise: code over that layout goes step by step with the same code over the layout of the program, and its trace is the kept one.
#![tactic(auto)]

ghost use Rattle.kept_layout.specs.Carrying.{Carries};
ghost use Rattle.kept_layout.specs.Laid.{KeptIsLaidOut};
ghost use Rattle.kept_layout.specs.NamedCode.{NamedIsOpen};
ghost use Rattle.kept_layout.specs.Routines.{RoutinesAreNamed};
ghost use Rattle.kept_layout.specs.Sample.{SampleSwitches};
ghost use Rattle.kept_layout.specs.Sampled.{SampleMeets};
ghost use Rattle.kept_layout.specs.Selection.{SelectionKeepsNames};
ghost use Rattle.kept_layout.specs.Switching.{Switches, SwitchedFollows};
ghost use Rattle.kept_layout.specs.Within.{KeepsIsNamed};

/// Over the layout in which private objects are main's own bytes code has at each moment the same threads and memory, and the kept trace, where the
/// handler's code accesses none of these bytes, no access through FSR goes to one, and no instruction reads and writes one.
pub fn layouts_switch()
    ensures moments { Switches }
    ensures follows { SwitchedFollows }
{}

/// Objects and frames are whole and apart over that layout, too.
pub fn kept_layout_is_laid_out()
    ensures { KeptIsLaidOut }
{}

/// Code that names bytes within their objects and frames is open where no private object is named in the handler's blocks, or by an instruction
/// that reads and writes.
pub fn named_code_opens()
    ensures { NamedIsOpen }
{}

/// Selected code names no static object that byte code doesn't name, and reads and writes none by one instruction.
pub fn selection_keeps_names()
    ensures { SelectionKeepsNames }
{}

/// A block is named within its layout where the bytes that it names are there, and its objects are such as it may name.
pub fn kept_names_are_named()
    ensures { KeepsIsNamed }
{}

/// So is the routine of a helper, which names bytes of its own frame and results alone.
pub fn routines_are_named()
    ensures { RoutinesAreNamed }
{}

/// A schedule that is made from the kept trace of a run of byte code is so made from that of the code that follows it.
pub fn schedules_carry()
    ensures { Carries }
{}

/// Of a program of five instructions, which meets all that is asked, two events of four are left.
pub fn sample_switches()
    ensures traces { SampleSwitches }
    ensures meets { SampleMeets }
{}
