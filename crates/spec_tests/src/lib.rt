//! Worked examples of the definitions on which the theorems rest, computed by the checker.
//!
//! In: nothing. Out: nothing. The promise: the definitions give the typed programs, the broken rules, the events and the undefined
//! steps that ISO/IEC 9899:1990, docs/language.md and the rules of interrupts give by hand, and the values of the data sheet.
#![tactic(auto)]

ghost use Rattle.spec_tests.specs.ChipExamples.{WorkedExamples};
ghost use Rattle.spec_tests.specs.RuleExamples.{WorkedRules};
ghost use Rattle.spec_tests.specs.RunExamples.{WorkedRuns};
ghost use Rattle.spec_tests.specs.WordExamples.{WorkedWords};

/// Small units with their typed programs, or with the first rule that each breaks.
pub fn worked_rules()
    ensures { WorkedRules }
{}

/// Runs of small programs under scripts, with the events that they make, worked out by hand from ISO/IEC 9899:1990 and
/// from the rules of interrupts (Microchip DS39582); and for each kind of undefined step a program that meets it.
pub fn worked_runs()
    ensures { WorkedRuns }
{}

/// The definitions on which every theorem rests, at a dozen examples that were worked out by hand from the data sheet
/// of the PIC16F877A (Microchip DS39582) and from the format of HEX files.
pub fn worked_examples()
    ensures { WorkedExamples }
{}

/// The words of symbolic instructions that name labels, blocks and bytes, worked out by hand from the table of instructions of the
/// data sheet (Microchip DS39582). The image of a program has these words, by the contract of `assemble` of code_place.
pub fn worked_words()
    ensures { WorkedWords }
{}
