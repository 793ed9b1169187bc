//! Scripts: what reaches a run from outside, and where it falls in the trace of a run of the chip.
//!
//! In: the text of a script file; an image, a map and a script. Out: the script's input bytes and its arrivals, or the first
//! line that no script has; what a run of the chip tells of its arrivals and of the runs of its handler.
//! The promise: a text is read exactly where it is a script file, and what is read is its content. What is read off a run is
//! what the definition of the chip's run says.
#![tactic(auto)]

ghost use Rattle.std.specs.Prelude.{◌≡◌, ℕ, List};
ghost use Rattle.schedule.specs.ScriptFile.{ScriptContent, IsScriptFile};
ghost use Rattle.schedule.specs.ScriptExample.{example_text, example_script};

mod off;
mod read;

pub use off::{Off, read_off};
pub use read::{ScriptError, read_script};

/// Each text has one content at most.
pub fn one_content()
    ensures { (text : List ℕ) (a b : ScriptContent) → IsScriptFile text a → IsScriptFile text b → a ≡ b }
{}

/// The definition of script files at an example that was worked out by hand.
pub fn worked_example()
    ensures { IsScriptFile example_text example_script }
{}
