//! What the handler's runs leave of main.

ghost use Rattle.chip_trace.specs.Context.{HoldingSelected, Passing, Returning, Sparing};

/// Behind each whole run of the handler W, STATUS, FSR, PCLATH with all its bits and the program counter are what they were when it
/// was entered. So are as many words of the return stack as were in use, and all bytes of main's frames and results.
pub fn context_returns()
    ensures { Returning }
{}

/// Behind each whole run of the handler the bits of STATUS and PCLATH that selects set are what they were when it was entered: what is
/// known of them for main's code holds across the interrupt.
pub fn selects_hold_again()
    ensures { HoldingSelected }
{}

/// A run of the handler writes only bytes of static objects that aren't const, of its own frames and results, and 78h to 7Bh, where it
/// keeps main's context. Each of its instructions leaves all other bytes as they were, and so does the whole run.
pub fn handler_keeps()
    ensures { Sparing }
{}

/// Main's instructions between two of its events may be put behind all runs of the handler that come between them. From a state at
/// which main stands as at the first of them, with what is of the handler, or seen by both, as these runs leave it, they make no event,
/// change no byte but main's, and come to the same state, but for words of the return stack that aren't in use and for bytes of nobody,
/// the saved context among them.
pub fn main_goes_past()
    ensures { Passing }
{}
