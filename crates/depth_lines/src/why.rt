//! What no certificate allows at an address, and how that is said.

use crate::lines::Lines;

/// What a word may not do.
#[derive(Clone, Copy)]
pub enum Why {
    /// What comes next isn't known.
    WritesPcl,
    /// What is written isn't known.
    WritesIndf,
    /// INTCON is written, and no handler begins at 0004.
    NoHandler,
    /// The handler writes INTCON otherwise than by BCF, or BSF of a bit below 7.
    SetsGie,
    /// The handler calls what writes the byte in which it keeps PCLATH.
    WritesCell,
    /// GOTO and CALL, where bits 3 and 4 of PCLATH aren't known.
    UnknownGoto,
    UnknownCall,
    /// RETFIE, where PCLATH may be another one than was interrupted.
    NotRestored,
    RetfieOutside,
    /// RETURN or RETLW, and nothing has called it.
    Returns,
}

/// How a word meets a routine that it may not.
#[derive(Clone, Copy)]
pub enum Clash {
    /// What comes next is of that routine.
    RunsInto,
    /// It is called, and is where reset or an interrupt begins.
    CallsVector,
    /// What is called is of that routine, and not its entry.
    CallsInside,
    /// It is called by main and by the handler.
    CalledByBoth,
}

/// What isn't allowed.
#[derive(Clone, Copy)]
pub enum What {
    Word(Why),
    /// The clash is with the routine of this entry.
    Routine { clash: Clash, entry: u16 },
}

fn text_of(why: Why) -> &'static str {
    match why {
        Why::WritesPcl => "writes PCL",
        Why::WritesIndf => "writes through INDF",
        Why::NoHandler => "writes INTCON, and there is no handler",
        Why::SetsGie => "may set GIE in the handler",
        Why::WritesCell => "writes the byte in which the handler keeps PCLATH",
        Why::UnknownGoto => "GOTO with an unknown page",
        Why::UnknownCall => "CALL with an unknown page",
        Why::NotRestored => "RETFIE without PCLATH restored",
        Why::RetfieOutside => "RETFIE outside the handler",
        Why::Returns => "returns from what isn't called",
    }
}

fn text_before(clash: Clash) -> &'static str {
    match clash {
        Clash::RunsInto => "runs into routine ",
        Clash::CallsVector => "calls vector ",
        Clash::CallsInside => "calls into the middle of routine ",
        Clash::CalledByBoth => "main and the handler both call routine ",
    }
}

/// The line of a word that isn't allowed, without its end.
pub fn put_what(out: &mut Lines, at: u16, what: What) {
    out.address(at);
    out.put(b": ");
    match what {
        What::Word(why) => out.put(text_of(why).as_bytes()),
        What::Routine { clash, entry } => {
            out.put(text_before(clash).as_bytes());
            out.address(entry);
        }
    }
}
