//! Which cells the events of a run of the source have.

ghost use Rattle.program_laws.specs.EventNames.{StepsAreNamed, TakenAreNamed, TracesAreNamed};

/// A step from a state that stands makes an event with a name, or none; so does each step behind so many, and all events of a trace have
/// names.
pub fn events_have_names()
    ensures steps { StepsAreNamed }
    ensures taken { TakenAreNamed }
    ensures traces { TracesAreNamed }
{}
