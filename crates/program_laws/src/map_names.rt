//! The names in the lines of a map.

ghost use Rattle.program_laws.specs.MapNames.{LinesAreNamed};

/// The lines of objects and frames have names of letters, digits, `_`, `.` and `$`. Two frames under one root are those of different functions or
/// helpers: the names of functions differ, those of helpers too, and only those of helpers begin with `$`.
pub fn lines_are_named()
    ensures named { LinesAreNamed }
{}
