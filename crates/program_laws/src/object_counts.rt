//! How many static objects a program has whose objects have their places.

ghost use Rattle.program_laws.specs.Few.{ObjectsAreFew, StartsFit};

/// The static objects of a sound program that all have their places are no more than the regions for them have bytes, since each has
/// a byte at least; and the start block, which gives each byte its first value, isn't over a page.
pub fn objects_are_few()
    ensures few { ObjectsAreFew }
    ensures start { StartsFit }
{}
