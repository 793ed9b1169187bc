//! How many words a block has at most, with its selects.

ghost use Rattle.program_code.specs.Bounds.{BlocksAreBare, BlocksKeepWithin, CalledHaveCopies, ProgramsKeepSizes, SelectsAreCounted, WordsAreStated};
ghost use Rattle.program_code.specs.There.{BlocksKeepThere, PlacedHaveAddresses, PlacedStandInside, PlacedStayNear, RoutinesKeepThere, StartKeepsThere};

/// What is answered for a block without selects has at most the words that are counted for it: two selects for each byte in a bank,
/// jump and call, and none for a byte of the copy's own frame behind another one. The block that is selected for a lowered body has no
/// selects, names of its frame only the bytes that the function is stated to have, and is counted with at most its stated words. So its
/// real words never pass those by which blocks are placed. What a function's block names in the frame of a called one are its parameters,
/// so each called function has a copy: a chain of calls leads to it from the root, and there is a longest one. Each device register that a
/// block names is one that the program names. Where objects and frames end below 100h, all that blocks name stands below it, device registers
/// too.
pub fn words_are_bounded()
    ensures counted { SelectsAreCounted }
    ensures sizes { ProgramsKeepSizes }
    ensures bare { BlocksAreBare }
    ensures within { BlocksKeepWithin }
    ensures there { BlocksKeepThere }
    ensures routines { RoutinesKeepThere }
    ensures start { StartKeepsThere }
    ensures places { PlacedHaveAddresses }
    ensures inside { PlacedStandInside }
    ensures near { PlacedStayNear }
    ensures stated { WordsAreStated }
    ensures called { CalledHaveCopies }
{}
