//! What the compiler's passes answer is what the links ask for.

ghost use Rattle.headline_trace.specs.Assembly.{AssemblyIsHad, BeginningIsHad};
ghost use Rattle.headline_trace.specs.Bounded.{BlocksAreInOrder, BlocksAreStated, BlocksFit, CopiesAreFew, TranslationsAreStated, TranslationsFit};
ghost use Rattle.headline_trace.specs.Faithful.{TranslationsAreFaithful};
ghost use Rattle.headline_trace.specs.Passed.{BodiesAreHad, LayoutIsHad, LayoutServes, SelectsAreHad, StartIsHad};
ghost use Rattle.headline_trace.specs.Translations.{TranslationsAreLinked, TranslationsAreLowerable, TranslationsFollow};
ghost use Rattle.headline_trace.specs.Selection.{DepthIsHad, LeanIsHad, LevelsAreHad, ReachIsHad, SelectionIsHad};
ghost use Rattle.headline_trace.specs.Addressed.{LeanKeepsOperands, MadeHaveOperands, OperandsHaveAddresses, SelectsKeepOperands, WholeKeepNear};
ghost use Rattle.headline_trace.specs.Registered.{CodeNamesRegisters, MadeNameRegisters};
ghost use Rattle.headline_trace.specs.Within.{TranslationsStayWithin};
ghost use Rattle.headline_trace.specs.Written.{MapsAreWritten};

/// Of a sound program, byte code of its copies, the blocks that are joined from it and what `selects` answers for them have the selects
/// that the link between symbolic code without and with selects asks for.
pub fn selects_are_had()
    ensures { SelectsAreHad }
{}

/// Each copy of a function of a sound program has the body that the link of selection asks for: it is that of its number, ends by
/// leaving, and each number that it sets is a byte.
pub fn bodies_are_had()
    ensures { BodiesAreHad }
{}

/// The start block with its selects is the first; the vector stands in it behind four words, and where main has ended it goes back to
/// where it is.
pub fn start_is_had()
    ensures { StartIsHad }
{}

/// Where the placing puts objects and frames is a layout of the program's objects and copies; each stands whole in a bank, and what may
/// be live together by chains of calls is apart.
pub fn layout_is_had()
    ensures layout { LayoutIsHad }
    ensures laid_out { LayoutServes }
{}

/// Leaner code follows the code that was selected. At the prices that it has together with its selects, carried back, each instruction of
/// a function's copy costs no more than the link of selection allows for it, and so does each of a helper's routine; and each that no pass
/// leaves out counts.
pub fn lean_is_had()
    ensures { LeanIsHad }
{}

/// Chains of calls between copies, as a search finds them, go on, and each call is one; calls go up by levels, which fit the return
/// stack, main's, the interrupt's and the handler's together.
pub fn calls_are_had()
    ensures reach { ReachIsHad }
    ensures levels { LevelsAreHad }
    ensures depth { DepthIsHad }
{}

/// Of a program whose passes all answered, and whose objects and frames are placed, the link of selection is given all that it asks
/// for: under the levels of its copies as limits, and with chains of calls telling which frames may be live together.
pub fn selection_is_had()
    ensures { SelectionIsHad }
{}

/// Of such a program the link between symbolic code and the chip is given all that it asks for, where the words of the blocks stand in
/// the image, and the map has the objects of the placing.
pub fn assembly_is_had()
    ensures { AssemblyIsHad }
{}

/// Without its selects the start block is the code that sets each object to its first bytes; these are those of the program, and have
/// room where the objects are placed.
pub fn beginning_is_had()
    ensures { BeginningIsHad }
{}

/// What all passes make of a typed program is what the links ask for: the program is one that lowering keeps, since its objects and frames
/// fit a region of memory and its blocks a page; and with its code in every language, its image and its map it is linked. By the root and
/// the name of a function's copy the map tells its frame. So the image does on the chip what the program says.
pub fn translations_are_linked()
    ensures lowerable { TranslationsAreLowerable }
    ensures linked { TranslationsAreLinked }
    ensures follow { TranslationsFollow }
{}

/// Of what all passes make of a typed program the headline holds: each word of the image is one of
/// an instruction of the model, the map has exactly the program's objects and copies where they are to stand, frames that may be live
/// together are apart and clear of objects, and every run of the chip follows the source.
pub fn translations_are_faithful()
    ensures { TranslationsAreFaithful }
{}

/// Each run of such an image stays within its code: before main is met, and while no step of the source is undefined, each instruction that
/// begins stands below the end of the last block. It touches core registers, device registers that the code names, bytes of the map, and by
/// its own operand 70h to 7Fh, and nothing else. Where every address of the map is below 100h, RP1 and IRP are 0.
pub fn translations_stay_within()
    ensures { TranslationsStayWithin }
{}

/// Where the code is as it was selected, each block with its selects has at most the words that are stated of it: the start block, the block
/// of a function's copy, and that of a helper's; so it has without those that flow facts make needless. Of leaner code that is tested. Blocks
/// with at most their stated words have room where blocks of the stated words are placed, if they stand in the same order; and in what the
/// passes make they do, leaner or not, since copies and blocks are sorted by the same ranks. So no block lacks room where `pages` puts it. A
/// program has fewer than 8,192 copies, since each block has a word.
pub fn blocks_have_room()
    ensures stated { BlocksAreStated }
    ensures all_stated { TranslationsAreStated }
    ensures fit { BlocksFit }
    ensures in_order { BlocksAreInOrder }
    ensures all_fit { TranslationsFit }
    ensures few { CopiesAreFew }
{}

/// What each instruction of a program's blocks names has an address: the byte that it touches, or whose address it has as a literal. That
/// is so of the blocks that are joined, of leaner ones, and of what is left of them by their selects. Where objects and frames end below
/// 100h, no select sets RP1.
pub fn operands_have_addresses()
    ensures named { OperandsHaveAddresses }
    ensures kept { SelectsKeepOperands }
    ensures lean { LeanKeepsOperands }
    ensures made { MadeHaveOperands }
    ensures near { WholeKeepNear }
{}

/// Each device register that an instruction has as its operand, in what the passes make of a program, is one that the program names, by
/// itself or by a bit. Helpers' routines and the start block name none.
pub fn registers_are_named()
    ensures made { MadeNameRegisters }
    ensures code { CodeNamesRegisters }
{}

/// A map file can tell the map of what the passes make, if its names are such as a map file has: main and its end are in program memory,
/// and objects and frames in data memory.
pub fn maps_are_written()
    ensures { MapsAreWritten }
{}
