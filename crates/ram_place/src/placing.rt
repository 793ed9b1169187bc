//! Where the static objects and the frames stand.

ghost use Rattle.std.specs.Prelude.{◌≡◌, ℕ, ◌+◌, ◌<◌, ◌≤◌, ◌||◌, ◌⊎◌, ◌++◌, ◌∷◌, [], true, false, map, slice_get, IfOk, MatchOption};
ghost use Rattle.c_typed.specs.Views.{program_of, static_of};
ghost use Rattle.pic_map.specs.MapView.{object_of, frame_of};
ghost use Rattle.call_graph.specs.Copies.{AreCopies};
ghost use Rattle.ram_place.specs.Answers as answers;
ghost use Rattle.live_frames.specs.Live.{IsGraphOf, IsSound, IsIn};
ghost use Rattle.live_frames.specs.Memory.{is_taken};
ghost use Rattle.ram_place.specs.Placement as stated;
ghost use Rattle.ram_place.specs.Regions.{StandsBelow, HasNoPlaceBelow};
ghost use Rattle.ram_place.specs.declared.placing.PlaceError.TheVariants.{NoMemory};

use crate::frame::frame_bytes;
use crate::leaving::is_left_out;
use crate::naming::{copied, name_of};
use c_typed::{Static, Typed, bytes_of};
use call_graph::{Copies, FnCopy};
use live_frames::{Graph, Span, Taken};
use pic_map::{FrameLine, ObjLine, Placed};
use std::alloc::{AllocError, Global};

/// Why there is no placing: the static object of that name, or the frame of the function of that name,
/// has no address.
#[derive(Drop)]
pub enum PlaceError {
    NoMemory,
    Ram { object: Vec<u8> },
}

impl From<AllocError> for PlaceError {
    ghost from_gives = { λ _ e. e ≡ NoMemory };

    fn from(_: AllocError) -> PlaceError {
        PlaceError::NoMemory
    }
}

/// The end of data memory: all regions lie below it.
const MEMORY_END: u16 = 0x200;

// Whether a run that has bytes ends above the top.
fn is_over(span: Span, top: u16) -> bool
    ensures over { result ≡ true → (0 < span.size) × (top < span.address + span.size) }
    ensures within { result ≡ false → (span.size ≡ 0) ⊎ (span.address + span.size ≤ top) }
{
    if span.size == 0 {
        return false;
    }
    span.address as u32 + span.size as u32 > top as u32
}

// Where something of so many bytes stands below the top, where these bytes are taken.
fn place_below_top(taken: &Taken, size: u64, top: u16) -> Option<Span>
    ensures { MatchOption result (HasNoPlaceBelow top (λ x. is_taken taken.now.marks x ≡ true) size) (λ span. StandsBelow top (λ x. is_taken taken.now.marks x ≡ true) size span.address × (span.size ≡ size) × (span.size ≤ 96)) }
{
    let Some(span) = taken.find(size) else {
        return None;
    };
    if is_over(span, top) {
        return None;
    }
    Some(span)
}

// The line of a static object, where these bytes are taken.
fn object_line(
    alloc: Global,
    p: &Typed,
    object: &Static,
    taken: &Taken,
    top: u16,
) -> Result<ObjLine, PlaceError>
    ensures { answers.TellsObject top (program_of p.now) (λ x. is_taken taken.now.marks x ≡ true) (static_of object.now) result }
{
    let name = copied(alloc, &object.name)?;
    match place_below_top(taken, bytes_of(&p.structures, object.ty.ty), top) {
        Some(span) => Ok(ObjLine {
            fixed: object.ty.constant,
            name,
            address: span.address,
            size: span.size,
        }),
        None => Err(PlaceError::Ram { object: name }),
    }
}

// The line of a copy's frame, where these bytes are taken.
fn frame_line(
    alloc: Global,
    p: &Typed,
    copy: FnCopy,
    taken: &Taken,
    top: u16,
) -> Result<FrameLine, PlaceError>
    ensures { answers.TellsFrame top (program_of p.now) (λ x. is_taken taken.now.marks x ≡ true) copy result }
{
    let name = name_of(alloc, p, copy.function)?;
    match place_below_top(taken, frame_bytes(p, copy.function), top) {
        Some(span) => Ok(FrameLine {
            root: copy.root,
            name,
            address: span.address,
            size: span.size,
        }),
        None => Err(PlaceError::Ram { object: name }),
    }
}

fn put_object(objects: &mut Vec<ObjLine>, line: ObjLine) -> Result<(), AllocError>
    ensures { IfOk result (λ _. objects.new.items ≡ objects.old.items ++ (line ∷ [])) }
{
    objects.push(line)?;
    Ok(())
}

fn put_frame(frames: &mut Vec<FrameLine>, line: FrameLine) -> Result<(), AllocError>
    ensures { IfOk result (λ _. frames.new.items ≡ frames.old.items ++ (line ∷ [])) }
{
    frames.push(line)?;
    Ok(())
}

// The static objects that are placed, and the bytes that they take.
#[derive(Drop)]
struct Objects {
    lines: Vec<ObjLine>,
    taken: Taken,
}

fn place_objects(alloc: Global, p: &Typed, without: &[u32], top: u16) -> Result<Objects, PlaceError>
    ensures { answers.TellsObjects (stated.but_below (program_of p.now) without.now top) (program_of p.now) result }
{
    let mut lines = Vec::new(alloc);
    let mut taken = Taken::none();
    for (number, object) in p.statics.iter().enumerate() {
        if is_left_out(without, number) {
            continue;
        }
        let line = object_line(alloc, p, object, &taken, top)?;
        taken.take(Span {
            address: line.address,
            size: line.size,
        });
        put_object(&mut lines, line)?;
    }
    Ok(Objects { lines, taken })
}

// The line of a copy's frame behind those of the first of the copies.
fn next_frame(
    alloc: Global,
    p: &Typed,
    graph: &Graph,
    objects: &Objects,
    list: &[FnCopy],
    copy: FnCopy,
    frames: &[FrameLine],
    top: u16,
) -> Result<FrameLine, PlaceError>
    requires graph { IsGraphOf (program_of p.now) graph.now }
    requires sound { IsSound graph.now }
    requires next { IsIn graph.now copy }
    requires list { (k : ℕ) → (copy : FnCopy) → slice_get list.now k ≡ Some copy → IsIn graph.now copy }
    requires objects { answers.AreMarked objects.now }
    ensures { answers.TellsFrame top (program_of p.now) (stated.IsTakenFor (program_of p.now) (map object_of objects.now.lines.items) list.now (map frame_of frames.now) copy) copy result }
{
    let mut taken = objects.taken;
    graph.take_live(alloc, &mut taken, copy, list, frames)?;
    frame_line(alloc, p, copy, &taken, top)
}

fn place_frames(
    alloc: Global,
    p: &Typed,
    graph: &Graph,
    objects: &Objects,
    list: &[FnCopy],
    top: u16,
) -> Result<Vec<FrameLine>, PlaceError>
    requires graph { IsGraphOf (program_of p.now) graph.now }
    requires sound { IsSound graph.now }
    requires list { (k : ℕ) → (copy : FnCopy) → slice_get list.now k ≡ Some copy → IsIn graph.now copy }
    requires objects { answers.AreMarked objects.now }
    ensures { answers.TellsFrames top (program_of p.now) (map object_of objects.now.lines.items) list.now result }
{
    let mut frames = Vec::new(alloc);
    for copy in list {
        let line = next_frame(alloc, p, graph, objects, list, *copy, &frames, top)?;
        put_frame(&mut frames, line)?;
    }
    Ok(frames)
}

fn take_all(taken: &mut Taken, frames: &[FrameLine])
    ensures { (x : ℕ) → x < 512 → is_taken taken.new.marks x ≡ (is_taken taken.old.marks x || stated.frames_have (map frame_of frames.now) x) }
{
    for frame in frames {
        taken.take(Span {
            address: frame.address,
            size: frame.size,
        });
    }
}

// How many addresses objects and frames cover.
fn covered(objects: &Objects, frames: &[FrameLine]) -> u16
    requires { answers.AreMarked objects.now }
    ensures { result ≡ stated.addresses_covered (map object_of objects.now.lines.items) (map frame_of frames.now) }
{
    let mut taken = objects.taken;
    take_all(&mut taken, frames);
    taken.count()
}

/// The addresses of a program with these copies. Static objects whose numbers are in `without` have none. The others are
/// placed in order of declaration, and then the frames in the order of the copies: each whole in one region, at the
/// lowest address where it overlaps no static object and no earlier frame that may be live together with it. It is
/// refused if it ends above the top there. What has no bytes stands at 20h and overlaps nothing.
#[tactic(auto, using(c_typed::proofs::Facts::few_functions))]
pub fn place_within(
    alloc: Global,
    p: &Typed,
    copies: &Copies,
    without: &[u32],
    top: u16,
) -> Result<Placed, PlaceError>
    // The copies are those of the program.
    requires known { AreCopies (program_of p.now) copies.now.list.items }
    // The answer is that of the placing below the top.
    ensures exact { answers.TellsPlacingIn (stated.but_below (program_of p.now) without.now top) (program_of p.now) copies.now.list.items result }
    // All stands where it would stand in the whole memory.
    ensures whole { IfOk result (λ placed. stated.IsPlacingBut (program_of p.now) copies.now.list.items without.now (map object_of placed.objects.items) (map frame_of placed.frames.items)) }
    // Frames that may be live together are disjoint,
    ensures apart { IfOk result (λ placed. stated.LiveFramesAreDisjoint (program_of p.now) copies.now.list.items (map frame_of placed.frames.items)) }
    // and no frame overlaps a static object,
    ensures clear { IfOk result (λ placed. stated.FramesAreClear (map object_of placed.objects.items) (map frame_of placed.frames.items)) }
    // nor does another static object.
    ensures objects { IfOk result (λ placed. stated.ObjectsAreDisjoint (map object_of placed.objects.items)) }
    // Each address that is covered is counted once.
    ensures ram { IfOk result (λ placed. placed.ram ≡ stated.addresses_covered (map object_of placed.objects.items) (map frame_of placed.frames.items)) }
{
    let objects = place_objects(alloc, p, without, top)?;
    let graph = Graph::new(alloc, p)?;
    let frames = place_frames(alloc, p, &graph, &objects, &copies.list, top)?;
    let ram = covered(&objects, &frames);
    Ok(Placed {
        objects: objects.lines,
        frames,
        ram,
    })
}

/// The same in the whole memory.
pub fn place_but(
    alloc: Global,
    p: &Typed,
    copies: &Copies,
    without: &[u32],
) -> Result<Placed, PlaceError>
    // The copies are those of the program.
    requires known { AreCopies (program_of p.now) copies.now.list.items }
    // The answer is that of the placing.
    ensures exact { answers.TellsPlacingIn (stated.but (program_of p.now) without.now) (program_of p.now) copies.now.list.items result }
    // Frames that may be live together are disjoint,
    ensures apart { IfOk result (λ placed. stated.LiveFramesAreDisjoint (program_of p.now) copies.now.list.items (map frame_of placed.frames.items)) }
    // and no frame overlaps a static object,
    ensures clear { IfOk result (λ placed. stated.FramesAreClear (map object_of placed.objects.items) (map frame_of placed.frames.items)) }
    // nor does another static object.
    ensures objects { IfOk result (λ placed. stated.ObjectsAreDisjoint (map object_of placed.objects.items)) }
    // Each address that is covered is counted once.
    ensures ram { IfOk result (λ placed. placed.ram ≡ stated.addresses_covered (map object_of placed.objects.items) (map frame_of placed.frames.items)) }
{
    place_within(alloc, p, copies, without, MEMORY_END)
}

/// The same of all static objects, below a top.
pub fn place_below(
    alloc: Global,
    p: &Typed,
    copies: &Copies,
    top: u16,
) -> Result<Placed, PlaceError>
    // The copies are those of the program.
    requires known { AreCopies (program_of p.now) copies.now.list.items }
    // The answer is that of the placing below the top.
    ensures exact { answers.TellsPlacingIn (stated.whole_below (program_of p.now) top) (program_of p.now) copies.now.list.items result }
    // All stands where it would stand in the whole memory.
    ensures whole { IfOk result (λ placed. stated.IsPlacing (program_of p.now) copies.now.list.items (map object_of placed.objects.items) (map frame_of placed.frames.items)) }
    // Frames that may be live together are disjoint,
    ensures apart { IfOk result (λ placed. stated.LiveFramesAreDisjoint (program_of p.now) copies.now.list.items (map frame_of placed.frames.items)) }
    // and no frame overlaps a static object,
    ensures clear { IfOk result (λ placed. stated.FramesAreClear (map object_of placed.objects.items) (map frame_of placed.frames.items)) }
    // nor does another static object.
    ensures objects { IfOk result (λ placed. stated.ObjectsAreDisjoint (map object_of placed.objects.items)) }
    // Each address that is covered is counted once.
    ensures ram { IfOk result (λ placed. placed.ram ≡ stated.addresses_covered (map object_of placed.objects.items) (map frame_of placed.frames.items)) }
{
    place_within(alloc, p, copies, &[], top)
}

/// The addresses of a program with these copies: of all its static objects and frames, in the whole memory.
pub fn place(alloc: Global, p: &Typed, copies: &Copies) -> Result<Placed, PlaceError>
    // The copies are those of the program.
    requires known { AreCopies (program_of p.now) copies.now.list.items }
    // The answer is that of the placing.
    ensures exact { answers.TellsPlacing (program_of p.now) copies.now.list.items result }
    // Frames that may be live together are disjoint,
    ensures apart { IfOk result (λ placed. stated.LiveFramesAreDisjoint (program_of p.now) copies.now.list.items (map frame_of placed.frames.items)) }
    // and no frame overlaps a static object,
    ensures clear { IfOk result (λ placed. stated.FramesAreClear (map object_of placed.objects.items) (map frame_of placed.frames.items)) }
    // nor does another static object.
    ensures objects { IfOk result (λ placed. stated.ObjectsAreDisjoint (map object_of placed.objects.items)) }
    // Each address that is covered is counted once.
    ensures ram { IfOk result (λ placed. placed.ram ≡ stated.addresses_covered (map object_of placed.objects.items) (map frame_of placed.frames.items)) }
{
    place_below(alloc, p, copies, MEMORY_END)
}
