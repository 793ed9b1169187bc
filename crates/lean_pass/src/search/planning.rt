//! The search for a certificate, and what it says of each block.

use crate::owners::{Ground, grounded};
use crate::rows::{Act, Apart, ByteSet, Facts, Note, Shown};
use crate::search::bits::Bits;
use crate::search::bodies::{Body, Live, Place, Summary, bodies_of};
use crate::search::choosing::Aims;
use crate::search::differing::find_differing;
use crate::search::known::{BYTES, Knowledge};
use crate::search::learning::learn_all;
use crate::search::living::{find_live, find_outer};
use crate::search::reach::{Reach, hidden_in};
use pic_map::Placed;
use std::alloc::{AllocError, Global};
use sym_code::{BlockName, SymBlock};

/// What becomes of an instruction, and what is said before it.
#[derive(Drop)]
pub struct Plan {
    pub act: Act,
    pub note: Option<Note>,
}

/// Of a block, with the last instruction first.
#[derive(Drop)]
pub struct BlockPlan {
    pub plans: Vec<Plan>,
    pub inside: bool,
    pub ends: Note,
    pub outer: ByteSet,
}

/// Of all blocks, with the last one first.
#[derive(Drop)]
pub struct Plans {
    pub blocks: Vec<BlockPlan>,
    pub rest: ByteSet,
    pub hidden: ByteSet,
}

/// How often what can go is searched for, at most.
const ROUNDS: u32 = 30;

// The bytes of a thread.
fn bytes_of(ground: &Ground, inside: bool) -> Bits {
    let mut bytes = Bits::none();
    for byte in 0..BYTES {
        if ground.is_own(inside, byte) {
            bytes.put(byte);
        }
    }
    bytes
}

// A set is listed up to the last byte that is in it.
fn length_of(bytes: Bits) -> usize {
    let mut length = 0;
    for byte in 0..BYTES {
        if bytes.has(byte) {
            length = byte.saturating_add(1);
        }
    }
    length
}

fn set_of(alloc: Global, bytes: Bits) -> Result<ByteSet, AllocError> {
    let mut has = Vec::new(alloc);
    for byte in 0..length_of(bytes) {
        has.push(bytes.has(byte))?;
    }
    Ok(ByteSet { has })
}

fn values_of(alloc: Global, known: &Knowledge) -> Result<Vec<Option<u8>>, AllocError> {
    let mut values = Vec::new(alloc);
    for byte in 0..length_of(known.known) {
        values.push(known.value(byte))?;
    }
    Ok(values)
}

fn twins_of(alloc: Global, known: &Knowledge) -> Result<Vec<Option<u16>>, AllocError> {
    let mut twins = Vec::new(alloc);
    for byte in 0..length_of(known.copies) {
        twins.push(known.twin(byte))?;
    }
    Ok(twins)
}

fn note_of(
    alloc: Global,
    known: &Knowledge,
    live: Live,
    apart: Bits,
    carry: Option<usize>,
    shown: Shown,
) -> Result<Note, AllocError> {
    Ok(Note {
        facts: Facts {
            number: known.number,
            held: set_of(alloc, known.held)?,
            zero: known.zero,
            known: values_of(alloc, known)?,
            twins: twins_of(alloc, known)?,
            carry_bit: known.carry_bit,
            zero_bit: known.zero_bit,
        },
        apart: Apart {
            w: !live.w,
            z: !live.z,
            dc: !live.dc,
            c: !live.c,
            bytes: set_of(alloc, apart)?,
        },
        carry,
        shown,
    })
}

// What is carried behind a place.
fn carried(place: &Place, carry: Option<usize>) -> Option<usize> {
    match place.act {
        Act::Narrows => place.effect.writes,
        Act::Reads { .. } => place.effect.writes,
        Act::Drops => if place.carried { None } else { carry },
        _ => None,
    }
}

// Whether Z of the code that is made says of W behind a place, where that is carried.
fn told(place: &Place, told: bool) -> bool {
    match place.act {
        Act::Narrows => place.effect.sets.z,
        Act::Reads { .. } => place.effect.writes.is_some() && place.effect.sets.z,
        Act::Drops => told && !place.carried,
        _ => false,
    }
}

// What is said to be shown before a place.
fn shown_at(place: &Place, told: bool) -> Shown {
    if told && place.shown == Shown::Unshown {
        Shown::Reports
    } else {
        place.shown
    }
}

fn plan_of(
    alloc: Global,
    body: &Body,
    at: usize,
    apart: Bits,
    carry: Option<usize>,
    told: bool,
) -> Result<Plan, AllocError> {
    let Some(place) = body.place(at) else {
        return Ok(Plan {
            act: Act::Keeps,
            note: None,
        });
    };
    let known = match body.known.get(at) {
        Some(known) => *known,
        None => Knowledge::unreached(),
    };
    if place.is_label() || !known.reached {
        return Ok(Plan {
            act: place.act,
            note: None,
        });
    }
    Ok(Plan {
        act: place.act,
        note: Some(note_of(
            alloc,
            &known,
            body.live_at(at),
            apart,
            carry,
            shown_at(&place, told),
        )?),
    })
}

fn plans_of(alloc: Global, body: &Body, named: Bits, own: Bits) -> Result<Vec<Plan>, AllocError> {
    let mut plans = Vec::new(alloc);
    let mut carry = None;
    let mut tells = false;
    for at in 0..body.places.len() {
        plans.push(plan_of(alloc, body, at, body.apart(at, named, own), carry, tells)?)?;
        if let Some(place) = body.place(at) {
            carry = carried(&place, carry);
            tells = told(&place, tells);
        }
    }
    plans.reverse();
    Ok(plans)
}

fn block_plan(
    alloc: Global,
    body: &Body,
    summary: Summary,
    own: Bits,
) -> Result<BlockPlan, AllocError> {
    let apart = summary.named.meet(own).without(summary.back.bytes);
    Ok(BlockPlan {
        plans: plans_of(alloc, body, summary.named, own)?,
        inside: body.inside,
        ends: note_of(alloc, &body.ends, summary.back, apart, None, Shown::Unshown)?,
        outer: set_of(alloc, summary.outer)?,
    })
}

// Leaves out what can go, again and again. Answers whether what is live was found at the end.
fn search_all(bodies: &mut [Body], summaries: &mut [Summary]) -> bool {
    for _round in 0..ROUNDS {
        if !find_live(bodies, summaries) {
            return false;
        }
        if !search_once(bodies, summaries) {
            break;
        }
    }
    find_live(bodies, summaries)
}

fn shorten_all(bodies: &mut [Body]) {
    for body in bodies.iter_mut() {
        if is_searched(body.name) {
            body.shorten();
        }
    }
}

// One kind at a time. Answers whether anything went.
fn search_once(bodies: &mut [Body], summaries: &mut [Summary]) -> bool {
    improve_all(bodies, Aims::Dead, summaries)
        || (find_differing(bodies, summaries)
            && (improve_all(bodies, Aims::Same, summaries)
                || improve_all(bodies, Aims::SameZero, summaries)))
        || hop_all(bodies)
        || decide_all(bodies, summaries)
        || narrow_all(bodies, summaries, true)
        || narrow_all(bodies, summaries, false)
}

fn improve_all(bodies: &mut [Body], aims: Aims, summaries: &[Summary]) -> bool {
    let mut changed = false;
    for own in 0..bodies.len() {
        if is_searched(bodies[own].name) {
            changed = bodies[own].improve(own, aims, summaries) || changed;
        }
    }
    changed
}

fn hop_all(bodies: &mut [Body]) -> bool {
    let mut changed = false;
    for own in 0..bodies.len() {
        if is_searched(bodies[own].name) {
            changed = bodies[own].hop() || changed;
        }
    }
    changed
}

// Branches that a comparison decides, which go by its flag.
fn decide_all(bodies: &mut [Body], summaries: &[Summary]) -> bool {
    let mut changed = false;
    for own in 0..bodies.len() {
        if is_searched(bodies[own].name) {
            changed = bodies[own].decide(own, summaries) || changed;
        }
    }
    changed
}

// First of copies, since what is read in their place may no longer go.
fn narrow_all(bodies: &mut [Body], summaries: &[Summary], copies: bool) -> bool {
    let mut changed = false;
    for own in 0..bodies.len() {
        if is_searched(bodies[own].name) {
            changed = bodies[own].narrow(own, summaries, copies) || changed;
        }
    }
    changed
}

// The start block stays as it is.
fn is_searched(name: BlockName) -> bool {
    match name {
        BlockName::Start => false,
        BlockName::Copy(_) => true,
    }
}

// The bytes of the handler's that may differ while it doesn't run: those that may at its front.
fn rest_of(bodies: &[Body], summaries: &[Summary], handler: Option<u16>, isr: Bits) -> Bits {
    for (at, body) in bodies.iter().enumerate() {
        if let BlockName::Copy(copy) = body.name {
            if Some(copy) == handler {
                if let Some(summary) = summaries.get(at) {
                    return body.apart(0, summary.named, isr);
                }
            }
        }
    }
    Bits::none()
}

fn all_plans(
    alloc: Global,
    bodies: &[Body],
    summaries: &[Summary],
    main: Bits,
    isr: Bits,
) -> Result<Vec<BlockPlan>, AllocError> {
    let mut plans = Vec::new(alloc);
    for (at, body) in bodies.iter().enumerate() {
        let summary = match summaries.get(at) {
            Some(summary) => *summary,
            None => Summary::nothing(),
        };
        let own = if body.inside { isr } else { main };
        plans.push(block_plan(alloc, body, summary, own)?)?;
    }
    plans.reverse();
    Ok(plans)
}

/// Searches for a certificate. There may be none.
pub fn search(
    alloc: Global,
    blocks: &[SymBlock],
    handler: Option<u16>,
    placed: &Placed,
    variables: &[u64],
    lent: &[bool],
) -> Result<Option<Plans>, AllocError> {
    let ground = grounded(alloc, placed)?;
    let reach = Reach {
        ground: &ground,
        hidden: hidden_in(placed, lent),
    };
    let mut bodies = bodies_of(alloc, &reach, blocks, variables)?;
    let mut summaries = vec![in alloc; Summary::nothing(); blocks.len()]?;
    let main = bytes_of(&ground, false);
    let isr = bytes_of(&ground, true);
    let found = learn_all(alloc, &mut bodies, &reach, handler)?
        && search_all(&mut bodies, &mut summaries)
        && find_outer(&bodies, main, isr, &mut summaries);
    if !found {
        return Ok(None);
    }
    shorten_all(&mut bodies);
    Ok(Some(Plans {
        blocks: all_plans(alloc, &bodies, &summaries, main, isr)?,
        rest: set_of(alloc, rest_of(&bodies, &summaries, handler, isr))?,
        hidden: set_of(alloc, reach.hidden)?,
    }))
}
