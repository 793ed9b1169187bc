//! The blocks of a program while what can go is searched for.

use crate::marks::is_marked;
use crate::owners::Ground;
use crate::rows::{Act, Shown};
use crate::search::bits::Bits;
use crate::search::effects::{Effect, effect_of, flag_of, no_effect, zero_flag};
use crate::search::known::Knowledge;
use crate::search::reach::Reach;
use crate::shown::bit_of;
use crate::walk::{is_label, same_label, same_name};
use core_code::Byte;
use pic_world::Root;
use std::alloc::{AllocError, Global};
use sym_code::{
    BlockName, Label, LiteralOperation, Operand, PlainOperation, Sym, SymBlock, Target,
};

/// Where the code goes on behind an instruction.
#[derive(Clone, Copy, PartialEq, Eq)]
pub enum Way {
    On,
    Label,
    /// To a place of the block.
    Goto(Option<usize>),
    /// To another block and back.
    Call(Option<usize>),
    Return,
    Stop,
    /// The handler ends.
    Restore,
}

/// The numbers of bytes that stand side by side.
#[derive(Clone, Copy, PartialEq, Eq)]
pub struct Span {
    pub first: usize,
    pub end: usize,
}

/// An instruction of a block.
#[derive(Clone, Copy)]
pub struct Place {
    pub sym: Sym,
    pub effect: Effect,
    pub way: Way,
    pub act: Act,
    /// It counts, or is the last word of its block: it isn't left out where something comes.
    pub fixed: bool,
    /// It is the last word of its block.
    pub last: bool,
    /// It is left out, and W of the code that is made holds its result.
    pub carried: bool,
    /// And Z of that code says of it.
    pub reports: bool,
    /// It is left out since what it writes is so already.
    pub needless: bool,
    /// The place of the first of the skips that stand one behind the other up to here.
    pub group: usize,
    /// Where it stores W in a temporary byte: the variables of the same frame.
    pub variables: Span,
    /// What a flag tells before it, where what it decides goes by that flag.
    pub shown: Shown,
}

/// W, flags and bytes: those that are read further on before they are written, or those that may differ.
#[derive(Clone, Copy, PartialEq, Eq)]
pub struct Live {
    pub bytes: Bits,
    pub w: bool,
    pub z: bool,
    pub dc: bool,
    pub c: bool,
}

/// A block.
#[derive(Drop)]
pub struct Body {
    pub name: BlockName,
    pub inside: bool,
    pub places: Vec<Place>,
    /// What is known before each place.
    pub known: Vec<Knowledge>,
    /// What is known where it returns.
    pub ends: Knowledge,
    /// A thread begins with it, or it isn't called.
    pub begins: bool,
    /// What is live before each place.
    pub live: Vec<Live>,
    /// What may differ before each place.
    pub differs: Vec<Live>,
}

/// What callers see of a block.
#[derive(Clone, Copy)]
pub struct Summary {
    pub front: Live,
    pub back: Live,
    /// The bytes that it and those that it calls name, and of these those that they read.
    pub named: Bits,
    pub reads: Bits,
    /// Bytes that may differ in functions that wait for it.
    pub outer: Bits,
    /// What may differ where it is called, and where it returns.
    pub entered: Live,
    pub returned: Live,
}

impl Live {
    pub fn nothing() -> Live {
        Live {
            bytes: Bits::none(),
            w: false,
            z: false,
            dc: false,
            c: false,
        }
    }

    pub fn all() -> Live {
        Live {
            bytes: Bits::all(),
            w: true,
            z: true,
            dc: true,
            c: true,
        }
    }

    pub fn join(self, other: Live) -> Live {
        Live {
            bytes: self.bytes.join(other.bytes),
            w: self.w || other.w,
            z: self.z || other.z,
            dc: self.dc || other.dc,
            c: self.c || other.c,
        }
    }
}

impl Summary {
    pub fn nothing() -> Summary {
        Summary {
            front: Live::nothing(),
            back: Live::nothing(),
            named: Bits::none(),
            reads: Bits::none(),
            outer: Bits::none(),
            entered: Live::nothing(),
            returned: Live::nothing(),
        }
    }
}

impl Place {
    /// What the instruction that is made of it reads and writes.
    pub fn made(&self) -> Effect {
        match self.act {
            Act::Keeps => self.effect,
            Act::Drops => Effect {
                to_w: self.carried,
                ..no_effect()
            },
            Act::Puts { op, .. } => match op {
                LiteralOperation::Movlw => Effect {
                    to_w: true,
                    ..no_effect()
                },
                _ => Effect {
                    reads: None,
                    uses_w: true,
                    ..self.effect
                },
            },
            Act::Narrows => Effect {
                writes: None,
                to_w: true,
                ..self.effect
            },
            Act::Clears => Effect {
                uses_w: false,
                sets: zero_flag(),
                ..self.effect
            },
            Act::Tests { flag, .. } => Effect {
                uses: flag_of(bit_of(flag)),
                ..self.effect
            },
            Act::Reads { before } => Effect {
                reads: self.read_before(before),
                writes: None,
                to_w: self.effect.to_w || self.effect.writes.is_some(),
                ..self.effect
            },
        }
    }

    // The byte so many bytes before its own.
    fn read_before(&self, before: u16) -> Option<usize> {
        match self.effect.reads {
            Some(byte) => Some(byte.saturating_sub(before as usize)),
            None => None,
        }
    }

    /// It may skip what stands behind it, and stays.
    pub fn stays_skip(&self) -> bool {
        self.effect.skips
            && match self.act {
                Act::Keeps => true,
                Act::Reads { .. } => true,
                Act::Tests { .. } => true,
                _ => false,
            }
    }

    pub fn is_label(&self) -> bool {
        match self.way {
            Way::Label => true,
            _ => false,
        }
    }

    pub fn is_dropped(&self) -> bool {
        match self.act {
            Act::Drops => true,
            _ => false,
        }
    }
}

fn label_place(list: &[Sym], label: Label) -> Option<usize> {
    for (at, sym) in list.iter().enumerate() {
        if let Sym::Label(other) = sym {
            if same_label(*other, label) {
                return Some(at);
            }
        }
    }
    None
}

fn block_place(blocks: &[SymBlock], name: BlockName) -> Option<usize> {
    for (at, block) in blocks.iter().enumerate() {
        if same_name(block.name, name) {
            return Some(at);
        }
    }
    None
}

fn goto_way(list: &[Sym], target: Target) -> Way {
    match target {
        Target::Block(_) => Way::Stop,
        Target::Label(label) => match label {
            Label::Inner(_) => Way::Goto(label_place(list, label)),
            Label::Halt => Way::Stop,
            Label::Restore => Way::Restore,
        },
    }
}

fn call_way(blocks: &[SymBlock], target: Target) -> Way {
    match target {
        Target::Block(name) => Way::Call(block_place(blocks, name)),
        Target::Label(_) => Way::Call(None),
    }
}

fn way_of(blocks: &[SymBlock], list: &[Sym], sym: Sym) -> Way {
    match sym {
        Sym::Label(_) => Way::Label,
        Sym::Goto(target) => goto_way(list, target),
        Sym::Call(target) => call_way(blocks, target),
        Sym::Plain(op) => match op {
            PlainOperation::Return => Way::Return,
            PlainOperation::Retfie => Way::Stop,
            _ => Way::On,
        },
        Sym::Literal { op, .. } => match op {
            LiteralOperation::Retlw => Way::Return,
            _ => Way::On,
        },
        _ => Way::On,
    }
}

// The variables of the frame in whose temporary byte W is stored.
fn variables_near(variables: &[u64], effect: Effect, sym: Sym) -> Span {
    let none = Span { first: 0, end: 0 };
    let Sym::Movwf(file) = sym else {
        return none;
    };
    let Operand::Byte(byte) = file else {
        return none;
    };
    let Byte::Frame { copy, offset } = byte else {
        return none;
    };
    let Some(number) = effect.writes else {
        return none;
    };
    let Some(bytes) = variables.get(copy as usize) else {
        return none;
    };
    let first = number.saturating_sub(offset as usize);
    let end = first.saturating_add((*bytes).min(368) as usize);
    if number < end {
        none
    } else {
        Span { first, end }
    }
}

// The place of the last instruction, in front of labels.
fn last_word(list: &[Sym]) -> usize {
    let mut last = 0;
    for (at, sym) in list.iter().enumerate() {
        if !is_label(*sym) {
            last = at;
        }
    }
    last
}

fn places_of(
    alloc: Global,
    reach: &Reach,
    blocks: &[SymBlock],
    variables: &[u64],
    inside: bool,
    list: &[Sym],
) -> Result<Vec<Place>, AllocError> {
    let mut places = Vec::new(alloc);
    let last = last_word(list);
    let mut group = 0;
    let mut skips = false;
    for (at, sym) in list.iter().enumerate() {
        let effect = effect_of(reach, inside, *sym);
        let way = way_of(blocks, list, *sym);
        if !skips || is_label(*sym) {
            group = at;
        }
        skips = effect.skips;
        places.push(Place {
            sym: *sym,
            effect,
            way,
            act: Act::Keeps,
            fixed: at == last || is_marked(variables, *sym),
            last: at == last,
            carried: false,
            reports: false,
            needless: false,
            group,
            variables: variables_near(variables, effect, *sym),
            shown: Shown::Unshown,
        })?;
    }
    Ok(places)
}

fn is_inside(ground: &Ground, name: BlockName) -> bool {
    match name {
        BlockName::Start => false,
        BlockName::Copy(copy) => match ground.placed.frames.get(copy as usize) {
            Some(frame) => frame.root == Root::Isr,
            None => false,
        },
    }
}

fn body_of(
    alloc: Global,
    reach: &Reach,
    blocks: &[SymBlock],
    variables: &[u64],
    block: &SymBlock,
) -> Result<Body, AllocError> {
    let inside = is_inside(reach.ground, block.name);
    let room = block.list.len();
    Ok(Body {
        name: block.name,
        inside,
        places: places_of(alloc, reach, blocks, variables, inside, &block.list)?,
        known: vec![in alloc; Knowledge::unreached(); room]?,
        ends: Knowledge::unreached(),
        begins: false,
        live: vec![in alloc; Live::nothing(); room]?,
        differs: vec![in alloc; Live::nothing(); room]?,
    })
}

/// The blocks of a program, before anything is searched for.
pub fn bodies_of(
    alloc: Global,
    reach: &Reach,
    blocks: &[SymBlock],
    variables: &[u64],
) -> Result<Vec<Body>, AllocError> {
    let mut bodies = Vec::new(alloc);
    for block in blocks {
        bodies.push(body_of(alloc, reach, blocks, variables, block)?)?;
    }
    Ok(bodies)
}

impl Body {
    pub fn place(&self, at: usize) -> Option<Place> {
        self.places.get(at).copied()
    }

    /// Whether anything comes to a place.
    pub fn comes_to(&self, at: usize) -> bool {
        match self.known.get(at) {
            Some(known) => known.reached,
            None => false,
        }
    }

    /// Whether the instruction of a place skips, as far as that is known.
    pub fn way_at(&self, at: usize, place: &Place) -> Option<bool> {
        match self.known.get(at) {
            Some(known) => if known.reached {
                known.way(place.sym, place.effect.reads)
            } else {
                None
            },
            None => None,
        }
    }

    /// What is live before a place; nothing behind the last one.
    pub fn live_at(&self, at: usize) -> Live {
        match self.live.get(at) {
            Some(live) => *live,
            None => Live::nothing(),
        }
    }

    /// The place of the first instruction from here on, behind the labels.
    pub fn word_from(&self, at: usize) -> usize {
        for next in at..self.places.len() {
            if !self.places[next].is_label() {
                return next;
            }
        }
        self.places.len()
    }
}
