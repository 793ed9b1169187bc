//! Whose each general byte is, and where operands lead.

ghost use Rattle.std.specs.Prelude.{◌≡◌, ◌<◌, ◌+◌, ◌^◌, ℕ, length, map, IfOk, slice_get, [], ◌∷◌, ◌++◌, if◌then◌else◌};
ghost use Rattle.pic_chip.specs.Address as chip;
ghost use Rattle.pic_chip.specs.Run as objects;
ghost use Rattle.sym_code.specs.Layout as layouts;
ghost use Rattle.code_place.specs.Layouts.{layout_of, range_of, frame_of};
ghost use Rattle.lean_code.specs.Changes as changes;
ghost use Rattle.lean_code.specs.Checked as listed;
ghost use Rattle.lean_pass.specs.Owners as stated;
ghost use Rattle.lean_pass.specs.Owners.{AreOwners, kind, aim_of};
ghost use Rattle.lean_pass.specs.Views.{block_of};

use crate::rows::{Apart, ByteSet, Facts, LeanBlock, Note, Shown};
use core_code::Byte;
use pic_map::{FrameLine, ObjLine, Placed};
use pic_world::Root;
use std::alloc::{AllocError, Global};
use sym_code::{BlockName, Operand, Register};

/// How many general bytes the chip has.
const BYTES: usize = 368;

/// Whose a general byte is.
#[derive(Clone, Copy, PartialEq, Eq)]
pub enum Whose {
    /// A static object's that isn't const: each access is an event.
    Watched,
    Constant,
    Main,
    Isr,
    Nobody,
}

/// Where an operand leads.
#[derive(Clone, Copy, PartialEq, Eq)]
pub enum Aim {
    ToFsr,
    ToEvent,
    ToByte(usize),
    /// What FSR and IRP point to.
    Through,
    Nowhere,
}

/// Where objects and frames stand, and of each general byte whose it is.
#[derive(Drop)]
pub struct Ground<'a> {
    pub placed: &'a Placed,
    pub owners: Vec<Whose>,
    /// A block that isn't there.
    pub none: LeanBlock,
    pub ghost fits: { AreOwners (layout_of placed.now) owners.items },
    pub ghost empty: { block_of none ≡ listed.no_block },
}

// ---- owners

fn covers(line: &ObjLine, address: u128) -> bool
    ensures { result ≡ objects.covers (range_of line.now) address }
{
    let first = line.address as u128;
    first <= address && address < first + line.size as u128
}

fn is_watched(lines: &[ObjLine], address: u128) -> bool
    ensures { result ≡ stated.is_watched (map range_of lines.now) address }
{
    match lines {
        [] => false,
        [line, rest @ ..] => {
            if !line.fixed && covers(line, address) {
                true
            } else {
                is_watched(rest, address)
            }
        }
    }
}

fn covers_any(lines: &[ObjLine], address: u128) -> bool
    ensures { result ≡ layouts.covers_any (map range_of lines.now) address }
{
    match lines {
        [] => false,
        [line, rest @ ..] => covers(line, address) || covers_any(rest, address),
    }
}

fn root_kind(root: Root) -> Whose
    ensures { result ≡ kind (layouts.Of root) }
{
    match root {
        Root::Main => Whose::Main,
        Root::Isr => Whose::Isr,
    }
}

fn is_in_frame(line: &FrameLine, address: u128) -> bool
    ensures { result ≡ stated.is_in_frame (frame_of line.now) address }
{
    let first = line.address as u128;
    first <= address && address < first + line.size as u128
}

fn frame_kind(lines: &[FrameLine], address: u128) -> Whose
    ensures { result ≡ kind (layouts.frame_owner (map frame_of lines.now) address) }
{
    match lines {
        [] => Whose::Nobody,
        [line, rest @ ..] => {
            if is_in_frame(line, address) {
                root_kind(line.root)
            } else {
                frame_kind(rest, address)
            }
        }
    }
}

fn private_kind(placed: &Placed, address: u128) -> Whose
    ensures { result ≡ kind (layouts.private_owner (layout_of placed.now) address) }
{
    if 0x70 <= address && address < 0x74 {
        Whose::Main
    } else if 0x74 <= address && address < 0x78 {
        Whose::Isr
    } else {
        frame_kind(&placed.frames, address)
    }
}

// The lowest address of a general byte.
fn general_address(number: usize) -> u128
    ensures { result ≡ chip.address_of number }
{
    let number = number as u128;
    if number < 96 {
        number + 0x20
    } else if number < 176 {
        number + 0x40
    } else if number < 272 {
        number + 0x60
    } else {
        number + 0x80
    }
}

/// Whose the general byte of a number is.
#[tactic(auto, using(crate::proofs::Grounds::kind_is))]
fn kind_of(placed: &Placed, number: usize) -> Whose
    ensures { result ≡ kind (layouts.owner (layout_of placed.now) number) }
{
    let address = general_address(number);
    if is_watched(&placed.objects, address) {
        Whose::Watched
    } else if covers_any(&placed.objects, address) {
        Whose::Constant
    } else {
        private_kind(placed, address)
    }
}

fn is_own(inside: bool, whose: Whose) -> bool
    ensures { result ≡ stated.own_by inside whose }
{
    match whose {
        Whose::Main => !inside,
        Whose::Isr => inside,
        Whose::Watched => false,
        Whose::Constant => false,
        Whose::Nobody => false,
    }
}

fn is_near(inside: bool, whose: Whose) -> bool
    ensures { result ≡ stated.near_by inside whose }
{
    match whose {
        Whose::Constant => true,
        Whose::Main => !inside,
        Whose::Isr => inside,
        Whose::Watched => false,
        Whose::Nobody => false,
    }
}

// ---- operands

#[tactic(auto, using(crate::proofs::Grounds::object_is))]
fn object_address(placed: &Placed, object: u16) -> u32
    ensures value { result ≡ (layouts.object (layout_of placed.now) object).address }
    ensures small { result < 2 ^ 16 }
{
    match placed.objects.get(object as usize) {
        Some(line) => line.address as u32,
        None => 0,
    }
}

#[tactic(auto, using(crate::proofs::Grounds::frame_is))]
fn frame_address(placed: &Placed, copy: u16) -> u32
    ensures value { result ≡ (layouts.frame (layout_of placed.now) copy).address }
    ensures small { result < 2 ^ 16 }
{
    match placed.frames.get(copy as usize) {
        Some(line) => line.address as u32,
        None => 0,
    }
}

fn result_address(root: Root) -> u32
    ensures value { result ≡ layouts.result_address root }
    ensures small { result < 2 ^ 16 }
{
    match root {
        Root::Main => 0x70,
        Root::Isr => 0x74,
    }
}

#[tactic(auto, unfolding(sym_code::specs::Layout::address_of))]
fn address_of(placed: &Placed, byte: Byte) -> u32
    ensures { result ≡ layouts.address_of (layout_of placed.now) byte }
{
    match byte {
        Byte::Static { object, offset } => object_address(placed, object) + offset as u32,
        Byte::Frame { copy, offset } => frame_address(placed, copy) + offset as u32,
        Byte::Result { root, k } => result_address(root) + k as u32,
        Byte::Device { address } => address as u32,
    }
}

fn is_core(bank: u32, low: u32) -> bool
    ensures { result ≡ stated.is_core bank low }
{
    low == 2 || low == 3 || low == 4 || low == 10 || low == 11 || (low == 12 && bank < 2)
}

fn first_general(bank: u32) -> u32
    ensures { result ≡ stated.first_general bank }
{
    if bank < 2 { 0x20 } else { 0x10 }
}

/// The number of the general byte at an address.
#[tactic(auto, using(crate::proofs::Grounds::general_is))]
pub fn general_at(address: u32) -> Option<usize>
    ensures { result ≡ layouts.general_at address }
{
    let bank = address / 128;
    let low = address % 128;
    if is_core(bank, low) {
        None
    } else if 0x70 <= low {
        Some((low - 0x20) as usize)
    } else if first_general(bank) <= low {
        Some((0x60 * bank + low - 0x20) as usize)
    } else {
        None
    }
}

fn access(inside: bool, writes: bool, number: usize, whose: Whose) -> Aim
    ensures { aim_of result ≡ stated.access_by inside writes number whose }
{
    match whose {
        Whose::Watched => Aim::ToEvent,
        Whose::Constant => if writes {
            Aim::Nowhere
        } else {
            Aim::ToByte(number)
        },
        Whose::Main => if inside {
            Aim::Nowhere
        } else {
            Aim::ToByte(number)
        },
        Whose::Isr => if inside {
            Aim::ToByte(number)
        } else {
            Aim::Nowhere
        },
        Whose::Nobody => Aim::Nowhere,
    }
}

impl<'a> Ground<'a> {
    fn listed(&self, number: usize) -> Whose
        ensures { result ≡ stated.owner_in (layout_of self.now.placed.now) number (slice_get self.now.owners.items number) }
    {
        match self.owners.get(number) {
            Some(whose) => *whose,
            None => kind_of(self.placed, number),
        }
    }

    #[tactic(auto, using(crate::proofs::Grounds::owner_is))]
    fn owner(&self, number: usize) -> Whose
        ensures { result ≡ kind (layouts.owner (layout_of self.now.placed.now) number) }
    {
        self.listed(number)
    }

    /// Whether a byte is the thread's own.
    #[tactic(auto, using(crate::proofs::Grounds::own_is))]
    pub fn is_own(&self, inside: bool, number: usize) -> bool
        ensures { result ≡ changes.is_own inside (layouts.owner (layout_of self.now.placed.now) number) }
    {
        is_own(inside, self.owner(number))
    }

    /// Whether the other thread can't change a byte.
    #[tactic(auto, using(crate::proofs::Grounds::near_is))]
    pub fn is_near(&self, inside: bool, number: usize) -> bool
        ensures { result ≡ changes.is_near inside (layouts.owner (layout_of self.now.placed.now) number) }
    {
        is_near(inside, self.owner(number))
    }

    fn general_aim(&self, inside: bool, writes: bool, address: u32) -> Aim
        ensures { aim_of result ≡ stated.general_aim (layout_of self.now.placed.now) inside writes (layouts.general_at address) }
    {
        match general_at(address) {
            None => Aim::Nowhere,
            Some(number) => access(inside, writes, number, self.owner(number)),
        }
    }

    fn byte_aim(&self, inside: bool, writes: bool, byte: Byte) -> Aim
        ensures { aim_of result ≡ stated.byte_aim (layout_of self.now.placed.now) inside writes byte }
    {
        match byte {
            Byte::Device { .. } => Aim::ToEvent,
            Byte::Static { .. } => self.general_aim(inside, writes, address_of(self.placed, byte)),
            Byte::Frame { .. } => self.general_aim(inside, writes, address_of(self.placed, byte)),
            Byte::Result { .. } => self.general_aim(inside, writes, address_of(self.placed, byte)),
        }
    }

    /// Where an operand leads.
    #[tactic(auto, using(crate::proofs::Grounds::byte_is), unfolding(lean_code::specs::Changes::aim))]
    pub fn aim(&self, inside: bool, writes: bool, operand: Operand) -> Aim
        ensures { aim_of result ≡ changes.aim (layout_of self.now.placed.now) inside writes operand }
    {
        match operand {
            Operand::Byte(byte) => self.byte_aim(inside, writes, byte),
            Operand::Register(register) => match register {
                Register::Indf => Aim::Through,
                Register::Fsr => Aim::ToFsr,
                Register::Status => Aim::Nowhere,
                Register::Pclath => Aim::Nowhere,
            },
            Operand::Saved(_) => Aim::Nowhere,
        }
    }
}

// ---- the ground of a test

/// A block that isn't there.
pub fn no_block(alloc: Global) -> LeanBlock
    ensures { block_of result ≡ listed.no_block }
{
    LeanBlock {
        name: BlockName::Start,
        rows: Vec::new(alloc),
        inside: false,
        ends: Note {
            facts: Facts {
                number: None,
                held: ByteSet {
                    has: Vec::new(alloc),
                },
                zero: false,
                known: Vec::new(alloc),
                twins: Vec::new(alloc),
                carry_bit: false,
                zero_bit: false,
            },
            apart: Apart {
                w: true,
                z: true,
                dc: true,
                c: true,
                bytes: ByteSet {
                    has: Vec::new(alloc),
                },
            },
            carry: None,
            shown: Shown::Unshown,
        },
        outer: ByteSet {
            has: Vec::new(alloc),
        },
    }
}

fn put_owner(owners: &mut Vec<Whose>, whose: Whose) -> Result<(), AllocError>
    ensures { IfOk result (λ _. owners.new.items ≡ owners.old.items ++ (whose ∷ [])) }
{
    owners.push(whose)?;
    Ok(())
}

#[tactic(auto, using(crate::proofs::Grounds::owners_none, crate::proofs::Grounds::owners_more))]
fn owners_of(alloc: Global, placed: &Placed) -> Result<Vec<Whose>, AllocError>
    ensures { IfOk result (λ owners. AreOwners (layout_of placed.now) owners.items) }
{
    let mut owners = Vec::new(alloc);
    for number in 0..BYTES {
        put_owner(&mut owners, kind_of(placed, number))?;
    }
    Ok(owners)
}

/// The ground of a test.
pub fn grounded<'a>(alloc: Global, placed: &'a Placed) -> Result<Ground<'a>, AllocError>
    ensures { IfOk result (λ ground. ground.placed.now ≡ placed.now) }
{
    let owners = owners_of(alloc, placed)?;
    Ok(Ground {
        placed,
        owners,
        none: no_block(alloc),
    })
}
