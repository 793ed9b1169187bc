//! The bytes of all objects, and where each object's address is.

ghost use Rattle.std.specs.Prelude.{◌≡◌, ◌≤◌, ℕ, ◌&&◌, nat_eq, if◌then◌else◌, IfOk, length, map, slice_get, slice_set};
ghost use Rattle.c_typed.specs.Trees.{Program};
ghost use Rattle.c_typed.specs.Views.{program_of};
ghost use Rattle.pic_map.specs.MapContent.{MapContent};
ghost use Rattle.pic_map.specs.MapView.{content_of};
ghost use Rattle.pic_world.specs.declared.Root.{Root as Roots};
ghost use Rattle.src_memory.specs.Cells.{Cell, byte_at, cell, cell_at, cell_in, cell_or_none, cleared_cell, frames_in, memory_in, put_cell, put_first, seen_cell, size_of, unset, variable_at, with_value};
ghost use Rattle.src_memory.specs.Shape.{IsShaped};
ghost use Rattle.src_memory.specs.Shown.{shown_byte};
ghost use Rattle.src_memory.specs.Start.{all_frames, static_cells, seen_frames};
ghost use Rattle.src_values.specs.Memory.{cleared, first_memory, fresh, is_of};
ghost use Rattle.src_values.specs.Objects.{same_object};
ghost use Rattle.src_values.specs.Seen.{datum_of};
ghost use Rattle.src_values.specs.Values as stated;
ghost use Rattle.src_values.specs.declared.objects.Object.{Object as AnyObject};

use crate::start::{frames_at_start, statics_at_start};
use c_typed::Typed;
use pic_map::Map;
use pic_world::{Cell as Place, Root};
use src_values::values::{byte_count, byte_of};
use src_values::{Byte, CopyOf, Datum, Object};
use std::alloc::{AllocError, Global};

/// An object: its bytes, its address in the map below 512, and whether an access to it is an event.
#[derive(Drop)]
pub(crate) struct Cells {
    pub bytes: Vec<Byte>,
    pub address: u16,
    pub watched: bool,
}

impl Clone for Cells {
    ghost is_clone = { λ a b. cell b ≡ cell a };

    fn clone(&self) -> Result<Cells, AllocError> {
        Ok(Cells {
            bytes: self.bytes.clone()?,
            address: self.address,
            watched: self.watched,
        })
    }
}

/// The memory of a run: static objects, and the variables of each function, in main's copy and in the handler's.
#[derive(Drop)]
pub struct Memory {
    fixed: Vec<Cells>,
    main: Vec<Vec<Cells>>,
    handler: Vec<Vec<Cells>>,
}

impl Clone for Memory {
    ghost is_clone = { λ a b. (o : AnyObject) → cell_in b o ≡ cell_in a o };

    fn clone(&self) -> Result<Memory, AllocError> {
        Ok(Memory {
            fixed: self.fixed.clone()?,
            main: self.main.clone()?,
            handler: self.handler.clone()?,
        })
    }
}

/// Writes a byte, where there is one.
pub(crate) fn put_byte(bytes: &mut Vec<Byte>, offset: u64, byte: Byte)
    ensures { bytes.new.items ≡ slice_set bytes.old.items offset byte }
{
    if offset < bytes.len() as u64 {
        bytes[offset as usize] = byte;
    }
}

fn unset_all(bytes: &mut Vec<Byte>)
    ensures { bytes.new.items ≡ map unset bytes.old.items }
{
    for k in 0..bytes.len() {
        bytes[k] = Byte::Unset;
    }
}

// The object of a number gets a byte.
fn put_in(cells: &mut [Cells], number: u128, offset: u64, byte: Byte)
    ensures { (k : ℕ) → cell_at cells.new k ≡ if nat_eq k number then put_cell (cell_at cells.old k) offset byte else cell_at cells.old k }
{
    if number < cells.len() as u128 {
        put_byte(&mut cells[number as usize].bytes, offset, byte);
    }
}

// The variable of a number of a function gets a byte.
fn put_in_frame(frames: &mut [Vec<Cells>], function: usize, number: u128, offset: u64, byte: Byte)
    ensures { (f k : ℕ) → variable_at frames.new f k ≡ if nat_eq f function && nat_eq k number then put_cell (variable_at frames.old f k) offset byte else variable_at frames.old f k }
{
    if function < frames.len() {
        put_in(&mut frames[function], number, offset, byte);
    }
}

// No byte of the object of a number has a value any longer.
fn clear_in(cells: &mut [Cells], number: u128)
    ensures { (k : ℕ) → cell_at cells.new k ≡ if nat_eq k number then cleared_cell (cell_at cells.old k) else cell_at cells.old k }
{
    if number < cells.len() as u128 {
        unset_all(&mut cells[number as usize].bytes);
    }
}

// No byte of the variable of a number of a function has a value any longer.
fn clear_in_frame(frames: &mut [Vec<Cells>], function: usize, number: u128)
    ensures { (f k : ℕ) → variable_at frames.new f k ≡ if nat_eq f function && nat_eq k number then cleared_cell (variable_at frames.old f k) else variable_at frames.old f k }
{
    if function < frames.len() {
        clear_in(&mut frames[function], number);
    }
}

// No byte of these objects has a value any longer.
fn clear_all(cells: &mut [Cells])
    ensures { (k : ℕ) → cell_at cells.new k ≡ cleared_cell (cell_at cells.old k) }
{
    for number in 0..cells.len() {
        clear_in(cells, number as u128);
    }
}

// No variable of a function has a value any longer.
fn clear_frame(frames: &mut [Vec<Cells>], function: usize)
    ensures { (f k : ℕ) → variable_at frames.new f k ≡ if nat_eq f function then cleared_cell (variable_at frames.old f k) else variable_at frames.old f k }
{
    if function < frames.len() {
        clear_all(&mut frames[function]);
    }
}

// An object of a list, if it has one of the number.
fn cells_in(cells: &[Cells], number: u128) -> Option<&Cells>
    ensures { cell_or_none result ≡ cell_at cells.now number }
{
    if number < cells.len() as u128 {
        Some(&cells[number as usize])
    } else {
        None
    }
}

fn cells_of(frames: &[Vec<Cells>], function: usize, number: u128) -> Option<&Cells>
    ensures { cell_or_none result ≡ variable_at frames.now function number }
{
    cells_in(frames.get(function)?, number)
}

impl Memory {
    /// The memory at the start: static objects with their initial values, otherwise 0, and variables unset.
    pub fn new(alloc: Global, program: &Typed, map: &Map) -> Result<Memory, AllocError>
        ensures memory { IfOk result (λ m. memory_in m ≡ first_memory (program_of program.now)) }
        ensures shape { IfOk result (λ m. length (program_of program.now).statics ≤ 65536 → IsShaped (program_of program.now) (content_of map.now) m) }
    {
        Ok(Memory {
            fixed: statics_at_start(alloc, program, map)?,
            main: frames_at_start(alloc, program, map, Root::Main)?,
            handler: frames_at_start(alloc, program, map, Root::Isr)?,
        })
    }

    fn frames(&self, root: Root) -> &[Vec<Cells>]
        ensures { result.now ≡ frames_in self.now root }
    {
        match root {
            Root::Main => &self.main,
            Root::Isr => &self.handler,
        }
    }

    // An object, if there is one.
    fn cells(&self, object: Object) -> Option<&Cells>
        ensures { cell_or_none result ≡ cell_in self.now object }
    {
        match object {
            Object::Fixed(number) => cells_in(&self.fixed, number as u128),
            Object::Variable { copy, number } => {
                cells_of(self.frames(copy.root), copy.function, number)
            }
        }
    }

    /// A byte of an object, so many bytes behind its start, if it has that byte.
    pub(crate) fn get(&self, object: Object, offset: u64) -> Option<Byte>
        ensures { result ≡ slice_get (cell_in self.now object).bytes offset }
    {
        let bytes = &self.cells(object)?.bytes;
        if offset < bytes.len() as u64 {
            Some(bytes[offset as usize])
        } else {
            None
        }
    }

    /// What an access to a byte of an object is in an event, if it is one.
    pub(crate) fn place(&self, object: Object, offset: u64) -> Option<Place>
        ensures { result ≡ seen_cell (cell_in self.now object).watched object offset }
    {
        match object {
            Object::Fixed(number) => match self.cells(object) {
                Some(cells) if cells.watched => Some(Place::Static {
                    object: (number % 0x1_0000) as u16,
                    offset: (offset % 0x1_0000) as u16,
                }),
                _ => None,
            },
            Object::Variable { .. } => None,
        }
    }

    fn address(&self, object: Object) -> u16
        ensures { result ≡ (cell_in self.now object).address }
    {
        match self.cells(object) {
            Some(cells) => cells.address,
            None => 0,
        }
    }

    /// A byte as a number: one of a pointer is that of the object's address plus the offset.
    pub(crate) fn shown(&self, byte: Byte) -> u8
        ensures { result ≡ shown_byte (λ o. (cell_in self.now o).address) byte }
    {
        match byte {
            Byte::Unset => 0,
            Byte::Number(number) => number,
            Byte::Part {
                object,
                offset,
                high,
            } => {
                let address = self.address(object) as u64 % 512 + offset % 512;
                if high {
                    (address / 256 % 2) as u8
                } else {
                    (address % 256) as u8
                }
            }
        }
    }

    /// Writes a byte of an object that has it.
    pub(crate) fn put(&mut self, object: Object, offset: u64, byte: Byte)
        ensures { (o : AnyObject) → cell_in self.new o ≡ if same_object o object then put_cell (cell_in self.old o) offset byte else cell_in self.old o }
    {
        match object {
            Object::Fixed(number) => put_in(&mut self.fixed, number as u128, offset, byte),
            Object::Variable { copy, number } => match copy.root {
                Root::Main => put_in_frame(&mut self.main, copy.function, number, offset, byte),
                Root::Isr => put_in_frame(&mut self.handler, copy.function, number, offset, byte),
            },
        }
    }

    /// Gives an object the bytes of a value.
    pub fn put_value(&mut self, object: Object, value: Datum)
        ensures memory { stated.byte_count (datum_of value) ≤ size_of (cell_in self.old object) → memory_in self.new ≡ with_value (memory_in self.old) object (datum_of value) }
        ensures shape { (p : Program) (map : MapContent) → IsShaped p map self.old → IsShaped p map self.new }
    {
        for k in 0..byte_count(value) {
            self.put(object, k as u64, byte_of(value, k));
        }
    }

    fn clear_cells(&mut self, object: Object)
        ensures { (o : AnyObject) → cell_in self.new o ≡ if same_object o object then cleared_cell (cell_in self.old o) else cell_in self.old o }
    {
        match object {
            Object::Fixed(number) => clear_in(&mut self.fixed, number as u128),
            Object::Variable { copy, number } => match copy.root {
                Root::Main => clear_in_frame(&mut self.main, copy.function, number),
                Root::Isr => clear_in_frame(&mut self.handler, copy.function, number),
            },
        }
    }

    /// No byte of an object has a value any longer.
    pub fn clear(&mut self, object: Object)
        ensures memory { memory_in self.new ≡ cleared (memory_in self.old) object }
        ensures shape { (p : Program) (map : MapContent) → IsShaped p map self.old → IsShaped p map self.new }
    {
        self.clear_cells(object);
    }

    fn clear_frames(&mut self, copy: CopyOf)
        ensures { (o : AnyObject) → cell_in self.new o ≡ if is_of copy o then cleared_cell (cell_in self.old o) else cell_in self.old o }
    {
        match copy.root {
            Root::Main => clear_frame(&mut self.main, copy.function),
            Root::Isr => clear_frame(&mut self.handler, copy.function),
        }
    }

    /// No variable of a copy has a value any longer.
    pub fn clear_copy(&mut self, copy: CopyOf)
        ensures memory { memory_in self.new ≡ fresh (memory_in self.old) copy }
        ensures shape { (p : Program) (map : MapContent) → IsShaped p map self.old → IsShaped p map self.new }
    {
        self.clear_frames(copy);
    }
}
