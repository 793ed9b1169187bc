//! What objects hold at the start of a program, and their addresses.

ghost use Rattle.std.specs.Prelude.{◌≡◌, ◌++◌, ◌∷◌, [], ◌<◌, IfOk, OnOk, map, replicate, slice_get};
ghost use Rattle.c_typed.specs.Roots as named;
ghost use Rattle.c_typed.specs.Views.{function_of, program_of, size_of, static_of, variable_of};
ghost use Rattle.pic_map.specs.MapView.{content_of, frame_of, object_of};
ghost use Rattle.pic_world.specs.Roots as roots;
ghost use Rattle.src_memory.specs.Cells.{cell, cells_seen};
ghost use Rattle.src_memory.specs.Shown.{frame_address, object_address};
ghost use Rattle.src_memory.specs.Start.{address_behind, frame_cells, seen_frames, static_cell, static_cells, variable_cells, with_initials, all_frames};
ghost use Rattle.src_values.specs.Memory as stated;
ghost use Rattle.src_values.specs.declared.objects.Byte.TheVariants as bytes;

use crate::memory::{Cells, put_byte};
use c_typed::{Function, Initial, InitialByte, Static, Structure, Typed, Variable, bytes_of};
use pic_map::{FrameLine, Map, ObjLine};
use pic_world::Root;
use src_values::{Byte, Object};
use std::alloc::{AllocError, Global};

fn repeated(alloc: Global, byte: Byte, size: u64) -> Result<Vec<Byte>, AllocError>
    ensures { IfOk result (λ v. v.items ≡ replicate size byte) }
{
    vec![in alloc; byte; size as usize]
}

fn initial_byte(byte: InitialByte) -> Byte
    ensures { result ≡ stated.initial_byte byte }
{
    match byte {
        InitialByte::Number(number) => Byte::Number(number),
        InitialByte::Address { object, byte } => Byte::Part {
            object: Object::Fixed(object),
            offset: 0,
            high: byte == 1,
        },
    }
}

// The first byte of a list that is given to a place counts: so they are put in from behind.
fn put_initials(bytes: &mut Vec<Byte>, initials: &[Initial])
    ensures { bytes.new.items ≡ with_initials initials.now bytes.old.items }
{
    let mut left = initials.len();
    while left > 0 {
        left -= 1;
        let initial = initials[left];
        put_byte(bytes, initial.offset, initial_byte(initial.byte));
    }
}

fn static_at_start(
    alloc: Global,
    structures: &[Structure],
    object: &Static,
    address: u16,
) -> Result<Cells, AllocError>
    ensures { IfOk result (λ c. cell c ≡ static_cell (map size_of structures.now) address (static_of object.now)) }
{
    let size = bytes_of(structures, object.ty.ty);
    let mut bytes = repeated(alloc, Byte::Number(0), size)?;
    put_initials(&mut bytes, &object.initial);
    Ok(Cells {
        bytes,
        address,
        watched: !object.ty.constant,
    })
}

fn line_address(objects: &[ObjLine], number: usize) -> u16
    ensures { result ≡ object_address (slice_get (map object_of objects.now) number) }
{
    match objects.get(number) {
        Some(line) => line.address,
        None => 0,
    }
}

fn statics_in(
    alloc: Global,
    structures: &[Structure],
    mut statics: &[Static],
    objects: &[ObjLine],
) -> Result<Vec<Cells>, AllocError>
    ensures { IfOk result (λ v. cells_seen v.items ≡ static_cells (map size_of structures.now) (map object_of objects.now) 0 (map static_of statics.entry.now)) }
{
    let mut cells = Vec::new(alloc);
    let mut number = 0;
    while let [object, rest @ ..] = statics {
        let address = line_address(objects, number);
        cells.push(static_at_start(alloc, structures, object, address)?)?;
        number += 1;
        statics = rest;
    }
    Ok(cells)
}

/// The static objects.
pub(crate) fn statics_at_start(
    alloc: Global,
    program: &Typed,
    map: &Map,
) -> Result<Vec<Cells>, AllocError>
    ensures { IfOk result (λ v. cells_seen v.items ≡ static_cells (program_of program.now).sizes (content_of map.now).objects 0 (program_of program.now).statics) }
{
    statics_in(alloc, &program.structures, &program.statics, &map.objects)
}

pub(crate) fn same_root(root: Root, other: Root) -> bool
    ensures { result ≡ roots.same_root root other }
{
    match root {
        Root::Main => match other {
            Root::Main => true,
            Root::Isr => false,
        },
        Root::Isr => match other {
            Root::Main => false,
            Root::Isr => true,
        },
    }
}

fn same_bytes(a: &[u8], b: &[u8]) -> bool
    ensures { result ≡ named.same_bytes a.now b.now }
{
    match a {
        [] => match b {
            [] => true,
            [_, ..] => false,
        },
        [first, rest @ ..] => match b {
            [] => false,
            [other, others @ ..] => *first == *other && same_bytes(rest, others),
        },
    }
}

// The address of the frame of a root and a name.
fn frame_of_name(mut frames: &[FrameLine], root: Root, name: &[u8]) -> u16
    ensures { result ≡ frame_address (map frame_of frames.entry.now) root name.now }
{
    while let [line, rest @ ..] = frames {
        if same_root(line.root, root) && same_bytes(&line.name, name) {
            return line.address;
        }
        frames = rest;
    }
    0
}

// Appends variables that stand from an address on, and tells the address behind them.
fn add_variables(
    alloc: Global,
    cells: &mut Vec<Cells>,
    structures: &[Structure],
    mut variables: &[Variable],
    start: u16,
) -> Result<u16, AllocError>
    requires { start < 512 }
    ensures small { IfOk result (λ behind. behind < 512) }
    ensures behind { IfOk result (λ behind. behind ≡ address_behind (map size_of structures.now) start (map variable_of variables.entry.now)) }
    ensures cells { OnOk result (cells_seen cells.new.items ≡ cells_seen cells.old.items ++ variable_cells (map size_of structures.now) start (map variable_of variables.entry.now)) }
{
    let mut address = start;
    while let [variable, rest @ ..] = variables {
        let size = bytes_of(structures, variable.ty.ty);
        let bytes = repeated(alloc, Byte::Unset, size)?;
        cells.push(Cells {
            bytes,
            address,
            watched: false,
        })?;
        address = (address + (size % 512) as u16) % 512;
        variables = rest;
    }
    Ok(address)
}

fn frame_at_start(
    alloc: Global,
    structures: &[Structure],
    function: &Function,
    address: u16,
) -> Result<Vec<Cells>, AllocError>
    ensures { IfOk result (λ v. cells_seen v.items ≡ frame_cells (map size_of structures.now) address (function_of function.now)) }
{
    let mut cells = Vec::new(alloc);
    let params = &function.params;
    let locals = &function.locals;
    let address = add_variables(alloc, &mut cells, structures, params, address % 512)?;
    add_variables(alloc, &mut cells, structures, locals, address)?;
    Ok(cells)
}

fn frames_in(
    alloc: Global,
    structures: &[Structure],
    mut functions: &[Function],
    frames: &[FrameLine],
    root: Root,
) -> Result<Vec<Vec<Cells>>, AllocError>
    ensures { IfOk result (λ v. seen_frames v.items ≡ all_frames (map size_of structures.now) (map frame_of frames.now) root (map function_of functions.entry.now)) }
{
    let mut cells = Vec::new(alloc);
    while let [function, rest @ ..] = functions {
        let address = frame_of_name(frames, root, &function.name);
        cells.push(frame_at_start(alloc, structures, function, address)?)?;
        functions = rest;
    }
    Ok(cells)
}

/// The variables of each function in a root's copy. One without a frame in the map has the address 0.
pub(crate) fn frames_at_start(
    alloc: Global,
    program: &Typed,
    map: &Map,
    root: Root,
) -> Result<Vec<Vec<Cells>>, AllocError>
    ensures { IfOk result (λ v. seen_frames v.items ≡ all_frames (program_of program.now).sizes (content_of map.now).frames root (program_of program.now).functions) }
{
    frames_in(
        alloc,
        &program.structures,
        &program.functions,
        &map.frames,
        root,
    )
}
