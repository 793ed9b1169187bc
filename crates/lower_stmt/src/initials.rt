//! What the bytes of static objects begin as (ISO/IEC 9899:1990, 6.5.7).

ghost use Rattle.std.specs.Prelude.{◌≡◌, ◌≤◌, true, IfOk, length, map};
ghost use Rattle.std.specs.List.{All};
ghost use Rattle.c_typed.specs.Sound.{is_sound};
ghost use Rattle.c_typed.specs.Views.{program_of, static_of, size_of};
ghost use Rattle.lower_stmt.specs.FirstBytes as first;

use c_typed::{Initial, InitialByte, Static, Structure, Typed, bytes_of};
use core_code::FirstByte;
use std::alloc::{AllocError, Global};

// A number, or a byte of the address of a static object.
fn shown(byte: InitialByte) -> FirstByte
    requires { first.HasNumber byte }
    ensures { result ≡ first.shown byte }
{
    match byte {
        InitialByte::Number(number) => FirstByte::Number(number),
        InitialByte::Address { object, byte } => {
            let object = object as u16;
            if byte == 0 {
                FirstByte::Low { object }
            } else {
                FirstByte::High { object }
            }
        }
    }
}

// What the byte at this offset is given, or else 0.
fn byte_at(values: &[Initial], offset: u64) -> FirstByte
    requires { All first.IsNumbered values.now }
    ensures { result ≡ first.byte_at values.now offset }
{
    for given in values {
        if given.offset == offset {
            return shown(given.byte);
        }
    }
    FirstByte::Number(0)
}

// All bytes of an object of so many.
#[tactic(auto, using(crate::proofs::Lists::first_bytes))]
fn bytes_in(alloc: Global, values: &[Initial], size: u64) -> Result<Vec<FirstByte>, AllocError>
    requires { All first.IsNumbered values.now }
    ensures { IfOk result (λ bytes. bytes.items ≡ first.bytes_in values.now size) }
{
    let mut bytes = Vec::new(alloc);
    for offset in 0..size {
        bytes.push(byte_at(values, offset))?;
    }
    Ok(bytes)
}

fn bytes_of_static(
    alloc: Global,
    structures: &[Structure],
    object: &Static,
) -> Result<Vec<FirstByte>, AllocError>
    requires { All first.IsNumbered object.now.initial.items }
    ensures { IfOk result (λ bytes. bytes.items ≡ first.static_bytes (map size_of structures.now) (static_of object.now)) }
{
    bytes_in(alloc, &object.initial, bytes_of(structures, object.ty.ty))
}

/// The first bytes of each static object. What an address leads to is an object of the program, so its number fits.
pub fn first_bytes(alloc: Global, p: &Typed) -> Result<Vec<Vec<FirstByte>>, AllocError>
    requires sound { is_sound (program_of p.now) ≡ true }
    requires few { length p.now.statics.items ≤ 65536 }
    ensures { IfOk result (λ bytes. map first.items_of bytes.items ≡ map (first.static_bytes (map size_of p.now.structures.items)) (map static_of p.now.statics.items)) }
{
    let mut statics = Vec::new(alloc);
    for object in &p.statics {
        statics.push(bytes_of_static(alloc, &p.structures, object)?)?;
    }
    Ok(statics)
}
