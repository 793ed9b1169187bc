//! The addresses of bytes that have names.

ghost use Rattle.std.specs.Prelude.{◌≡◌, ◌+◌, ◌<◌, IfSome};
ghost use Rattle.code_place.specs.Addresses as stated;
ghost use Rattle.sym_code.specs.Layout as layout;

use core_code::Byte;
use pic_map::Placed;
use pic_world::Root;
use sym_code::{Operand, Register, Saved};

// How many addresses data memory has.
const ADDRESSES: u32 = 512;

/// The address of a byte of data memory, below 512: where its object or frame stands, and its offset more. There is none
/// where no such object or frame stands, or where that is after data memory.
pub fn address_of(placed: &Placed, byte: Byte) -> Option<u16>
    ensures value { result ≡ stated.address_of placed.now byte }
    ensures range { IfSome result (λ at. at < 512) }
{
    match byte {
        Byte::Static { object, offset } => match placed.objects.get(object as usize) {
            Some(line) => shifted(line.address, offset),
            None => None,
        },
        Byte::Frame { copy, offset } => match placed.frames.get(copy as usize) {
            Some(line) => shifted(line.address, offset),
            None => None,
        },
        Byte::Result { root, k } => result_address(root, k),
        Byte::Device { address } => Some(address as u16),
    }
}

fn shifted(address: u16, offset: u16) -> Option<u16>
    ensures value { result ≡ stated.in_memory (address + offset) }
    ensures range { IfSome result (λ at. at < 512) }
{
    let at = address as u32 + offset as u32;
    if at < ADDRESSES {
        Some(at as u16)
    } else {
        None
    }
}

// The bytes 70h to 7Fh are in every bank (Microchip data sheet DS39582, register file map): first the results of main's
// functions and those of the handler's, then the saved context.
fn result_address(root: Root, k: u8) -> Option<u16>
    ensures value { result ≡ stated.result_byte root k }
    ensures range { IfSome result (λ at. at < 512) }
{
    if k >= 4 {
        return None;
    }
    match root {
        Root::Main => Some(0x70 + k as u16),
        Root::Isr => Some(0x74 + k as u16),
    }
}

fn register_address(register: Register) -> u16
    ensures value { result ≡ stated.register_address register }
    ensures range { result < 512 }
{
    match register {
        Register::Indf => 0x00,
        Register::Status => 0x03,
        Register::Fsr => 0x04,
        Register::Pclath => 0x0a,
    }
}

fn saved_address(saved: Saved) -> u16
    ensures value { result ≡ layout.saved_address saved }
    ensures range { result < 512 }
{
    match saved {
        Saved::W => 0x78,
        Saved::Status => 0x79,
        Saved::Fsr => 0x7a,
        Saved::Pclath => 0x7b,
    }
}

/// The address of a file operand, below 512. A register of the core has its lowest one.
pub fn file_address(placed: &Placed, file: Operand) -> Option<u16>
    ensures value { result ≡ stated.file_address placed.now file }
    ensures range { IfSome result (λ at. at < 512) }
{
    match file {
        Operand::Byte(byte) => address_of(placed, byte),
        Operand::Register(register) => Some(register_address(register)),
        Operand::Saved(saved) => Some(saved_address(saved)),
    }
}
