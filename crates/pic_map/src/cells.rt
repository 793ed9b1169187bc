//! What stands at an address, by a map.

ghost use Rattle.std.specs.Prelude.{◌≡◌, ◌≤◌, Some, None, if◌then◌else◌, length, map};
ghost use Rattle.pic_world.specs.declared.Cell.TheVariants.{Device};
ghost use Rattle.pic_world.specs.Registers.{is_register, lowest};
ghost use Rattle.pic_chip.specs.Run.{cell_at as cell_of, object_at as object_of_run};
ghost use Rattle.pic_map.specs.MapContent.{range_of};
ghost use Rattle.pic_map.specs.MapView.{object_of};

use crate::ObjLine;
use pic_world::{Cell, register_name};

/// What an access to this address is about. A register counts at each of its addresses.
#[tactic(auto, using(crate::proofs::Lowest::lowest_twice))]
pub fn cell_at(lines: &[ObjLine], address: u16) -> Option<Cell>
    requires { length lines.now ≤ 65536 }
    ensures { result ≡ cell_of (map range_of (map object_of lines.now)) (lowest address) }
{
    let address = lowest_address(address);
    match device_at(address) {
        None => object_at(lines, address),
        device => device,
    }
}

/// The lowest address of the register that is found at an address (DS39582, register file map); an address that is no
/// register's is its own.
fn lowest_address(address: u16) -> u16
    ensures { result ≡ lowest address }
{
    match address {
        0x101 => 0x01,
        0x106 => 0x06,
        0x8b | 0x10b | 0x18b => 0x0b,
        0x181 => 0x81,
        0x186 => 0x86,
        _ => address,
    }
}

#[tactic(auto, using(crate::proofs::Lowest::named_is_register, crate::proofs::Lowest::high_is_none))]
fn device_at(address: u16) -> Option<Cell>
    ensures { lowest address ≡ address → result ≡ (if is_register address then Some (Device address) else None) }
{
    match u8::try_from(address) {
        Ok(address) if register_name(address).is_some() => Some(Cell::Device { address }),
        _ => None,
    }
}

/// The first object, not const, that covers the address.
fn object_at(mut lines: &[ObjLine], address: u16) -> Option<Cell>
    requires { length lines.now ≤ 65536 }
    ensures { result ≡ object_of_run (map range_of (map object_of lines.entry.now)) 0 address }
{
    let mut number: u32 = 0;
    while let [line, rest @ ..] = lines {
        if !line.fixed && line.address <= address && address - line.address < line.size {
            return Some(Cell::Static {
                object: number as u16,
                offset: address - line.address,
            });
        }
        lines = rest;
        number += 1;
    }
    None
}
