//! What an address of data memory names (DS39582, register file map).

ghost use Rattle.std.specs.Prelude.{◌≡◌, ◌<◌, ◌*◌, ◌+◌, ℕ, [], slice_index_or, nat_eq, nat_lt, ◌&&◌, false, if◌then◌else◌};
ghost use Rattle.pic_world.specs.Registers.{is_among, is_register, lowest};
ghost use Rattle.pic_chip.specs.Address.{Device, Nothing, place as place_of, indirect as indirect_of};
ghost use Rattle.pic_chip.specs.Named.{named, IsPlace, IsHeld, device_in, devices};
ghost use Rattle.pic_chip.specs.Profiles.{rule_of};
ghost use Rattle.pic_chip.specs.SmallAddress.{small_place, small_indirect};
ghost use Rattle.pic_chip.specs.declared.profile.Profile.TheVariants.{Pic16F877a, Pic16F84a};

use crate::profile::Profile;

/// A place that an instruction reads or writes.
#[derive(Clone, Copy)]
pub enum Place {
    PclReg,
    StatusReg,
    FsrReg,
    PclathReg,
    IntconReg,
    Pir1Reg,
    Pie1Reg,
    /// A general byte, by its number in order of address.
    GeneralByte(u16),
    /// Another device register, by its lowest address.
    DeviceReg(u8),
    Nowhere,
}

/// The place of a bank and the low seven bits of an address of the PIC16F877A.
pub fn place_at(bank: u8, low: u8) -> Place
    requires bank { bank < 4 }
    requires low { low < 128 }
    ensures value { named result ≡ place_of bank low }
    ensures fits { IsPlace Pic16F877a (named result) }
    ensures held { IsHeld (named result) }
{
    if low == 2 {
        Place::PclReg
    } else if low == 3 {
        Place::StatusReg
    } else if low == 4 {
        Place::FsrReg
    } else if low == 10 {
        Place::PclathReg
    } else if low == 11 {
        Place::IntconReg
    } else if low == 12 && bank < 2 {
        if bank == 0 {
            Place::Pir1Reg
        } else {
            Place::Pie1Reg
        }
    } else if low >= 0x70 {
        Place::GeneralByte(low as u16 - 0x20)
    } else if low >= if bank < 2 { 0x20 } else { 0x10 } {
        Place::GeneralByte(0x60 * bank as u16 + low as u16 - 0x20)
    } else {
        device_at(bank, low)
    }
}

// The place where the core has none of its own.
fn device_at(bank: u8, low: u8) -> Place
    requires bank { bank < 4 }
    requires low { low < 128 }
    requires other { nat_eq low 11 ≡ false }
    requires peripheral { (nat_eq low 12 && nat_lt bank 2) ≡ false }
    ensures value { named result ≡ (if is_register (0x80 * bank + low) then Device (lowest (0x80 * bank + low)) else Nothing) }
    ensures fits { IsPlace Pic16F877a (named result) }
    ensures held { IsHeld (named result) }
{
    if is_device(bank, low) {
        Place::DeviceReg(0x80 * (bank % 2) + low)
    } else {
        Place::Nowhere
    }
}

// Whether a device register other than INTCON, PIR1 and PIE1 is there.
fn is_device(bank: u8, low: u8) -> bool
    requires { bank < 4 }
    ensures { result ≡ is_among (slice_index_or devices bank []) low }
{
    match bank {
        0 => low == 0x01
            || low == 0x05
            || low == 0x06
            || low == 0x07
            || low == 0x08
            || low == 0x09
            || low == 0x0d
            || low == 0x0e
            || low == 0x0f
            || low == 0x10
            || low == 0x11
            || low == 0x12
            || low == 0x13
            || low == 0x14
            || low == 0x15
            || low == 0x16
            || low == 0x17
            || low == 0x18
            || low == 0x19
            || low == 0x1a
            || low == 0x1e
            || low == 0x1f,
        1 => low == 0x01
            || low == 0x05
            || low == 0x06
            || low == 0x07
            || low == 0x08
            || low == 0x09
            || low == 0x0d
            || low == 0x12
            || low == 0x18
            || low == 0x19
            || low == 0x1e
            || low == 0x1f,
        _ => low == 0x01 || low == 0x06,
    }
}

/// The place that INDF of the PIC16F877A reaches at an address below 512.
pub fn indirect(address: u16) -> Place
    requires { address < 512 }
    ensures value { named result ≡ indirect_of address }
    ensures fits { IsPlace Pic16F877a (named result) }
    ensures held { IsHeld (named result) }
{
    if address % 128 == 0 {
        Place::Nowhere
    } else {
        place_at((address / 128) as u8, (address % 128) as u8)
    }
}

/// The place of a bank and the low seven bits of an address of the PIC16F84A.
pub fn small_place_at(bank: u8, low: u8) -> Place
    requires bank { bank < 2 }
    requires low { low < 128 }
    ensures value { named result ≡ small_place bank low }
    ensures fits { IsPlace Pic16F84a (named result) }
    ensures held { IsHeld (named result) }
{
    if low == 2 {
        Place::PclReg
    } else if low == 3 {
        Place::StatusReg
    } else if low == 4 {
        Place::FsrReg
    } else if low == 10 {
        Place::PclathReg
    } else if low == 11 {
        Place::IntconReg
    } else if low >= 0x0c && low <= 0x4f {
        Place::GeneralByte(low as u16 - 0x0c)
    } else if low == 5 || low == 6 || low == 1 {
        Place::DeviceReg(0x80 * bank + low)
    } else {
        Place::Nowhere
    }
}

/// The place that INDF of the PIC16F84A reaches.
pub fn small_indirect_at(fsr: u8) -> Place
    ensures value { named result ≡ small_indirect fsr }
    ensures fits { IsPlace Pic16F84a (named result) }
    ensures held { IsHeld (named result) }
{
    if fsr % 128 == 0 {
        Place::Nowhere
    } else {
        small_place_at(fsr / 128, fsr % 128)
    }
}

/// The device register of a place, other than INTCON, PIR1 and PIE1, by its lowest address.
pub fn device_of(place: Place) -> Option<u8>
    ensures { result ≡ device_in (named place) }
{
    match place {
        Place::DeviceReg(address) => Some(address),
        Place::PclReg
        | Place::StatusReg
        | Place::FsrReg
        | Place::PclathReg
        | Place::IntconReg
        | Place::Pir1Reg
        | Place::Pie1Reg
        | Place::Nowhere => None,
        Place::GeneralByte(_) => None,
    }
}

/// The lowest address of a general byte.
pub fn general_address(profile: Profile, number: u16) -> u16
    requires { number < (rule_of profile).bytes }
    ensures value { result ≡ (rule_of profile).lowest number }
    ensures small { result < 512 }
{
    match profile {
        Profile::Pic16F84a => number + 0x0c,
        Profile::Pic16F877a if number < 96 => number + 0x20,
        Profile::Pic16F877a if number < 176 => number + 0x40,
        Profile::Pic16F877a if number < 272 => number + 0x60,
        Profile::Pic16F877a => number + 0x80,
    }
}
