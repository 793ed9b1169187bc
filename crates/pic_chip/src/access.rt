//! The accesses of an instruction.

ghost use Rattle.std.specs.Prelude.{◌≡◌, ◌++◌, Bool, [], true, false, ℕ, Option};
ghost use Rattle.pic_chip.specs.State.{State};
ghost use Rattle.pic_chip.specs.Act.{Derived, value_in, made};
ghost use Rattle.pic_chip.specs.Instructions.{note_by, write_note_by};
ghost use Rattle.pic_chip.specs.Named.{named, IsPlace};
ghost use Rattle.pic_chip.specs.Profiles.{rule_of};
ghost use Rattle.pic_chip.specs.Seen.{made_by, seen};

use crate::place::{Place, general_address};
use crate::profile::Profile;

/// An access to a file register: the lowest address, below 512, of the register or byte, and the
/// byte read or written.
#[derive(Clone, Copy, PartialEq, Eq, Debug)]
pub struct Access {
    pub address: u16,
    pub value: u8,
}

/// What an instruction reads and then writes.
#[derive(Clone, Copy, PartialEq, Eq, Debug)]
pub struct Accesses {
    pub read: Option<Access>,
    pub write: Option<Access>,
}

/// How an instruction ended: it was done, with these accesses, or the model goes no further at
/// this address, whose word is SLEEP or no instruction's.
#[derive(Clone, Copy, PartialEq, Eq, Debug)]
pub enum StepEnd {
    Done(Accesses),
    Unmodelled(u16),
}

fn access_to(profile: Profile, place: Place, value: u8) -> Option<Access>
    requires { IsPlace profile (named place) }
    ensures { (write : Bool) (s : State) (v : Derived) → value_in s v ≡ value → made_by write result ≡ made (note_by (rule_of profile).lowest write (named place) v) s }
{
    match place {
        Place::PclReg => Some(Access { address: 2, value }),
        Place::StatusReg => Some(Access { address: 3, value }),
        Place::FsrReg => Some(Access { address: 4, value }),
        Place::PclathReg => Some(Access { address: 10, value }),
        Place::IntconReg => Some(Access { address: 11, value }),
        Place::Pir1Reg => Some(Access { address: 12, value }),
        Place::Pie1Reg => Some(Access {
            address: 0x8c,
            value,
        }),
        Place::GeneralByte(k) => Some(Access {
            address: general_address(profile, k),
            value,
        }),
        Place::DeviceReg(address) => Some(Access {
            address: address as u16,
            value,
        }),
        Place::Nowhere => None,
    }
}

/// A read of a byte, and the write of another where the result goes there too.
pub fn through(profile: Profile, place: Place, byte: u8, d: bool, outcome: u8) -> Accesses
    requires { IsPlace profile (named place) }
    ensures { (s : State) (v : Derived) (u : Derived) → value_in s v ≡ byte → value_in s u ≡ outcome → seen result ≡ made (note_by (rule_of profile).lowest false (named place) v ++ write_note_by (rule_of profile).lowest d (named place) u) s }
{
    Accesses {
        read: access_to(profile, place, byte),
        write: if d {
            access_to(profile, place, outcome)
        } else {
            None
        },
    }
}

/// A read alone.
pub fn only_read(profile: Profile, place: Place, byte: u8) -> Accesses
    requires { IsPlace profile (named place) }
    ensures { (s : State) (v : Derived) → value_in s v ≡ byte → seen result ≡ made (note_by (rule_of profile).lowest false (named place) v) s }
{
    Accesses {
        read: access_to(profile, place, byte),
        write: None,
    }
}

/// A write alone.
pub fn only_write(profile: Profile, place: Place, byte: u8) -> Accesses
    requires { IsPlace profile (named place) }
    ensures { (s : State) (v : Derived) → value_in s v ≡ byte → seen result ≡ made (note_by (rule_of profile).lowest true (named place) v) s }
{
    Accesses {
        read: None,
        write: access_to(profile, place, byte),
    }
}

/// No access.
pub fn no_access() -> Accesses
    ensures { seen result ≡ [] }
{
    Accesses {
        read: None,
        write: None,
    }
}
