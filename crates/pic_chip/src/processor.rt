//! The chip's state, and the small changes of which instructions are made.

ghost use Rattle.std.specs.Prelude.{◌≡◌, ◌<◌, ◌≤◌, ◌+◌, ◌*◌, ◌/◌, ◌%◌, ◌^◌, ℕ, Bool, List, ◌∷◌, length, slice_index, true, false, if◌then◌else◌};
ghost use Rattle.pic_chip.specs.State.{State, AtW, AtPc, AtIntcon, reset as reset_of};
ghost use Rattle.pic_chip.specs.Act.{Act, effect, value_in, perform};
ghost use Rattle.pic_chip.specs.Run.{IsStart};
ghost use Rattle.pic_chip.specs.Address.{Place as AnyPlace, operand as operand_of};
ghost use Rattle.pic_world.specs.Bits.{bit as bit_at, set_bit as with_bit, clear_bit as without_bit};
ghost use Rattle.pic_chip.specs.Instructions.{contents as contents_of, to, of, part, number, page, following, plain_row, push as push_of, pop as pop_of};
ghost use Rattle.pic_world.specs.Control.{is_due as due};
ghost use Rattle.pic_chip.specs.Interrupts.{raise as raise_of, control_of, enter as enter_of};
ghost use Rattle.pic_chip.specs.Named.{named, IsPlace, IsHeld, device_in};
ghost use Rattle.pic_chip.specs.Profiles.{rule_of};
ghost use Rattle.pic_chip.specs.SmallAddress.{small_operand as small_operand_of};
ghost use Rattle.pic_chip.specs.declared.profile.Profile.TheVariants.{Pic16F877a, Pic16F84a};
ghost use Rattle.pic_chip.specs.Machine.{Feeds};
ghost use Rattle.pic_chip.specs.Changes.{Grows, stored, after_reading, flagged, finished, row_done, pushed, popped};

use crate::Start;
use crate::bits::{bit, clear_bit, number_of, set_bit};
use crate::place::{Place, indirect, place_at, small_indirect_at, small_place_at};
use crate::profile::Profile;
use std::marker::Model;

/// The flags that an instruction sets.
#[derive(Clone, Copy)]
pub enum Flags {
    Keep,
    OnlyZ,
    OnlyC(bool),
    Sums { c: bool, dc: bool },
}

/// The registers, the general bytes and the return stack.
#[derive(Clone, Copy)]
pub struct Processor {
    w: u8,
    pc: u16,
    bank: u8,
    z: bool,
    dc: bool,
    c: bool,
    fsr: u8,
    pclath: u8,
    intcon: u8,
    pir1: u8,
    pie1: u8,
    ram: [u8; 368],
    stack: [u16; 8],
    pushes: u64,
    pops: u64,
    taken: u64,
}

impl Model for Processor {
    ghost use Rattle.std.specs.Prelude.{◌<◌, nat_eq};
    ghost use Rattle.pic_chip.specs.State.{State};
    ghost use Rattle.pic_world.specs.Bits.{truth};
    ghost use Rattle.pic_chip.specs.Truth.{same_truth, are_places};

    ghost Value = { State };

    ghost view = { λ s. record { w = s.w; pc = s.pc; bank = s.bank; z = truth s.z; dc = truth s.dc; c = truth s.c; fsr = s.fsr; pclath = s.pclath; intcon = s.intcon; pir1 = s.pir1; pie1 = s.pie1; ram = s.ram; stack = s.stack; pushes = s.pushes; pops = s.pops; taken = s.taken } };

    ghost invariant = { λ s. (s.pc < 8192) × (s.bank < 8) × (s.pclath < 32) × are_places s.stack };

    ghost inverse = { λ s. record { w = s.w; pc = s.pc; bank = s.bank; z = nat_eq s.z 1; dc = nat_eq s.dc 1; c = nat_eq s.c 1; fsr = s.fsr; pclath = s.pclath; intcon = s.intcon; pir1 = s.pir1; pie1 = s.pie1; ram = s.ram; stack = s.stack; pushes = s.pushes; pops = s.pops; taken = s.taken } };

    ghost use Rattle.std.proofs.Common.{refl};

    ghost inverse_ok = { λ a h. Prim.rw (same_truth a.z, same_truth a.dc, same_truth a.c) refl };
}

impl Processor {
    /// The state after a reset.
    pub fn reset(start: &Start) -> Processor
        requires { start.now.flags < 8 }
        ensures { result ≡ reset_of start.now }
    {
        Processor {
            w: start.w,
            pc: 0,
            bank: 0,
            z: start.flags / 4 % 2 == 1,
            dc: start.flags / 2 % 2 == 1,
            c: start.flags % 2 == 1,
            fsr: start.fsr,
            pclath: 0,
            intcon: 0,
            pir1: 0,
            pie1: 0,
            ram: start.ram,
            stack: [0; 8],
            pushes: 0,
            pops: 0,
            taken: 0,
        }
    }

    // The place of a direct operand of the PIC16F877A.
    fn big_operand(&self, f: u8) -> Place
        requires { f < 128 }
        ensures leads { (next : AnyPlace → Act) → effect (operand_of f next) self.now ≡ effect (next (named result)) self.now }
        ensures fits { IsPlace Pic16F877a (named result) }
        ensures held { IsHeld (named result) }
    {
        let bank = self.bank;
        if f == 2 || f == 3 || f == 4 || f == 10 || f == 11 || f >= 0x70 {
            place_at(0, f)
        } else if f == 0 {
            indirect(256 * (bank / 4) as u16 + self.fsr as u16)
        } else {
            place_at(bank % 4, f)
        }
    }

    // The place of a direct operand of the PIC16F84A.
    fn small_operand(&self, f: u8) -> Place
        requires { f < 128 }
        ensures leads { (next : AnyPlace → Act) → effect (small_operand_of f next) self.now ≡ effect (next (named result)) self.now }
        ensures fits { IsPlace Pic16F84a (named result) }
        ensures held { IsHeld (named result) }
    {
        if f == 0 {
            small_indirect_at(self.fsr)
        } else {
            small_place_at(self.bank % 2, f)
        }
    }

    /// The place of a direct operand.
    pub fn operand(&self, profile: Profile, f: u8) -> Place
        requires { f < 128 }
        ensures leads { (next : AnyPlace → Act) → effect ((rule_of profile).find f next) self.now ≡ effect (next (named result)) self.now }
        ensures fits { IsPlace profile (named result) }
        ensures held { IsHeld (named result) }
    {
        match profile {
            Profile::Pic16F877a => self.big_operand(f),
            Profile::Pic16F84a => self.small_operand(f),
        }
    }

    /// What a place holds, where this is the next input byte.
    pub fn contents(&self, place: Place, input: u8) -> u8
        requires { IsHeld (named place) }
        ensures { (inputs : List ℕ) → Feeds inputs self.now.taken input (device_in (named place)) → result ≡ value_in self.now (contents_of inputs self.now.pc (named place)) }
    {
        match place {
            Place::PclReg => ((self.pc + 1) % 256) as u8,
            Place::StatusReg => 32 * self.bank
                + 0x18
                + 4 * number_of(self.z)
                + 2 * number_of(self.dc)
                + number_of(self.c),
            Place::FsrReg => self.fsr,
            Place::PclathReg => self.pclath,
            Place::IntconReg => self.intcon,
            Place::Pir1Reg => self.pir1,
            Place::Pie1Reg => self.pie1,
            Place::GeneralByte(k) => self.ram[k as usize],
            Place::DeviceReg(_) => input,
            Place::Nowhere => 0,
        }
    }

    // Writes a place; `plain` says that the instruction sets no flag by its own logic.
    fn store(&mut self, plain: bool, place: Place, value: u8)
        requires { IsHeld (named place) }
        ensures { self.new ≡ stored plain (named place) value self.old }
    {
        match place {
            Place::PclReg => self.pc = 256 * self.pclath as u16 + value as u16,
            Place::StatusReg => {
                self.bank = value / 32;
                if plain {
                    self.z = value / 4 % 2 == 1;
                    self.dc = value / 2 % 2 == 1;
                    self.c = value % 2 == 1;
                }
            }
            Place::FsrReg => self.fsr = value,
            Place::PclathReg => self.pclath = value % 32,
            Place::IntconReg => self.intcon = value,
            Place::Pir1Reg => self.pir1 = value,
            Place::Pie1Reg => self.pie1 = value,
            Place::GeneralByte(k) => self.ram[k as usize] = value,
            Place::DeviceReg(_) => {}
            Place::Nowhere => {}
        }
    }

    fn set_flags(&mut self, flags: Flags, value: u8)
        ensures { self.new ≡ flagged flags value self.old }
    {
        match flags {
            Flags::Keep => {}
            Flags::OnlyZ => self.z = value == 0,
            Flags::OnlyC(c) => self.c = c,
            Flags::Sums { c, dc } => {
                self.c = c;
                self.dc = dc;
                self.z = value == 0;
            }
        }
    }

    /// The working register.
    pub fn w(&self) -> u8
        ensures { result ≡ self.now.w }
    {
        self.w
    }

    /// The program counter.
    pub fn pc(&self) -> u16
        ensures value { result ≡ self.now.pc }
        ensures small { result < 8192 }
        ensures words { length self.now.stack ≡ 8 }
    {
        self.pc
    }

    /// The carry, 0 or 1.
    pub fn carry(&self) -> u8
        ensures value { result ≡ self.now.c }
        ensures small { result < 2 }
    {
        number_of(self.c)
    }

    /// How many input bytes were taken.
    pub fn taken(&self) -> u64
        ensures { result ≡ self.now.taken }
    {
        self.taken
    }

    /// How many pushes and pops were made.
    pub fn moves(&self) -> (u64, u64)
        ensures { result ≡ (self.now.pushes, self.now.pops) }
    {
        (self.pushes, self.pops)
    }

    /// The general byte of a number.
    pub fn general(&self, number: u16) -> u8
        requires { number < 368 }
        ensures { result ≡ slice_index self.now.ram number }
    {
        self.ram[number as usize]
    }

    fn set_w(&mut self, value: u8)
        ensures { self.new ≡ record self.old { w = value } }
    {
        self.w = value;
    }

    fn set_pc(&mut self, pc: u16)
        requires { pc < 8192 }
        ensures { self.new ≡ record self.old { pc = pc } }
    {
        self.pc = pc;
    }

    // What a read of a place changes.
    fn after_read(&mut self, place: Place)
        requires { self.old.taken < 2 ^ 40 }
        ensures { self.new ≡ after_reading (named place) self.old }
    {
        if let Place::DeviceReg(_) = place {
            self.taken += 1;
        }
    }

    /// Ends an instruction that reads a place: its result goes there or to W.
    pub fn finish(&mut self, next: u16, place: Place, d: bool, value: u8, flags: Flags)
        requires next { next < 8192 }
        requires place { IsHeld (named place) }
        requires taken { self.old.taken < 2 ^ 40 }
        ensures state { self.new ≡ row_done next (named place) d value flags self.old }
        ensures grows { Grows self.old self.new }
    {
        self.set_pc(next);
        self.after_read(place);
        if d {
            self.store(matches!(flags, Flags::Keep), place, value);
        } else {
            self.set_w(value);
        }
        self.set_flags(flags, value);
    }

    /// Ends an instruction that reads a place and has no result.
    pub fn finish_read(&mut self, next: u16, place: Place)
        requires next { next < 8192 }
        requires taken { self.old.taken < 2 ^ 40 }
        ensures state { self.new ≡ after_reading (named place) (record self.old { pc = next }) }
        ensures grows { Grows self.old self.new }
    {
        self.set_pc(next);
        self.after_read(place);
    }

    /// Ends an instruction that writes a place and doesn't read it.
    pub fn finish_write(&mut self, next: u16, place: Place, value: u8, flags: Flags)
        requires next { next < 8192 }
        requires place { IsHeld (named place) }
        ensures state { self.new ≡ finished (named place) true value flags (record self.old { pc = next }) }
        ensures grows { Grows self.old self.new }
    {
        self.set_pc(next);
        self.store(matches!(flags, Flags::Keep), place, value);
        self.set_flags(flags, value);
    }

    /// Ends an instruction whose result goes to W.
    pub fn finish_plain(&mut self, next: u16, value: u8, flags: Flags)
        requires next { next < 8192 }
        ensures state { self.new ≡ flagged flags value (record self.old { pc = next; w = value }) }
        ensures grows { Grows self.old self.new }
    {
        self.set_pc(next);
        self.set_w(value);
        self.set_flags(flags, value);
    }

    /// Goes to another instruction.
    pub fn go_to(&mut self, next: u16)
        requires next { next < 8192 }
        ensures state { self.new ≡ record self.old { pc = next } }
        ensures grows { Grows self.old self.new }
    {
        self.set_pc(next);
    }

    fn push(&mut self, address: u16)
        requires pushes { self.old.pushes < 2 ^ 40 }
        requires address { address < 8192 }
        ensures { self.new ≡ pushed address self.old }
    {
        let s = self.stack;
        self.stack = [address, s[0], s[1], s[2], s[3], s[4], s[5], s[6]];
        self.pushes += 1;
    }

    fn pop(&mut self)
        requires { self.old.pops < 2 ^ 40 }
        ensures { self.new ≡ popped self.old }
    {
        let s = self.stack;
        self.pc = s[0];
        self.stack = [s[1], s[2], s[3], s[4], s[5], s[6], s[7], s[0]];
        self.pops += 1;
    }

    /// GOTO: two bits of the address come from PCLATH.
    pub fn jump(&mut self, k: u16)
        requires { k < 2048 }
        ensures state { self.new ≡ record self.old { pc = self.old.pclath / 8 % 4 * 2048 + k } }
        ensures grows { Grows self.old self.new }
    {
        self.pc = self.pclath as u16 / 8 % 4 * 2048 + k;
    }

    /// CALL.
    pub fn call(&mut self, k: u16)
        requires pushes { self.old.pushes < 2 ^ 40 }
        requires k { k < 2048 }
        ensures state { self.new ≡ perform (plain_row (to AtPc (page k) ∷ push_of (following self.old.pc))) self.old }
        ensures grows { Grows self.old self.new }
    {
        let next = (self.pc() + 1) % 8192;
        self.jump(k);
        self.push(next);
    }

    /// RETURN.
    pub fn go_back(&mut self)
        requires { self.old.pops < 2 ^ 40 }
        ensures state { self.new ≡ perform (plain_row pop_of) self.old }
        ensures grows { Grows self.old self.new }
    {
        let _ = self.pc();
        self.pop();
    }

    /// RETLW.
    pub fn go_back_with(&mut self, k: u8)
        requires { self.old.pops < 2 ^ 40 }
        ensures state { self.new ≡ perform (plain_row (to AtW (number k) ∷ pop_of)) self.old }
        ensures grows { Grows self.old self.new }
    {
        let _ = self.pc();
        self.set_w(k);
        self.pop();
    }

    /// RETFIE.
    pub fn leave(&mut self)
        requires { self.old.pops < 2 ^ 40 }
        ensures state { self.new ≡ perform (plain_row (to AtIntcon (of (with_bit 7) (part AtIntcon)) ∷ pop_of)) self.old }
        ensures grows { Grows self.old self.new }
    {
        let _ = self.pc();
        self.allow();
        self.pop();
    }

    fn allow(&mut self)
        ensures { self.new ≡ record self.old { intcon = with_bit 7 self.old.intcon } }
    {
        self.intcon = set_bit(7, self.intcon);
    }

    fn forbid(&mut self)
        ensures { self.new ≡ record self.old { intcon = without_bit 7 self.old.intcon } }
    {
        self.intcon = clear_bit(7, self.intcon);
    }

    /// Sets the flags of the mask, in INTCON and PIR1.
    pub fn raise(&mut self, flags: u16)
        ensures state { self.new ≡ perform (raise_of flags) self.old }
        ensures gie { bit_at self.new.intcon 7 ≡ bit_at self.old.intcon 7 }
    {
        self.intcon |= (flags % 8) as u8;
        self.pir1 |= (flags / 8 % 256) as u8;
    }

    /// Whether an interrupt is due.
    #[tactic(auto, unfolding(pic_world::specs::Control::is_due))]
    pub fn is_due(&self) -> bool
        ensures value { result ≡ due (control_of self.now) }
        ensures enabled { result ≡ true → bit_at self.now.intcon 7 ≡ 1 }
    {
        let x = self.intcon;
        bit(7, x) == 1
            && (bit(5, x) * bit(2, x) == 1
                || bit(4, x) * bit(1, x) == 1
                || bit(3, x) * bit(0, x) == 1
                || bit(6, x) == 1 && self.pir1 & self.pie1 != 0)
    }

    /// Takes an interrupt.
    pub fn enter(&mut self)
        requires { self.old.pushes < 2 ^ 40 }
        ensures { self.new ≡ perform enter_of self.old }
    {
        let pc = self.pc();
        self.forbid();
        self.set_pc(4);
        self.push(pc);
    }
}
