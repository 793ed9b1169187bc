//! The instruction table as code: one line for each instruction, and the forms that they share.

ghost use Rattle.std.specs.Prelude.{◌≡◌, ◌<◌, ◌+◌, ◌%◌, ◌^◌, ℕ, Bool, List, [], slice_index, if◌then◌else◌};
ghost use Rattle.pic_isa.specs.Table.{IsWellFormed};
ghost use Rattle.pic_chip.specs.State.{State, AtW};
ghost use Rattle.pic_chip.specs.Act.{Derived, Write, perform, accesses, apply, value_in};
ghost use Rattle.pic_chip.specs.Instructions.{row_by, number, part, is_empty, write_row_by, test_row_by, byte_row_by};
ghost use Rattle.pic_chip.specs.Changes.{Grows, flagged, keeps_flags};
ghost use Rattle.pic_chip.specs.Operations.{IsOperation, operation_row_by, result_of, flags_of};
ghost use Rattle.pic_chip.specs.Profiles.{rule_of};
ghost use Rattle.pic_chip.specs.Seen.{seen};
ghost use Rattle.pic_chip.specs.Machine.{Feeds, wanted_by};

use crate::access::{Accesses, no_access, only_read, only_write, through};
use crate::bits::bit;
use crate::operation::{Operation, computed};
use crate::place::device_of;
use crate::processor::{Flags, Processor};
use crate::profile::Profile;
use pic_isa::Ins;

/// Runs one instruction, which takes this input byte where it reads a device register.
pub fn run(profile: Profile, processor: &mut Processor, i: Ins, input: u8) -> Accesses
    requires well_formed { IsWellFormed i }
    requires pushes { processor.old.pushes < 2 ^ 40 }
    requires pops { processor.old.pops < 2 ^ 40 }
    requires taken { processor.old.taken < 2 ^ 40 }
    ensures state { (inputs : List ℕ) → Feeds inputs processor.old.taken input (wanted_by (rule_of profile) (accesses (row_by (rule_of profile) inputs processor.old.pc i) processor.old)) → processor.new ≡ perform (row_by (rule_of profile) inputs processor.old.pc i) processor.old }
    ensures accesses { (inputs : List ℕ) → Feeds inputs processor.old.taken input (wanted_by (rule_of profile) (accesses (row_by (rule_of profile) inputs processor.old.pc i) processor.old)) → seen result ≡ accesses (row_by (rule_of profile) inputs processor.old.pc i) processor.old }
    ensures grows { Grows processor.old processor.new }
{
    match i {
        Ins::Addwf { f, d } => operate(profile, processor, Operation::Add, f, d, input),
        Ins::Andwf { f, d } => operate(profile, processor, Operation::And, f, d, input),
        Ins::Clrf { f } => write(profile, processor, f, 0, Flags::OnlyZ),
        Ins::Clrw => put_w(processor, 0, Flags::OnlyZ),
        Ins::Comf { f, d } => operate(profile, processor, Operation::Complement, f, d, input),
        Ins::Decf { f, d } => operate(profile, processor, Operation::Decrement, f, d, input),
        Ins::Decfsz { f, d } => operate(profile, processor, Operation::DecrementSkip, f, d, input),
        Ins::Incf { f, d } => operate(profile, processor, Operation::Increment, f, d, input),
        Ins::Incfsz { f, d } => operate(profile, processor, Operation::IncrementSkip, f, d, input),
        Ins::Iorwf { f, d } => operate(profile, processor, Operation::Or, f, d, input),
        Ins::Movf { f, d } => operate(profile, processor, Operation::Move, f, d, input),
        Ins::Movwf { f } => write_w(profile, processor, f),
        Ins::Nop => pass(processor),
        Ins::Rlf { f, d } => operate(profile, processor, Operation::RotateLeft, f, d, input),
        Ins::Rrf { f, d } => operate(profile, processor, Operation::RotateRight, f, d, input),
        Ins::Subwf { f, d } => operate(profile, processor, Operation::Subtract, f, d, input),
        Ins::Swapf { f, d } => operate(profile, processor, Operation::Swap, f, d, input),
        Ins::Xorwf { f, d } => operate(profile, processor, Operation::Xor, f, d, input),
        Ins::Bcf { f, b } => operate(profile, processor, Operation::Clear(b), f, true, input),
        Ins::Bsf { f, b } => operate(profile, processor, Operation::Set(b), f, true, input),
        Ins::Btfsc { f, b } => test(profile, processor, f, b, 0, input),
        Ins::Btfss { f, b } => test(profile, processor, f, b, 1, input),
        Ins::Addlw { k } => literal(processor, Operation::Add, k as u8),
        Ins::Andlw { k } => literal(processor, Operation::And, k as u8),
        Ins::Call { k } => {
            processor.call(k);
            no_access()
        }
        Ins::Clrwdt => pass(processor),
        Ins::Goto { k } => {
            processor.jump(k);
            no_access()
        }
        Ins::Iorlw { k } => literal(processor, Operation::Or, k as u8),
        Ins::Movlw { k } => put_w(processor, k as u8, Flags::Keep),
        Ins::Retfie => {
            processor.leave();
            no_access()
        }
        Ins::Retlw { k } => {
            processor.go_back_with(k as u8);
            no_access()
        }
        Ins::Return => {
            processor.go_back();
            no_access()
        }
        Ins::Sleep => no_access(),
        Ins::Sublw { k } => literal(processor, Operation::Subtract, k as u8),
        Ins::Xorlw { k } => literal(processor, Operation::Xor, k as u8),
    }
}

// The next instruction, or the one behind it.
fn behind(pc: u16, skips: bool) -> u16
    requires { pc < 8192 }
    ensures value { result ≡ (pc + (if skips then 2 else 1)) % 8192 }
    ensures small { result < 8192 }
{
    (pc + if skips { 2 } else { 1 }) % 8192
}

// An operation on f, its result to f or to W.
fn operate(
    profile: Profile,
    processor: &mut Processor,
    operation: Operation,
    f: u8,
    d: bool,
    input: u8,
) -> Accesses
    requires operation { IsOperation operation }
    requires f { f < 128 }
    requires taken { processor.old.taken < 2 ^ 40 }
    ensures state { (inputs : List ℕ) → Feeds inputs processor.old.taken input (wanted_by (rule_of profile) (accesses (operation_row_by (rule_of profile) inputs processor.old.pc operation f d) processor.old)) → processor.new ≡ perform (operation_row_by (rule_of profile) inputs processor.old.pc operation f d) processor.old }
    ensures accesses { (inputs : List ℕ) → Feeds inputs processor.old.taken input (wanted_by (rule_of profile) (accesses (operation_row_by (rule_of profile) inputs processor.old.pc operation f d) processor.old)) → seen result ≡ accesses (operation_row_by (rule_of profile) inputs processor.old.pc operation f d) processor.old }
    ensures grows { Grows processor.old processor.new }
{
    let place = processor.operand(profile, f);
    let byte = processor.contents(place, input);
    let outcome = computed(operation, byte, processor.w(), processor.carry());
    let next = behind(processor.pc(), outcome.skips);
    processor.finish(next, place, d, outcome.value, outcome.flags);
    through(profile, place, byte, d, outcome.value)
}

// A test of f's bit, and a skip where it has this value.
fn test(profile: Profile, processor: &mut Processor, f: u8, b: u8, value: u8, input: u8) -> Accesses
    requires f { f < 128 }
    requires b { b < 8 }
    requires taken { processor.old.taken < 2 ^ 40 }
    ensures state { (inputs : List ℕ) → Feeds inputs processor.old.taken input (wanted_by (rule_of profile) (accesses (test_row_by (rule_of profile) inputs processor.old.pc f b value) processor.old)) → processor.new ≡ perform (test_row_by (rule_of profile) inputs processor.old.pc f b value) processor.old }
    ensures accesses { (inputs : List ℕ) → Feeds inputs processor.old.taken input (wanted_by (rule_of profile) (accesses (test_row_by (rule_of profile) inputs processor.old.pc f b value) processor.old)) → seen result ≡ accesses (test_row_by (rule_of profile) inputs processor.old.pc f b value) processor.old }
    ensures grows { Grows processor.old processor.new }
{
    let place = processor.operand(profile, f);
    let byte = processor.contents(place, input);
    let next = behind(processor.pc(), bit(b, byte) == value);
    processor.finish_read(next, place);
    only_read(profile, place, byte)
}

// A write of f that doesn't read it.
fn write(profile: Profile, processor: &mut Processor, f: u8, value: u8, flags: Flags) -> Accesses
    requires f { f < 128 }
    ensures state { (v : Derived) (ws : List Write) → value_in processor.old v ≡ value → ((t : State) → apply ws processor.old t ≡ flagged flags value t) → is_empty ws ≡ keeps_flags flags → processor.new ≡ perform (write_row_by (rule_of profile) processor.old.pc f v ws) processor.old }
    ensures accesses { (v : Derived) (ws : List Write) → value_in processor.old v ≡ value → seen result ≡ accesses (write_row_by (rule_of profile) processor.old.pc f v ws) processor.old }
    ensures grows { Grows processor.old processor.new }
{
    let place = processor.operand(profile, f);
    let next = behind(processor.pc(), false);
    processor.finish_write(next, place, value, flags);
    only_write(profile, place, value)
}

fn write_w(profile: Profile, processor: &mut Processor, f: u8) -> Accesses
    requires f { f < 128 }
    ensures state { processor.new ≡ perform (write_row_by (rule_of profile) processor.old.pc f (part AtW) []) processor.old }
    ensures accesses { seen result ≡ accesses (write_row_by (rule_of profile) processor.old.pc f (part AtW) []) processor.old }
    ensures grows { Grows processor.old processor.new }
{
    let w = processor.w();
    write(profile, processor, f, w, Flags::Keep)
}

// A number to W.
fn put_w(processor: &mut Processor, value: u8, flags: Flags) -> Accesses
    ensures state { processor.new ≡ flagged flags value (record processor.old { pc = (processor.old.pc + 1) % 8192; w = value }) }
    ensures accesses { seen result ≡ [] }
    ensures grows { Grows processor.old processor.new }
{
    let next = behind(processor.pc(), false);
    processor.finish_plain(next, value, flags);
    no_access()
}

// An operation on a literal, its result to W.
fn literal(processor: &mut Processor, operation: Operation, k: u8) -> Accesses
    requires operation { IsOperation operation }
    ensures state { processor.new ≡ apply (flags_of operation (number k)) processor.old (record processor.old { pc = (processor.old.pc + 1) % 8192; w = value_in processor.old (result_of operation (number k)) }) }
    ensures accesses { seen result ≡ [] }
    ensures grows { Grows processor.old processor.new }
{
    let outcome = computed(operation, k, processor.w(), processor.carry());
    put_w(processor, outcome.value, outcome.flags)
}

// The next instruction, and nothing else.
fn pass(processor: &mut Processor) -> Accesses
    ensures state { processor.new ≡ record processor.old { pc = (processor.old.pc + 1) % 8192 } }
    ensures accesses { seen result ≡ [] }
    ensures grows { Grows processor.old processor.new }
{
    let next = behind(processor.pc(), false);
    processor.go_to(next);
    no_access()
}

/// The device register that an instruction reads, other than those that keep what is written to them, by its lowest address.
#[tactic(auto, using(crate::proofs::Wanted::write_row_wants))]
pub fn device_read(profile: Profile, processor: &Processor, i: Ins) -> Option<u8>
    requires { IsWellFormed i }
    ensures { (inputs : List ℕ) → result ≡ wanted_by (rule_of profile) (accesses (row_by (rule_of profile) inputs processor.now.pc i) processor.now) }
{
    match i {
        Ins::Addwf { f, d }
        | Ins::Andwf { f, d }
        | Ins::Comf { f, d }
        | Ins::Decf { f, d }
        | Ins::Decfsz { f, d } => operand_read(profile, processor, f),
        Ins::Incf { f, d } | Ins::Incfsz { f, d } | Ins::Iorwf { f, d } | Ins::Movf { f, d } =>
            operand_read(profile, processor, f),
        Ins::Rlf { f, d }
        | Ins::Rrf { f, d }
        | Ins::Subwf { f, d }
        | Ins::Swapf { f, d }
        | Ins::Xorwf { f, d } => operand_read(profile, processor, f),
        Ins::Bcf { f, b } | Ins::Bsf { f, b } | Ins::Btfsc { f, b } | Ins::Btfss { f, b } =>
            operand_read(profile, processor, f),
        Ins::Clrf { f } | Ins::Movwf { f } => None,
        Ins::Clrw | Ins::Clrwdt | Ins::Nop | Ins::Retfie | Ins::Return | Ins::Sleep => None,
        Ins::Addlw { k }
        | Ins::Andlw { k }
        | Ins::Iorlw { k }
        | Ins::Movlw { k }
        | Ins::Retlw { k }
        | Ins::Sublw { k }
        | Ins::Xorlw { k } => None,
        Ins::Call { k } | Ins::Goto { k } => None,
    }
}

fn operand_read(profile: Profile, processor: &Processor, f: u8) -> Option<u8>
    requires { f < 128 }
    ensures byte { (inputs : List ℕ) (d : Bool) (result_of : Derived → Derived) (flags : Derived → List Write) (next : Derived → Derived) → result ≡ wanted_by (rule_of profile) (accesses (byte_row_by (rule_of profile) inputs processor.now.pc f d result_of flags next) processor.now) }
    ensures test { (inputs : List ℕ) (b : ℕ) (value : ℕ) → result ≡ wanted_by (rule_of profile) (accesses (test_row_by (rule_of profile) inputs processor.now.pc f b value) processor.now) }
{
    device_of(processor.operand(profile, f))
}
