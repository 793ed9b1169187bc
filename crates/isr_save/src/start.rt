//! The start block.

ghost use Rattle.std.specs.Prelude.{◌≡◌, ◌++◌, ◌+◌, ◌*◌, ◌≤◌, ◌∷◌, [], true, length, OnOk, IfOk};
ghost use Rattle.std.specs.List.{All};
ghost use Rattle.sym_code.specs.Words.{most_words};
ghost use Rattle.isr_save.specs.Start as stated;
ghost use Rattle.sym_code.specs.WellFormed.{are_well_formed};
ghost use Rattle.sym_code.specs.declared.code.BlockName.TheVariants.{Start};

use core_code::{Byte, CoreProgram, FirstByte};
use std::alloc::{AllocError, Global};
use sym_code::{
    BlockName, FileOperation, Into, Label, Literal, LiteralOperation, Operand, PlainOperation,
    Register, Saved, Sym, SymBlock, Target,
};

// From 0000h to the interrupt vector at 0004h (Microchip data sheet DS39582, program memory map), where the two selects of a
// page will stand before the jump: with them these are four words.
const RESET: [Sym; 2] = [
    Sym::Goto(Target::Label(Label::Inner(0))),
    Sym::Plain(PlainOperation::Nop),
];

// At the vector: W, STATUS, FSR and PCLATH are kept. SWAPF changes no flag, and W is kept before it is used.
const SAVING: [Sym; 7] = [
    Sym::Movwf(Operand::Saved(Saved::W)),
    Sym::File {
        op: FileOperation::Swapf,
        file: Operand::Register(Register::Status),
        into: Into::W,
    },
    Sym::Movwf(Operand::Saved(Saved::Status)),
    Sym::File {
        op: FileOperation::Movf,
        file: Operand::Register(Register::Fsr),
        into: Into::W,
    },
    Sym::Movwf(Operand::Saved(Saved::Fsr)),
    Sym::File {
        op: FileOperation::Movf,
        file: Operand::Register(Register::Pclath),
        into: Into::W,
    },
    Sym::Movwf(Operand::Saved(Saved::Pclath)),
];

// They get back what they had. STATUS was kept with its halves swapped; behind it nothing changes a flag, so W comes back by
// two SWAPF.
const RESTORING: [Sym; 10] = [
    Sym::Label(Label::Restore),
    Sym::File {
        op: FileOperation::Movf,
        file: Operand::Saved(Saved::Pclath),
        into: Into::W,
    },
    Sym::Movwf(Operand::Register(Register::Pclath)),
    Sym::File {
        op: FileOperation::Movf,
        file: Operand::Saved(Saved::Fsr),
        into: Into::W,
    },
    Sym::Movwf(Operand::Register(Register::Fsr)),
    Sym::File {
        op: FileOperation::Swapf,
        file: Operand::Saved(Saved::Status),
        into: Into::W,
    },
    Sym::Movwf(Operand::Register(Register::Status)),
    Sym::File {
        op: FileOperation::Swapf,
        file: Operand::Saved(Saved::W),
        into: Into::File,
    },
    Sym::File {
        op: FileOperation::Swapf,
        file: Operand::Saved(Saved::W),
        into: Into::W,
    },
    Sym::Plain(PlainOperation::Retfie),
];

const MAIN: [Sym; 3] = [
    Sym::Goto(Target::Block(BlockName::Copy(0))),
    Sym::Label(Label::Halt),
    Sym::Goto(Target::Label(Label::Halt)),
];

fn put_all(block: &mut SymBlock, list: &[Sym]) -> Result<(), AllocError>
    requires { are_well_formed list.now ≡ true }
    ensures put { OnOk result (block.new.list.items ≡ block.old.list.items ++ list.now) }
    ensures name { block.new.name ≡ block.old.name }
{
    for sym in list {
        block.put(*sym)?;
    }
    Ok(())
}

fn put_reset(block: &mut SymBlock) -> Result<(), AllocError>
    ensures put { OnOk result (block.new.list.items ≡ block.old.list.items ++ stated.reset) }
    ensures name { block.new.name ≡ block.old.name }
{
    put_all(block, &RESET)
}

fn put_saving(block: &mut SymBlock) -> Result<(), AllocError>
    ensures put { OnOk result (block.new.list.items ≡ block.old.list.items ++ stated.saving) }
    ensures name { block.new.name ≡ block.old.name }
{
    put_all(block, &SAVING)
}

fn put_restoring(block: &mut SymBlock) -> Result<(), AllocError>
    ensures put { OnOk result (block.new.list.items ≡ block.old.list.items ++ stated.restoring) }
    ensures name { block.new.name ≡ block.old.name }
{
    put_all(block, &RESTORING)
}

// The handler is entered by a jump, and comes back by one to the label.
fn put_vector(block: &mut SymBlock, handler: Option<u16>) -> Result<(), AllocError>
    ensures put { OnOk result (block.new.list.items ≡ block.old.list.items ++ stated.vector handler) }
    ensures name { block.new.name ≡ block.old.name }
{
    let Some(copy) = handler else {
        return Ok(());
    };
    put_saving(block)?;
    block.put(Sym::Goto(Target::Block(BlockName::Copy(copy))))?;
    put_restoring(block)
}

fn put_main(block: &mut SymBlock) -> Result<(), AllocError>
    ensures put { OnOk result (block.new.list.items ≡ block.old.list.items ++ stated.main) }
    ensures name { block.new.name ≡ block.old.name }
{
    put_all(block, &MAIN)
}

fn put_literal(block: &mut SymBlock, to: Byte, value: Literal) -> Result<(), AllocError>
    ensures put { OnOk result (block.new.list.items ≡ block.old.list.items ++ stated.literal to value) }
    ensures name { block.new.name ≡ block.old.name }
{
    block.put(Sym::Literal {
        op: LiteralOperation::Movlw,
        value,
    })?;
    block.put(Sym::Movwf(Operand::Byte(to)))
}

fn put_byte(block: &mut SymBlock, to: Byte, first: FirstByte) -> Result<(), AllocError>
    ensures put { OnOk result (block.new.list.items ≡ block.old.list.items ++ stated.byte_code to first) }
    ensures name { block.new.name ≡ block.old.name }
{
    match first {
        FirstByte::Number(value) => {
            if value == 0 {
                block.put(Sym::Clrf(Operand::Byte(to)))
            } else {
                put_literal(block, to, Literal::Number(value))
            }
        }
        FirstByte::Low { object } => {
            put_literal(block, to, Literal::Low(Byte::Static { object, offset: 0 }))
        }
        FirstByte::High { object } => {
            put_literal(block, to, Literal::High(Byte::Static { object, offset: 0 }))
        }
    }
}

// The first bytes of an object.
fn put_object(block: &mut SymBlock, object: u16, bytes: &[FirstByte]) -> Result<(), AllocError>
    requires { length bytes.now ≤ 65536 }
    ensures put { OnOk result (block.new.list.items ≡ block.old.list.items ++ stated.object_code object 0 bytes.now) }
    ensures name { block.new.name ≡ block.old.name }
{
    for (number, first) in bytes.iter().enumerate() {
        let offset = number as u16;
        put_byte(block, Byte::Static { object, offset }, *first)?;
    }
    Ok(())
}

// The first bytes of all objects.
fn put_objects(block: &mut SymBlock, statics: &[Vec<FirstByte>]) -> Result<(), AllocError>
    requires few { length statics.now ≤ 65536 }
    requires short { All stated.HasNumberedBytes statics.now }
    ensures put { OnOk result (block.new.list.items ≡ block.old.list.items ++ stated.objects_code 0 statics.now) }
    ensures name { block.new.name ≡ block.old.name }
{
    for (number, bytes) in statics.iter().enumerate() {
        put_object(block, number as u16, bytes)?;
    }
    Ok(())
}

fn put_start(
    alloc: Global,
    statics: &[Vec<FirstByte>],
    handler: Option<u16>,
) -> Result<SymBlock, AllocError>
    requires few { length statics.now ≤ 65536 }
    requires short { All stated.HasNumberedBytes statics.now }
    ensures name { IfOk result (λ block. block.name ≡ Start) }
    ensures exact { IfOk result (λ block. block.list.items ≡ stated.start_code handler statics.now) }
{
    let mut block = SymBlock::new(alloc, BlockName::Start);
    put_reset(&mut block)?;
    put_vector(&mut block, handler)?;
    block.put(Sym::Label(Label::Inner(0)))?;
    put_objects(&mut block, statics)?;
    put_main(&mut block)?;
    Ok(block)
}

/// The start block: it gives the static objects their first bytes and goes to main, the block of copy 0, which ends at the
/// label `Halt`. Where there is a handler, the block of that copy, it is entered at the interrupt vector, with W, STATUS, FSR
/// and PCLATH kept, and ends at the label `Restore`, which gives these back. The results of main's functions and those of the
/// handler's are different bytes, and need no keeping. The selects aren't there yet; with them the vector stands at 0004h.
pub fn start_block(
    alloc: Global,
    p: &CoreProgram,
    handler: Option<u16>,
) -> Result<SymBlock, AllocError>
    // The name of a byte has room for the number of each object, and for each offset in it.
    requires few { length p.now.statics.items ≤ 65536 }
    requires short { All stated.HasNumberedBytes p.now.statics.items }
    ensures name { IfOk result (λ block. block.name ≡ Start) }
    // It holds exactly this.
    ensures exact { IfOk result (λ block. block.list.items ≡ stated.start_code handler p.now.statics.items) }
    // With the selects that it may need it has few words.
    ensures words { IfOk result (λ block. most_words block.list.items ≤ 100 + 4 * stated.bytes_of p.now.statics.items) }
{
    let block = put_start(alloc, &p.statics, handler)?;
    Ok(block)
}
