//! Values worked out by hand, from the rules of ISO/IEC 9899:1990, 6.2 and 6.3.

use c_ints::{BinOp, IntTy, UnOp, Value, apply, constant, convert, promote, size, unary, usual};
use std::test::Fail;

fn applied(op: BinOp, ty: IntTy, a: u32, b: u32) -> Option<i64> {
    let ty = promote(ty);
    let value = apply(op, Value::new(ty, a), Value::new(ty, b))?;
    Some(value.number())
}

#[test]
fn operators_give_the_worked_values(rt: HostRuntime) -> Result<(), Fail> {
    let cases = [
        (BinOp::Add, IntTy::UChar, 200, 100, Some(300)),
        (BinOp::Shr, IntTy::Int, 300, 1, Some(150)),
        (BinOp::Lt, IntTy::UInt, 0xffff, 1, Some(0)),
        (BinOp::Lt, IntTy::Long, 0xffff_ffff, 1, Some(1)),
        (BinOp::Div, IntTy::Int, 0xfff9, 2, Some(-3)),
        (BinOp::Rem, IntTy::Int, 0xfff9, 2, Some(-1)),
        (BinOp::Div, IntTy::Int, 1, 0, None),
        (BinOp::Rem, IntTy::ULong, 1, 0, None),
        (BinOp::Div, IntTy::Int, 0x8000, 0xffff, None),
        (BinOp::Rem, IntTy::Long, 0x8000_0000, 0xffff_ffff, None),
        (BinOp::Div, IntTy::UInt, 0x8000, 0xffff, Some(0)),
        (BinOp::Add, IntTy::Int, 0x7fff, 1, Some(-32_768)),
        (BinOp::Sub, IntTy::UInt, 0, 1, Some(65_535)),
        (BinOp::Mul, IntTy::Int, 300, 300, Some(24_464)),
        (BinOp::Mul, IntTy::ULong, 0xffff_ffff, 0xffff_ffff, Some(1)),
        (BinOp::Shl, IntTy::Int, 1, 15, Some(-32_768)),
        (BinOp::Shl, IntTy::Int, 1, 16, None),
        (BinOp::Shl, IntTy::ULong, 3, 31, Some(0x8000_0000)),
        (BinOp::Shr, IntTy::Int, 0xfffd, 1, Some(-2)),
        (BinOp::Shr, IntTy::Int, 1, 0xffff, None),
        (BinOp::And, IntTy::Int, 0xfff0, 0x7ff8, Some(0x7ff0)),
        (BinOp::Xor, IntTy::Int, 0xffff, 1, Some(-2)),
        (BinOp::Or, IntTy::ULong, 0x8000_0000, 1, Some(0x8000_0001)),
        (BinOp::Eq, IntTy::Long, 5, 5, Some(1)),
        (BinOp::Ge, IntTy::Int, 0xffff, 0, Some(0)),
    ];
    for (op, ty, a, b, wanted) in cases {
        assert!(rt; applied(op, ty, a, b) == wanted);
    }
    Ok(())
}

#[test]
fn conversions_give_the_worked_values(rt: HostRuntime) -> Result<(), Fail> {
    let long = Value::new(IntTy::Long, 0xffff_ff38);
    let numbers = [
        long.number(),
        convert(long, IntTy::SChar).number(),
        convert(long, IntTy::UInt).number(),
        unary(UnOp::Minus, Value::new(IntTy::Int, 0x8000)).number(),
        unary(UnOp::Not, Value::new(IntTy::UInt, 1)).number(),
        unary(UnOp::Bang, long).number(),
    ];
    assert!(rt; numbers == [-200, 56, 65_336, -32_768, 65_534, 0]);
    assert!(rt; long.bits() == 0xffff_ff38);
    let sizes = [
        size(constant(40_000, 10, false, false)),
        size(constant(0x9c40, 16, false, false)),
    ];
    assert!(rt; sizes == [4, 2]);
    let types = [
        unary(UnOp::Plus, Value::new(IntTy::SChar, 0x80)).ty(),
        constant(0x8000_0000, 10, false, false),
        constant(1, 8, false, true),
        constant(65_536, 10, true, false),
        usual(IntTy::UInt, IntTy::Long),
        usual(IntTy::UShort, IntTy::SChar),
        usual(IntTy::Long, IntTy::ULong),
    ];
    let wanted = [
        IntTy::Int,
        IntTy::ULong,
        IntTy::Long,
        IntTy::ULong,
        IntTy::Long,
        IntTy::UInt,
        IntTy::ULong,
    ];
    assert!(rt; types == wanted);
    Ok(())
}
