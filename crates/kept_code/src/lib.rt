//! Which static objects byte code names, beside those that its typed program names.
//!
//! In: nothing; the crate has definitions, and a law about them. Out: nothing.
//! The promise: the code of a function's body names no static object that the function doesn't name, and takes the address of none whose
//! address the function doesn't take.
#![tactic(auto)]

ghost use Rattle.kept_code.specs.Meets.{BodiesNameTheirOwn};

/// The code of a body names static objects that its function names, and takes the addresses that it takes.
pub fn bodies_name_their_own()
    ensures { BodiesNameTheirOwn }
{}
