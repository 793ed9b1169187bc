//! Programs of a given size.

ghost use Rattle.std.specs.Prelude.{◌≡◌, ◌++◌, IfOk, OnOk};
ghost use Rattle.generated_laws.specs.Generated as spec;

use crate::refusal::push_counted;
use std::alloc::{AllocError, Global};

/// The text of a program of so many small functions, which main calls one after the other. It can be of any size.
#[tactic(auto, using(crate::proofs::Generated::whole))]
pub fn generate(alloc: Global, functions: u32) -> Result<Vec<u8>, AllocError>
    ensures { IfOk result (λ text. text.items ≡ spec.generated functions) }
{
    let mut text = Vec::from_slice(alloc, b"unsigned char s;\n")?;
    push_functions(&mut text, functions)?;
    text.extend_from_slice(b"void main(void){unsigned char x;\nx=PORTB;\n")?;
    push_calls(&mut text, functions)?;
    text.extend_from_slice(b"PORTC=x;\n}\n")?;
    Ok(text)
}

#[tactic(auto, using(crate::proofs::Generated::no_functions))]
fn push_functions(text: &mut Vec<u8>, functions: u32) -> Result<(), AllocError>
    ensures { OnOk result (text.new.items ≡ text.old.items ++ spec.functions_text functions) }
{
    for i in 0..functions {
        push_counted(text, b"unsigned char f", i as u64)?;
        push_counted(text, b"(unsigned char x){return x+", i as u64)?;
        text.extend_from_slice(b";}\n")?;
    }
    Ok(())
}

#[tactic(auto, using(crate::proofs::Generated::no_calls, crate::proofs::Generated::calls_on))]
fn push_calls(text: &mut Vec<u8>, functions: u32) -> Result<(), AllocError>
    ensures { OnOk result (text.new.items ≡ text.old.items ++ spec.calls_text functions) }
{
    for i in 0..functions {
        push_counted(text, b"x=f", i as u64)?;
        text.extend_from_slice(b"(x);\n")?;
    }
    Ok(())
}
