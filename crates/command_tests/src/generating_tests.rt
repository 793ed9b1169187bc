//! Generated programs, written out by hand.

use command_cases::{host_of, run};
use picc_cli::generate;
use std::alloc::{AllocError, Global};
use std::test::Fail;

const ONE: &str = "unsigned char s;\n\
unsigned char f0(unsigned char x){return x+0;}\n\
void main(void){unsigned char x;\n\
x=PORTB;\n\
x=f0(x);\n\
PORTC=x;\n\
}\n";

const TWO: &str = "unsigned char s;\n\
unsigned char f0(unsigned char x){return x+0;}\n\
unsigned char f1(unsigned char x){return x+1;}\n\
void main(void){unsigned char x;\n\
x=PORTB;\n\
x=f0(x);\n\
x=f1(x);\n\
PORTC=x;\n\
}\n";

// Whether this is the text of a program of so many functions.
fn is_text(alloc: Global, functions: u32, text: &str) -> Result<bool, AllocError> {
    let generated = generate(alloc, functions)?;
    Ok(generated.as_slice() == text.as_bytes())
}

#[test]
fn generated_programs_of_one_and_two_functions_are_as_written(rt: HostRuntime) -> Result<(), Fail> {
    assert!(rt; is_text(rt.alloc(), 1, ONE)?, "one");
    assert!(rt; is_text(rt.alloc(), 2, TWO)?, "two");
    Ok(())
}

// Whether `gen` ends with 0 and leaves no file, and what it prints ends with the sizes: main's block and what starts it, and for
// each function its block and a call.
fn is_accepted(alloc: Global, functions: u32) -> Result<bool, AllocError> {
    let words = functions.saturating_mul(92).saturating_add(132);
    let end = format!(in alloc; "/* gen {functions}: words {words} ram 14 depth 1 */\n")?;
    let command = format!(in alloc; "gen {functions}")?;
    let mut host = host_of(alloc, "", Vec::new(alloc))?;
    let status = run(alloc, &command, &mut host)?;
    Ok(status == 0 && host.printed.ends_with(end.as_bytes()) && host.files.is_empty())
}

#[test]
fn no_generated_program_is_refused(rt: HostRuntime) -> Result<(), Fail> {
    for functions in 1..=64u32 {
        assert!(rt;
            is_accepted(rt.alloc(), functions)?,
            "{functions} functions"
        );
    }
    Ok(())
}
