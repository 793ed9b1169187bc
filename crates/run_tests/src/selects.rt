//! Leaner code with selects by flow facts takes fewer words than code as it was selected, with selects by straight code alone; and of
//! the selects alone there are fewer. It is made of byte code with operators on
//! low bytes.

use crate::comparing::real_words;
use crate::firmware::{LOCK, METER, PUMP};
use crate::interrupts::{KEY, TWO_COPIES};
use crate::statements::TEXTS;
use bank_page::kinds::{is_label, is_select};
use bank_page::{can_select, selects_plain};
use c_ints::IntTy;
use core_code::{Core, CoreProgram};
use picc_core::{codes_of, compile, compile_plain, front};
use std::alloc::Global;
use std::test::Fail;
use sym_code::SymBlock;

// The words of a text's image as it is compiled.
fn lean_words(alloc: Global, text: &str) -> Result<u32, Fail> {
    let Ok(built) = compile(alloc, text.as_bytes()) else {
        return Err(Fail::new("not built"));
    };
    Ok(real_words(&built.image))
}

// The same as compiled plainly.
fn plain_words(alloc: Global, text: &str) -> Result<u32, Fail> {
    let Ok(built) = compile_plain(alloc, text.as_bytes()) else {
        return Err(Fail::new("not built plainly"));
    };
    Ok(real_words(&built.image))
}

// Both numbers of words.
fn words_of(alloc: Global, text: &str) -> Result<(u32, u32), Fail> {
    Ok((lean_words(alloc, text)?, plain_words(alloc, text)?))
}

// How many selects stand in blocks, and how many words of program memory they take, a label none.
fn counted(blocks: &[SymBlock]) -> (u32, u32) {
    let mut selects: u32 = 0;
    let mut words: u32 = 0;
    for block in blocks {
        for sym in &block.list {
            if is_select(*sym) {
                selects = selects.saturating_add(1);
            }
            if !is_label(*sym) {
                words = words.saturating_add(1);
            }
        }
    }
    (selects, words)
}

// How many selects stand in the code that a text is compiled to, and how many in the same code where straight code alone tells what is
// selected.
fn selects_of(alloc: Global, text: &str) -> Result<(u32, u32), Fail> {
    let Ok(front) = front(alloc, text.as_bytes()) else {
        return Err(Fail::new("refused"));
    };
    let codes = codes_of(alloc, &front)?;
    let (selects, words) = counted(&codes.selected.blocks);
    if words != lean_words(alloc, text)? {
        return Err(Fail::new("the image has other words"));
    }
    if !can_select(&front.placed, &codes.selected.blocks) {
        return Err(Fail::new("no selects can be put"));
    }
    let plain = selects_plain(alloc, &codes.selected, &front.placed)?;
    Ok((selects, counted(&plain.blocks).0))
}

// Two sums: of one the upper byte is used, of the other it isn't.
const SUMS: &str =
    "void main(void){unsigned char a=200;unsigned char b=100;PORTB=(a+b)>>1;PORTC=a+b;}";

// How many operators on bytes there are in an operation, but for those in loops and conditions.
#[cycle(counting)]
fn byte_operators_of(c: &Core) -> u32 {
    match c {
        Core::Binary { ty, .. } => { if *ty == IntTy::UChar { 1 } else { 0 } }
        Core::Many(parts) => byte_operators_of_all(parts),
        _ => 0,
    }
}

#[cycle(counting)]
fn byte_operators_of_all(code: &[Core]) -> u32 {
    let mut count: u32 = 0;
    for c in code {
        count = count.saturating_add(byte_operators_of(c));
    }
    count
}

fn byte_operators_in(program: &CoreProgram) -> u32 {
    let mut count: u32 = 0;
    for body in &program.bodies {
        count = count.saturating_add(byte_operators_of_all(&body.code));
    }
    count
}

// These of a text's byte code as it was lowered, and of that of which its blocks are made.
fn byte_operators(alloc: Global, text: &str) -> Result<(u32, u32), Fail> {
    let Ok(front) = front(alloc, text.as_bytes()) else {
        return Err(Fail::new("refused"));
    };
    let codes = codes_of(alloc, &front)?;
    Ok((
        byte_operators_in(&codes.core),
        byte_operators_in(&codes.low),
    ))
}

// C does sums as ints. Of the first one the upper byte is shifted into the answer, of the second one nothing asks for it. `test_low_bytes` alone
// changes no sum.
#[test]
fn a_sum_of_which_the_low_byte_is_used_is_done_on_bytes(rt: HostRuntime) -> Result<(), Fail> {
    assert_eq!(rt; byte_operators(rt.alloc(), SUMS)?, (0, 1));
    Ok(())
}

#[test]
fn firmware_has_fewer_words(rt: HostRuntime) -> Result<(), Fail> {
    for text in [KEY, METER, LOCK, TWO_COPIES, SUMS] {
        let (lean, plain) = words_of(rt.alloc(), text)?;
        assert!(rt; lean < plain, "{lean} and {plain}: {text}");
    }
    // by flow facts alone the image of the pump has a seventh fewer
    let (lean, plain) = words_of(rt.alloc(), PUMP)?;
    assert!(rt;
        lean < plain && 6 * lean as u64 <= 5 * plain as u64,
        "{lean} and {plain}"
    );
    Ok(())
}

#[test]
fn flow_facts_save_selects(rt: HostRuntime) -> Result<(), Fail> {
    for text in [KEY, PUMP] {
        let (flow, straight) = selects_of(rt.alloc(), text)?;
        assert!(rt; flow < straight, "{flow} and {straight}: {text}");
    }
    Ok(())
}

#[test]
fn no_text_has_more_words(rt: HostRuntime) -> Result<(), Fail> {
    let mut count: u32 = 0;
    for text in TEXTS.lines() {
        let (lean, plain) = words_of(rt.alloc(), text)?;
        assert!(rt; lean <= plain, "{text}");
        count = count.saturating_add(1);
    }
    assert!(rt; count == 34);
    Ok(())
}
