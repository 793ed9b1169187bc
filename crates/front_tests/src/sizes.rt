//! Copies, sizes and addresses of programs as short texts.

ghost use Rattle.std.specs.Prelude.{◌≤◌, ◌^◌, length};

use crate::stages::typed;
use c_check::{RootKind, Typed};
use call_graph::{Copies, FnCopy, FnId, GraphError, copies, copies_deeper};
use code_place::pages;
use pic_map::Placed;
use pic_world::Root;
use picc_core::front;
use ram_place::{PlaceError, block_words, frame_bytes, place, start_words};
use std::alloc::{AllocError, Global};
use std::test::Fail;

// What the functions of rows name: bytes of 1, 2 and 4, arrays, pointers to 1, 2 and 3 bytes, structures of 3 bytes.
const NAMES: &[u8] =
    b"unsigned char c;int i,j;long l;unsigned char a[4];int b[4];unsigned char*q;int*r;struct s{unsigned char m;int n;};struct s t,v;struct s*p;int f(unsigned char x,int y){return y;}";

/// The text of a name.
pub fn text_of(name: &[u8]) -> &str {
    match std::str::from_utf8(name) {
        Ok(name) => name,
        Err(_) => "?",
    }
}

fn refused(alloc: Global, error: &GraphError) -> Result<String, Fail> {
    match error {
        GraphError::NoMemory => Err(Fail::new("no memory")),
        GraphError::Roots { kind } => {
            let none = if *kind == RootKind::None {
                "none"
            } else {
                "others"
            };
            Ok(format!(in alloc; "roots: {none}")?)
        }
        GraphError::Recursion { function } => {
            let name = text_of(function);
            Ok(format!(in alloc; "recursion: {name}")?)
        }
        GraphError::Depth { depth } => Ok(format!(in alloc; "over {depth}")?),
    }
}

fn without_address(alloc: Global, error: &PlaceError) -> Result<String, Fail> {
    match error {
        PlaceError::NoMemory => Err(Fail::new("no memory")),
        PlaceError::Ram { object } => {
            let name = text_of(object);
            Ok(format!(in alloc; "no address: {name}")?)
        }
    }
}

fn all_sizes(
    alloc: Global,
    p: &Typed,
    copies: &Copies,
    placed: &Placed,
) -> Result<String, AllocError> {
    let mut words = start_words(p);
    let mut block = 0;
    for copy in &copies.list {
        let own = block_words(p, copy.function);
        words = words.saturating_add(own);
        block = block.max(own);
    }
    let (ram, depth) = (placed.ram, copies.depth);
    format!(in alloc; "{words} words, {block} in a block, {ram} bytes, depth {depth}")
}

/// The sizes of a text, or why it has none.
pub fn sizes(alloc: Global, text: &[u8]) -> Result<String, Fail> {
    let p = typed(alloc, text)?;
    let copies = match copies(alloc, &p) {
        Ok(copies) => copies,
        Err(error) => return refused(alloc, &error),
    };
    match place(alloc, &p, &copies) {
        Ok(placed) => Ok(all_sizes(alloc, &p, &copies, &placed)?),
        Err(error) => without_address(alloc, &error),
    }
}

/// The depth of the calls of a text whose objects and frames have addresses, or the depth that is too much.
pub fn depth(alloc: Global, text: &[u8]) -> Result<String, Fail> {
    let p = typed(alloc, text)?;
    let copies = match copies(alloc, &p) {
        Ok(copies) => copies,
        Err(error) => return refused(alloc, &error),
    };
    match place(alloc, &p, &copies) {
        Ok(_) => {
            let depth = copies.depth;
            Ok(format!(in alloc; "{depth}")?)
        }
        Err(error) => without_address(alloc, &error),
    }
}

fn readers(alloc: Global, p: &Typed) -> Result<Vec<u32>, AllocError> {
    let mut numbers = Vec::new(alloc);
    let mut number: u32 = 0;
    for function in &p.functions {
        if function.name.first() == Some(&b'r') {
            numbers.push(number)?;
        }
        number = number.saturating_add(1);
    }
    Ok(numbers)
}

/// The depth of the calls of a text, where each function whose name begins with `r` calls one more leaf.
pub fn depth_of_readers(alloc: Global, text: &[u8]) -> Result<String, Fail> {
    let p = typed(alloc, text)?;
    let deeper = readers(alloc, &p)?;
    match copies_deeper(alloc, &p, &deeper) {
        Ok(copies) => {
            let depth = copies.depth;
            Ok(format!(in alloc; "{depth}")?)
        }
        Err(error) => refused(alloc, &error),
    }
}

/// The bytes of the frame of a function behind the shared names, and the words of its block.
pub fn row(alloc: Global, function: &[u8]) -> Result<String, Fail> {
    let mut text = Vec::new(alloc);
    text.extend_from_slice(NAMES)?;
    text.extend_from_slice(function)?;
    let p = typed(alloc, &text)?;
    let second = FnId::User(1);
    let (bytes, words) = (frame_bytes(&p, second), block_words(&p, second));
    Ok(format!(in alloc; "{bytes} {words}")?)
}

/// The words of the blocks of a program without helpers and handler: the start block, and then the copies
/// in order of definition.
fn blocks(alloc: Global, p: &Typed, list: &[FnCopy]) -> Result<Vec<u64>, Fail>
    requires { length p.now.functions.items ≤ 2 ^ 28 }
{
    let mut blocks = Vec::new(alloc);
    blocks.push(start_words(p))?;
    for number in 0..p.functions.len() {
        let function = FnId::User(number as u32);
        if list.iter().any(|copy| copy.function == function) {
            blocks.push(block_words(p, function))?;
        }
    }
    Ok(blocks)
}

/// Where the blocks of a text stand, or why they don't fit.
pub fn paged(alloc: Global, text: &[u8]) -> Result<String, Fail> {
    let p = typed(alloc, text)?;
    if p.functions.len() > 1000 {
        return Err(Fail::new("too many functions"));
    }
    let copies = match copies(alloc, &p) {
        Ok(copies) => copies,
        Err(error) => return refused(alloc, &error),
    };
    let blocks = blocks(alloc, &p, &copies.list)?;
    if blocks.len() > 1001 {
        return Err(Fail::new("too many blocks"));
    }
    match pages(alloc, &blocks) {
        Ok(at) => Ok(format!(in alloc; "{at:?}")?),
        Err(error) => Ok(format!(in alloc; "{error:?}")?),
    }
}

fn line(
    alloc: Global,
    kind: &str,
    name: &[u8],
    address: u16,
    size: u16,
) -> Result<String, AllocError> {
    let name = text_of(name);
    format!(in alloc; "{kind} {name} {address:04X} {size};")
}

fn put_placed(alloc: Global, out: &mut String, placed: &Placed) -> Result<(), AllocError> {
    for object in &placed.objects {
        let kind = if object.fixed { "const" } else { "static" };
        out.push_str(&line(alloc, kind, &object.name, object.address, object.size)?)?;
    }
    for frame in &placed.frames {
        let kind = match frame.root {
            Root::Main => "main",
            Root::Isr => "isr",
        };
        out.push_str(&line(alloc, kind, &frame.name, frame.address, frame.size)?)?;
    }
    Ok(())
}

/// Where the objects and frames of a text stand.
pub fn places(alloc: Global, text: &[u8]) -> Result<String, Fail> {
    let p = typed(alloc, text)?;
    let copies = match copies(alloc, &p) {
        Ok(copies) => copies,
        Err(error) => return refused(alloc, &error),
    };
    match place(alloc, &p, &copies) {
        Ok(placed) => {
            let mut out = String::new(alloc);
            put_placed(alloc, &mut out, &placed)?;
            Ok(out)
        }
        Err(error) => without_address(alloc, &error),
    }
}

/// All that is known of a text.
pub fn known(alloc: Global, text: &[u8]) -> Result<String, Fail> {
    let Ok(known) = front(alloc, text) else {
        return Err(Fail::new("refused"));
    };
    let at = &known.at;
    let (words, ram) = (known.words, known.placed.ram);
    let (depth, functions) = (known.copies.depth, known.typed.functions.len());
    Ok(format!(in alloc; "{at:?} {words} {ram} {depth} {functions}")?)
}
