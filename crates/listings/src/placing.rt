//! Where objects and frames stand.

use crate::listing::Listing;
use crate::names::{of_helper, of_root};
use c_typed::{FnId, Typed, Variable};
use call_graph::FnCopy;
use pic_map::{FrameLine, ObjLine};
use picc_core::Front;

fn put_place(out: &mut Listing, name: &[u8], address: u16, size: u16) {
    out.name(name);
    out.numbered("at", address as u64);
    out.numbered("bytes", size as u64);
}

fn put_object(out: &mut Listing, object: &ObjLine) {
    out.begin(1, "Object");
    put_place(out, &object.name, object.address, object.size);
    if object.fixed {
        out.word("const");
    }
    out.end();
}

fn bytes_of(typed: &Typed, variables: &[Variable]) -> u64 {
    let mut bytes: u64 = 0;
    for variable in variables {
        bytes = bytes.saturating_add(typed.bytes_of(variable.ty.ty));
    }
    bytes
}

/// How many bytes of the frame are those of parameters, and how many those of parameters and locals. A helper has none.
fn variable_bytes(typed: &Typed, function: FnId) -> (u64, u64) {
    if let FnId::User(number) = function {
        if let Some(function) = typed.functions.get(number as usize) {
            let parameters = bytes_of(typed, &function.params);
            let locals = bytes_of(typed, &function.locals);
            return (parameters, parameters.saturating_add(locals));
        }
    }
    (0, 0)
}

fn put_function(out: &mut Listing, function: FnId) {
    match function {
        FnId::User(number) => out.numbered("User", number as u64),
        FnId::Helper(helper) => {
            out.open("Helper");
            out.word(of_helper(helper));
            out.close();
        }
    }
}

fn put_copy(out: &mut Listing, typed: &Typed, copy: FnCopy, frame: &FrameLine) {
    out.begin(1, "Copy");
    out.word(of_root(copy.root));
    put_function(out, copy.function);
    put_place(out, &frame.name, frame.address, frame.size);
    let (parameters, variables) = variable_bytes(typed, copy.function);
    out.numbered("parameters", parameters);
    out.numbered("variables", variables);
    out.end();
}

/// The static objects, and the copies with their frames.
pub fn put_placing(out: &mut Listing, front: &Front) {
    out.begin(0, "Objects");
    out.end();
    for object in &front.placed.objects {
        put_object(out, object);
    }
    out.begin(0, "Copies");
    out.end();
    for (copy, frame) in front.copies.list.iter().zip(&front.placed.frames) {
        put_copy(out, &front.typed, *copy, frame);
    }
}
