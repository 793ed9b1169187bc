//! The table of objects and frames: where each is, and which frames share its bytes.

use crate::calls::Calls;
use crate::html::Html;
use crate::memory::{object_class, put_range};
use crate::shown::{Shown, class_of};
use c_typed::{FnId, Typed, Variable};
use pic_map::{FrameLine, ObjLine};
use pic_world::Root;

/// How many of the frames that share bytes with one are named.
const MOST_SHARERS: u64 = 12;

fn put_row(out: &mut Html, class: &str, kind: &str, name: &[u8]) {
    out.put("<tr><td><i class=\"mark ");
    out.put(class);
    out.put("\"></i>");
    out.name(name);
    out.put("</td><td>");
    out.put(kind);
    out.put("</td><td>");
}

fn put_size(out: &mut Html, address: u16, size: u16) {
    if size > 0 {
        put_range(out, address, size);
    }
    out.counted("</td><td class=\"number\">", size as u64);
    out.put("</td><td>");
}

// Variables with their bytes. The answer is how many bytes these are.
fn put_variables(out: &mut Html, typed: &Typed, variables: &[Variable]) -> u64 {
    let mut bytes: u64 = 0;
    for variable in variables {
        let own = typed.bytes_of(variable.ty.ty);
        out.name(&variable.name);
        out.counted(" ", own);
        out.put(", ");
        bytes = bytes.saturating_add(own);
    }
    bytes
}

// The parameters and locals of a function. The answer is how many bytes they have; a helper has none.
fn put_own(out: &mut Html, typed: &Typed, id: FnId) -> u64 {
    let FnId::User(number) = id else {
        return 0;
    };
    let Some(function) = typed.functions.get(number as usize) else {
        return 0;
    };
    let parameters = put_variables(out, typed, &function.params);
    let locals = put_variables(out, typed, &function.locals);
    parameters.saturating_add(locals)
}

// What a frame holds: variables, and the temporary bytes behind them.
fn put_held(out: &mut Html, shown: &Shown<'_>, number: usize) {
    let Some((copy, frame)) = shown.copy(number) else {
        return;
    };
    let variables = put_own(out, shown.typed, copy.function);
    out.number((frame.size as u64).saturating_sub(variables));
    out.put(" temporary</td><td>");
}

fn put_object(out: &mut Html, object: &ObjLine) {
    let class = object_class(object.fixed);
    put_row(out, class, class, &object.name);
    put_size(out, object.address, object.size);
    out.put("</td><td></td></tr>\n");
}

fn share(a: &FrameLine, b: &FrameLine) -> bool {
    let end_of_a = (a.address as u32).saturating_add(a.size as u32);
    let end_of_b = (b.address as u32).saturating_add(b.size as u32);
    a.size > 0 && b.size > 0 && (a.address as u32) < end_of_b && (b.address as u32) < end_of_a
}

fn put_sharer(out: &mut Html, frame: &FrameLine, apart: bool) {
    out.put(if apart {
        " <span title=\"never live together: of one root, and neither calls the other, directly or through others\">"
    } else {
        " <span>"
    });
    out.name(&frame.name);
    out.put("</span>");
}

// The first frames that share a byte, and how many more there are.
fn put_sharers(out: &mut Html, shown: &Shown<'_>, calls: &Calls, number: usize, own: &FrameLine) {
    let mut count: u64 = 0;
    for (other, frame) in shown.placed.frames.iter().enumerate() {
        if other != number && share(own, frame) {
            if count < MOST_SHARERS {
                put_sharer(out, frame, calls.are_apart(shown.copies, number, other));
            }
            count = count.saturating_add(1);
        }
    }
    if count > MOST_SHARERS {
        out.counted(" and ", count - MOST_SHARERS);
        out.put(" more");
    }
}

fn frame_kind(frame: &FrameLine) -> &'static str {
    match frame.root {
        Root::Main => "frame, main",
        Root::Isr => "frame, handler",
    }
}

fn put_frame(out: &mut Html, shown: &Shown<'_>, calls: &Calls, number: usize, frame: &FrameLine) {
    let class = class_of(frame.root);
    put_row(out, class, frame_kind(frame), &frame.name);
    put_size(out, frame.address, frame.size);
    put_held(out, shown, number);
    put_sharers(out, shown, calls, number, frame);
    out.put("</td></tr>\n");
}

/// The objects in order of declaration, and the frames in the order of placing.
pub fn put_places(out: &mut Html, shown: &Shown<'_>, calls: &Calls) {
    out.put(
        "<section><h2>Objects and frames</h2>\n<table><tr><th>Name</th><th>Kind</th><th>Addresses</th><th>Bytes</th>",
    );
    out.put("<th>Holds, in bytes</th><th>Shares bytes with</th></tr>\n");
    for object in &shown.placed.objects {
        put_object(out, object);
    }
    for (number, frame) in shown.placed.frames.iter().enumerate() {
        put_frame(out, shown, calls, number, frame);
    }
    out.put("</table></section>\n");
}
