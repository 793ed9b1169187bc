//! The calls of both roots, and the return stack.

use crate::calls::Calls;
use crate::html::Html;
use crate::memory::{put_bytes, put_range};
use crate::shown::{Shown, class_of, same_root};
use pic_world::Root;
use std::alloc::{AllocError, Global};

/// A copy that is to be shown, how far to the right, and at how many places it is called.
#[derive(Clone, Copy)]
struct Node {
    copy: usize,
    inside: u64,
    places: u32,
}

// The copy that a root itself is.
fn root_copy(shown: &Shown<'_>, root: Root) -> Option<usize> {
    for (number, copy) in shown.copies.list.iter().enumerate() {
        if same_root(copy.root, root) && copy.level == 0 {
            return Some(number);
        }
    }
    None
}

fn is_callee(shown: &Shown<'_>, root: Root, number: usize) -> bool {
    match shown.copies.list.get(number) {
        Some(copy) => same_root(copy.root, root),
        None => false,
    }
}

// What a copy calls is shown next, the first one first.
fn push_callees(
    waiting: &mut Vec<Node>,
    shown: &Shown<'_>,
    calls: &Calls,
    root: Root,
    node: Node,
) -> Result<(), AllocError> {
    for number in (0..shown.copies.list.len()).rev() {
        let places = calls.count(node.copy, number);
        if places > 0 && is_callee(shown, root, number) {
            waiting.push(Node {
                copy: number,
                inside: node.inside.saturating_add(1),
                places,
            })?;
        }
    }
    Ok(())
}

fn put_details(out: &mut Html, shown: &Shown<'_>, node: Node, taken: u64) {
    out.counted("</b> <small>return stack ", taken);
    out.put(" of 8, ");
    out.number(shown.words_of(node.copy));
    out.put(" words");
    if node.places > 1 {
        out.counted(", called at ", node.places as u64);
        out.put(" places");
    }
}

fn put_node(out: &mut Html, shown: &Shown<'_>, node: Node, again: bool) {
    let Some((copy, frame)) = shown.copy(node.copy) else {
        return;
    };
    out.put("<li class=\"");
    out.put(class_of(copy.root));
    out.counted("\" style=\"--inside:", node.inside);
    out.put("\" title=\"frame of ");
    put_bytes(out, frame.size as u64);
    if frame.size > 0 {
        out.put(": ");
        put_range(out, frame.address, frame.size);
    }
    out.put("\"><b>");
    out.name(&frame.name);
    put_details(out, shown, node, shown.taken(copy));
    out.put(if again { ", see above" } else { "" });
    out.put("</small></li>\n");
}

fn is_marked(marks: &[bool], at: usize) -> bool {
    match marks.get(at) {
        Some(mark) => *mark,
        None => true,
    }
}

fn mark(marks: &mut [bool], at: usize) {
    if at < marks.len() {
        marks[at] = true;
    }
}

// A copy, and what it calls where that isn't shown already.
fn put_next(
    out: &mut Html,
    shown: &Shown<'_>,
    calls: &Calls,
    root: Root,
    marks: &mut [bool],
    waiting: &mut Vec<Node>,
    node: Node,
) -> Result<(), AllocError> {
    let again = is_marked(marks, node.copy);
    put_node(out, shown, node, again);
    if again {
        return Ok(());
    }
    mark(marks, node.copy);
    push_callees(waiting, shown, calls, root, node)
}

fn put_calls_of(
    alloc: Global,
    out: &mut Html,
    shown: &Shown<'_>,
    calls: &Calls,
    root: Root,
) -> Result<(), AllocError> {
    let Some(first) = root_copy(shown, root) else {
        return Ok(());
    };
    let mut marks = vec![in alloc; false; shown.copies.list.len()]?;
    let mut waiting = Vec::new(alloc);
    waiting.push(Node {
        copy: first,
        inside: 0,
        places: 1,
    })?;
    out.put("<ul>\n");
    for _turn in 0..u32::MAX {
        let Some(node) = waiting.pop() else {
            break;
        };
        put_next(out, shown, calls, root, &mut marks, &mut waiting, node)?;
    }
    out.put("</ul>\n");
    Ok(())
}

fn put_slots(out: &mut Html, class: &str, title: &str, count: u64) {
    for _slot in 0..count.min(8) {
        out.put("<i class=\"");
        out.put(class);
        out.put("\" title=\"");
        out.put(title);
        out.put("\"></i>");
    }
}

// The eight words of the return stack, with those that are taken at the deepest point.
fn put_stack(out: &mut Html, shown: &Shown<'_>) {
    let of_main = match shown.deepest(Root::Main) {
        Some(level) => level,
        None => 0,
    };
    let of_handler = match shown.deepest(Root::Isr) {
        Some(level) => level.saturating_add(1),
        None => 0,
    };
    out.put("<div class=\"stack\">");
    put_slots(out, "main", "a call of main's root", of_main);
    put_slots(
        out,
        "handler",
        "the interrupt, or a call of the handler's root",
        of_handler,
    );
    put_slots(
        out,
        "free",
        "free",
        8u64.saturating_sub(of_main).saturating_sub(of_handler),
    );
    out.counted(
        "</div>\n<p>At the deepest point ",
        shown.copies.depth as u64,
    );
    out.counted(" of the 8 words of the return stack are taken: ", of_main);
    out.put(" by calls under main");
    if of_handler > 0 {
        out.counted(", 1 by the interrupt, ", of_handler.saturating_sub(1));
        out.put(" by calls under the handler");
    }
    out.put(".</p>\n");
}

/// The return stack, and the tree of calls of each root. What a function calls is shown where it comes first.
pub fn put_calls(
    alloc: Global,
    out: &mut Html,
    shown: &Shown<'_>,
    calls: &Calls,
) -> Result<(), AllocError> {
    out.put("<section><h2>Calls</h2>\n");
    put_stack(out, shown);
    put_calls_of(alloc, out, shown, calls, Root::Main)?;
    put_calls_of(alloc, out, shown, calls, Root::Isr)?;
    out.put("</section>\n");
    Ok(())
}
