//! The HEX and the map that are built of a text, each cut off after each of its bytes: what `sim` reports follows from the line in
//! which the cut lies.

use crate::cut_tests::KEY;
use command_cases::{BUILD, holds, host_behind, line_ends};
use host_io::MemoryHost;
use std::alloc::{AllocError, Global};
use std::test::Fail as Failure;

fn text_in<'a>(host: &'a MemoryHost, name: &str) -> &'a str {
    let Some(bytes) = host.files.get(name) else {
        return "";
    };
    match std::str::from_utf8(bytes) {
        Ok(text) => text,
        Err(_) => "",
    }
}

fn line_of(text: &str, number: usize) -> &str {
    text.lines().nth(number.saturating_sub(1)).unwrap_or("")
}

// Whether the front has all that counts: the last byte ends the last line, and may be wanting.
fn is_all(whole: &str, front: &str) -> bool {
    front.len().saturating_add(1) >= whole.len()
}

// What is reported where this front of a HEX is left: a record is whole or bad, and without the last one there is no end.
fn hex_report(alloc: Global, whole: &str, front: &str) -> Result<String, AllocError> {
    let number = line_ends(front.as_bytes()).saturating_add(1);
    let part = line_of(front, number);
    if is_all(whole, front) {
        Ok(String::new(alloc))
    } else if part.is_empty() || part == line_of(whole, number) {
        String::from_str(alloc, "a.hex:0: no end\n")
    } else {
        format!(in alloc; "a.hex:{number}: bad record\n")
    }
}

// Whether part of a map's line is a line too: that of an object or a frame, with a digit of its size.
fn is_line_still(line: &str, part: &str) -> bool {
    let is_sized = line.starts_with("static ")
        || line.starts_with("const ")
        || line.starts_with("frame ");
    match line.rsplit_once(' ') {
        Some((before, _)) => is_sized && part.len() > before.len().saturating_add(1),
        None => false,
    }
}

// What is reported where this front of a map is left: behind a whole line the next one is wanting.
fn map_report(alloc: Global, whole: &str, front: &str) -> Result<String, AllocError> {
    let number = line_ends(front.as_bytes()).saturating_add(1);
    let (line, part) = (line_of(whole, number), line_of(front, number));
    if is_all(whole, front) {
        Ok(String::new(alloc))
    } else if part == line || is_line_still(line, part) {
        format!(in alloc; "a.map:{}: bad line\n", number.saturating_add(1))
    } else {
        format!(in alloc; "a.map:{number}: bad line\n")
    }
}

// Whether `sim` of these files reports this, and ends with 0 where it is nothing.
fn is_reported(alloc: Global, hex: &str, map: &str, report: &str) -> Result<bool, AllocError> {
    let status: u8 = if report.is_empty() { 0 } else { 5 };
    let case = format!(in alloc;
        "sim a.hex a.map a.s 0@{status}@{report}@a.hex={hex}@a.map={map}@a.s="
    )?;
    holds(alloc, &case)
}

fn is_hex_told(alloc: Global, hex: &str, map: &str, length: usize) -> Result<bool, AllocError> {
    let Some(front) = hex.get(..length) else {
        return Ok(false);
    };
    let report = hex_report(alloc, hex, front)?;
    is_reported(alloc, front, map, &report)
}

fn is_map_told(alloc: Global, hex: &str, map: &str, length: usize) -> Result<bool, AllocError> {
    let Some(front) = map.get(..length) else {
        return Ok(false);
    };
    let report = map_report(alloc, map, front)?;
    is_reported(alloc, hex, front, &report)
}

#[test]
fn built_files_cut_anywhere_are_told_at_their_line(rt: HostRuntime) -> Result<(), Failure> {
    let (host, status) = host_behind(rt.alloc(), BUILD, KEY, "")?;
    let (hex, map) = (text_in(&host, "a.hex"), text_in(&host, "a.map"));
    assert!(rt; status == 0 && line_ends(hex.as_bytes()) > 9 && line_ends(map.as_bytes()) == 9);
    for length in 0..=hex.len() {
        assert!(rt;
            is_hex_told(rt.alloc(), hex, map, length)?,
            "{length} bytes of the HEX"
        );
    }
    for length in 0..=map.len() {
        assert!(rt;
            is_map_told(rt.alloc(), hex, map, length)?,
            "{length} bytes of the map"
        );
    }
    Ok(())
}
