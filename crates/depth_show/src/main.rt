//! The program `depth_show`, which prints how deep the return stack becomes under the program of a HEX file, routine by routine.
//!
//! In: the word of the command line, `depth_show HEX`. Out: on standard output, in the notation of the crate depth_lines, the certificate of
//! the image, or that there is none and the first reason with its address; or why the file gives no image, as `picc sim` says it. And an exit
//! status: 0 where there is a certificate; 2 for other words; 3 if the file can't be read or the text not be printed; 5 if it is no HEX file;
//! 7 where there is no certificate; 9 without memory. No file is created.
#![tactic(auto)]

ghost use Rattle.std.specs.Prelude.{◌≡◌};
ghost use Rattle.host_io.specs.Host.{Closed};

use depth_lines::{bad_hex_line, described, long_line};
use hex_image::{HexError, read_hex};
use host_io::{Host, HostError, RealHost, read_whole};
use host_lines::{say, say_line};
use pic_chip::Image;
use std::alloc::{AllocError, Global};
use std::process::ExitCode;
use std::{env, io};

/// The longest HEX file, in bytes.
const LIMIT: usize = 1_048_576;

fn words(rt: &HostRuntime) -> io::Result<Vec<String>> {
    let mut words = Vec::new(rt.alloc());
    for word in env::args(rt)?.skip(1) {
        words.push(word)?;
    }
    Ok(words)
}

fn is_name(word: &str) -> bool {
    match word.as_bytes() {
        [] => false,
        [first, ..] => *first != b'-',
    }
}

fn say_made<H: Host>(host: &mut H, status: u8, made: Result<Vec<u8>, AllocError>) -> u8 {
    match made {
        Ok(line) => say_line(host, status, &line),
        Err(_) => 9,
    }
}

fn show<H: Host>(alloc: Global, host: &mut H, image: &Image) -> u8 {
    match described(alloc, image) {
        Ok(shown) => say_line(host, if shown.certified { 0 } else { 7 }, &shown.text),
        Err(_) => 9,
    }
}

fn show_text<H: Host>(alloc: Global, host: &mut H, name: &str, text: &[u8]) -> u8 {
    if text.len() > LIMIT {
        return say_made(host, 5, long_line(alloc, name));
    }
    match read_hex(alloc, text) {
        Ok(image) => show(alloc, host, &image),
        Err(HexError::NoMemory) => 9,
        Err(error) => say_made(host, 5, bad_hex_line(alloc, name, &error)),
    }
}

fn usage<H: Host>(host: &mut H) -> u8 {
    say_line(host, 2, b"usage: depth_show HEX\n")
}

fn run<H: Host>(alloc: Global, host: &mut H, words: &[String]) -> u8
    requires { H.open_file host.old ≡ Closed }
{
    let [name] = words else {
        return usage(host);
    };
    if !is_name(name) {
        return usage(host);
    }
    match read_whole(alloc, host, name, LIMIT) {
        Ok(text) => show_text(alloc, host, name, &text),
        Err(HostError::Failed) => say(host, 3, "cannot read ", name, "\n"),
        Err(HostError::NoMemory) => 9,
    }
}

fn main(rt: HostRuntime) -> ExitCode {
    let Ok(words) = words(&rt) else {
        return ExitCode::from(9);
    };
    let alloc = rt.alloc();
    let mut host = RealHost::new(rt);
    ExitCode::from(run(alloc, &mut host, &words))
}
