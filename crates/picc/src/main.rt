//! The program `picc`, which compiles C for the PIC16F877A and runs such programs.
//!
//! In: the words of the command line. Out: an exit status.
//! The promise: it is that of the top call of picc_cli, over the real files and the standard output, and over a board that
//! follows scripts. It ends with 9 where memory for one of these runs out.
#![tactic(auto)]

use host_io::RealHost;
use pic_sim::{Board, ScriptBoard};
use std::process::ExitCode;
use std::{env, io};

/// The words after the program's name.
fn words(rt: &HostRuntime) -> io::Result<Vec<String>> {
    let mut words = Vec::new(rt.alloc());
    for word in env::args(rt)?.skip(1) {
        words.push(word)?;
    }
    Ok(words)
}

fn main(rt: HostRuntime) -> ExitCode {
    let Ok(words) = words(&rt) else {
        return ExitCode::from(9);
    };
    let alloc = rt.alloc();
    let Ok(board) = Box::new(alloc, ScriptBoard::new(alloc)) else {
        return ExitCode::from(9);
    };
    let mut board: Box<dyn Board> = board;
    let mut host = RealHost::new(rt);
    ExitCode::from(picc_cli::picc(alloc, &words, &mut host, &mut board))
}
