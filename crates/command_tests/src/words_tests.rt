//! Words and the commands that they ask for. The bars stand between the words.

use picc_cli::command::{Command, command_of};
use std::alloc::{AllocError, Global};
use std::test::Fail as Failure;

// Words, and behind `=` what they ask for, or `none`.
const ASKED: &str = "\
build|a.c|a.hex|a.map=build|a.c|a.hex|a.map
build|build|help|gen=build|build|help|gen
trace|a.c|a.c|0=trace|a.c|a.c|0
trace|a.c|s|1000000=trace|a.c|s|1000000
trace|a.c|s|0000000007=trace|a.c|s|7
sim|h|m|s|1000000=sim|h|m|s|1000000
sim|x|x|x|0=sim|x|x|x|0
agree|a.c|s|100000=agree|a.c|s|100000
agree|a.c|s|0=agree|a.c|s|0
gen|1=gen|1
gen|0000000064=gen|64
check|a.hex=check|a.hex
check|check=check|check
=none
help=none
help|build=none
--help=none
-h=none
--version=none
-V=none
build|-h=none
build|--help=none
BUILD|a|b|c=none
buil|a|b|c=none
b|a|b|c=none
a|build|a|b|c=none
build=none
build|a|b=none
build|a|b|c|d=none
build||b|c=none
build|a|b|=none
build|-a|b|c=none
build|a|b|-=none
build|--|a|b=none
--|build|a|b|c=none
build|a|b|c|--=none
build|a|a|c=none
build|a|b|a=none
build|a|b|b=none
trace|a|s=none
trace|a|s|=none
trace|a|s|-1=none
trace|a|s|+1=none
trace|a|s|1x=none
trace|a|s|0x1=none
trace|a|s|1 =none
trace|a|s|1000001=none
trace|a|s|00000000001=none
trace|a|s|1|2=none
sim|h|m|s=none
sim|h|m|s|1000001=none
sim|h|m|s|n=none
sim|h|m|s|1|2=none
agree|a|s=none
agree|a|s|100001=none
agree|a|s|4294967296=none
gen=none
gen|0=none
gen|65=none
gen|1|2=none
gen|00000000001=none
gen|k=none
check=none
check||=none
check|a|b=none
check|-a=none
CHECK|a=none
";

fn words_between_bars(alloc: Global, line: &str) -> Result<Vec<String>, AllocError> {
    let mut words = Vec::new(alloc);
    for word in line.split('|') {
        words.push(String::from_str(alloc, word)?)?;
    }
    Ok(words)
}

/// What a command asks for, as words with bars between them.
fn shown(alloc: Global, command: Option<Command<'_>>) -> Result<String, AllocError> {
    match command {
        Some(Command::Build(files)) => {
            format!(in alloc; "build|{}|{}|{}", files.input, files.output, files.map)
        }
        Some(Command::Trace(asked)) => {
            format!(in alloc; "trace|{}|{}|{}", asked.input, asked.script, asked.steps)
        }
        Some(Command::Simulate(asked)) => {
            format!(in alloc;
                "sim|{}|{}|{}|{}",
                asked.hex, asked.map, asked.script, asked.instructions
            )
        }
        Some(Command::Agree(asked)) => {
            format!(in alloc;
                "agree|{}|{}|{}",
                asked.input, asked.script, asked.instructions
            )
        }
        Some(Command::Generate(size)) => format!(in alloc; "gen|{size}"),
        Some(Command::Check(hex)) => format!(in alloc; "check|{hex}"),
        None => String::from_str(alloc, "none"),
    }
}

// Whether the words of a line ask for what stands behind them.
fn is_asked(alloc: Global, line: &str) -> Result<bool, AllocError> {
    let (words, wanted) = line.split_once('=').unwrap_or((line, ""));
    let words = words_between_bars(alloc, words)?;
    let text = shown(alloc, command_of(alloc, &words)?)?;
    Ok(text.as_str() == wanted)
}

// Whether no words ask for nothing.
fn is_nothing_asked(alloc: Global) -> Result<bool, AllocError> {
    let none = Vec::new(alloc);
    Ok(command_of(alloc, &none)?.is_none())
}

#[test]
fn each_form_and_no_other_is_read(rt: HostRuntime) -> Result<(), Failure> {
    assert!(rt; is_nothing_asked(rt.alloc())?, "no words");
    let mut count: u32 = 0;
    for line in ASKED.lines() {
        assert!(rt; is_asked(rt.alloc(), line)?, "{line}");
        count = count.saturating_add(1);
    }
    assert!(rt; count == 67, "{count} cases");
    Ok(())
}
