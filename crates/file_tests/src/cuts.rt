//! Each file, cut off after each of its bytes: what a reader answers follows from the line in which the cut lies.

use hex_image::{HexError, read_hex};
use pic_map::{MapError, read_map};
use schedule::{ScriptError, read_script};
use std::alloc::{AllocError, Global};
use std::test::Fail;

/// The texts here are short.
const LONGEST: usize = 65_536;

#[derive(Clone, Copy)]
enum Kind {
    Hex,
    Map,
    Script,
}

/// What a reader says of a text.
#[derive(Clone, Copy, PartialEq, Eq)]
enum Answer {
    Read,
    BadLine(u32),
    NoEnd,
    Other,
}

/// A text cut off in the line of this number, counted from 1, after `part` of it.
#[derive(Clone, Copy)]
struct Cut<'a> {
    number: u32,
    line: &'a [u8],
    part: &'a [u8],
    is_last: bool,
}

fn hex_answer(alloc: Global, text: &[u8]) -> Answer {
    if text.len() > LONGEST {
        return Answer::Other;
    }
    match read_hex(alloc, text) {
        Ok(_) => Answer::Read,
        Err(HexError::BadRecord { line }) => Answer::BadLine(line),
        Err(HexError::NoEnd) => Answer::NoEnd,
        Err(_) => Answer::Other,
    }
}

fn map_answer(alloc: Global, text: &[u8]) -> Answer {
    if text.len() > LONGEST {
        return Answer::Other;
    }
    match read_map(alloc, text) {
        Ok(_) => Answer::Read,
        Err(MapError::BadLine { line }) => Answer::BadLine(line),
        Err(MapError::NoMemory) => Answer::Other,
    }
}

fn script_answer(alloc: Global, text: &[u8]) -> Answer {
    if text.len() > LONGEST {
        return Answer::Other;
    }
    match read_script(alloc, text) {
        Ok(_) => Answer::Read,
        Err(ScriptError::BadLine { line }) => Answer::BadLine(line),
        Err(ScriptError::NoMemory) => Answer::Other,
    }
}

fn answer_to(alloc: Global, kind: Kind, text: &[u8]) -> Answer {
    match kind {
        Kind::Hex => hex_answer(alloc, text),
        Kind::Map => map_answer(alloc, text),
        Kind::Script => script_answer(alloc, text),
    }
}

// A record is whole or bad, and without the last one there is no end.
fn hex_wanted(cut: Cut<'_>) -> Answer {
    if cut.part.is_empty() {
        Answer::NoEnd
    } else if cut.part != cut.line {
        Answer::BadLine(cut.number)
    } else if cut.is_last {
        Answer::Read
    } else {
        Answer::NoEnd
    }
}

fn script_wanted(cut: Cut<'_>) -> Answer {
    if cut.part.is_empty() || cut.part == cut.line {
        Answer::Read
    } else {
        Answer::BadLine(cut.number)
    }
}

fn spaces(text: &[u8]) -> u32 {
    let mut count: u32 = 0;
    for byte in text {
        if *byte == b' ' {
            count = count.saturating_add(1);
        }
    }
    count
}

// An object's or a frame's line of which digits of the size are left is one too.
fn is_line_still(cut: Cut<'_>) -> bool {
    let [first, ..] = cut.line else {
        return false;
    };
    let [.., last] = cut.part else {
        return false;
    };
    matches!(*first, b's' | b'c' | b'f')
        && spaces(cut.part) == spaces(cut.line)
        && last.is_ascii_digit()
}

// The line behind the last one is the one that is missing.
fn map_wanted(cut: Cut<'_>) -> Answer {
    if cut.is_last && cut.part == cut.line {
        Answer::Read
    } else if cut.part == cut.line || is_line_still(cut) {
        Answer::BadLine(cut.number.saturating_add(1))
    } else {
        Answer::BadLine(cut.number)
    }
}

fn wanted(kind: Kind, cut: Cut<'_>) -> Answer {
    match kind {
        Kind::Hex => hex_wanted(cut),
        Kind::Map => map_wanted(cut),
        Kind::Script => script_wanted(cut),
    }
}

// How many cuts of a line are answered otherwise. The line stands behind so many bytes of the text.
fn wrong_in_line(
    alloc: Global,
    kind: Kind,
    text: &[u8],
    before: usize,
    number: u32,
    line: &[u8],
) -> usize {
    let mut wrong: usize = 0;
    for length in 0..=line.len() {
        let (Some(front), Some(part)) = (
            text.get(..before.saturating_add(length)),
            line.get(..length),
        ) else {
            return usize::MAX;
        };
        let cut = Cut {
            number,
            line,
            part,
            is_last: before.saturating_add(line.len()).saturating_add(1) == text.len(),
        };
        if answer_to(alloc, kind, front) != wanted(kind, cut) {
            wrong = wrong.saturating_add(1);
        }
    }
    wrong
}

// How many cuts of a text, each of whose lines ends with LF, are answered otherwise.
fn wrong_cuts(alloc: Global, kind: Kind, whole: &str) -> usize {
    let text = whole.as_bytes();
    let mut wrong: usize = 0;
    let mut before: usize = 0;
    let mut number: u32 = 0;
    for line in whole.lines() {
        let line = line.as_bytes();
        number = number.saturating_add(1);
        wrong = wrong.saturating_add(wrong_in_line(alloc, kind, text, before, number, line));
        before = before.saturating_add(line.len()).saturating_add(1);
    }
    if answer_to(alloc, kind, text) != Answer::Read {
        wrong = wrong.saturating_add(1);
    }
    wrong
}

const SHORT_HEX: &str = ":020000040000FA\n:020000000528D1\n:00000001FF\n";

const SHORT_MAP: &str = "picc map 1\nmain 0005\nhalt 0006\nend\n";

/// The image and the map that were made of a text whose map has objects and frames of several kinds:
/// `const unsigned char t[12]={7};struct s{int a;char b;};struct s n[20];unsigned char last;void interrupt tick(void){if(TMR0IF)
/// {TMR0IF=0;n[0].a++;}}int half(int x){return x/2;}void main(void){GIE=1;for(;;){last=half(n[1].a);PORTB=last;}}`
const KEYS_HEX: &str = "\
:020000040000FA
:100000000A128A1117280000F800030EF9000408EC
:10001000FA000A08FB000A128A11662B7B088A0084
:100020007A088400790E8300F80E780E09000730F4
:1000300003138312A000A101A201A301A401A50141
:10004000A601A701A801A901AA01AB01AC01AD015C
:10005000AE01AF01B001B101B201B301B401B5010C
:10006000B601B701B801B901BA01BB01BC01BD01BC
:10007000BE01BF01C001C101C201C301C401C5016C
:10008000C601C701C801C901CA01CB01CC01CD011C
:10009000CE01CF01D001D101D201D301D401D501CC
:1000A000D601D701D801D901DA01DB01DC01DD017C
:1000B000DE01DF01E001E101E201E301E401E5012C
:1000C000E601E701E8010A128A11E4290A128A11FD
:1000D0006628FF3FFF3FFF3FFF3FFF3FFF3FFF3FE0
:10031000280829082808B2002908B300B501B2222C
:100320007008AA007108AB002A08F0002B08F10041
:100330000800FF3FFF3FFF3FFF3FFF3FFF3FFF3F03
:1003C000FF3FFF3FFF3FFF3F0130F0008B170A1256
:1003D0008A11EA292C3003138316A0000030A100F3
:1003E0000130A400A5010130A4070030031801303A
:1003F000A5070130A407003003180130A50703301A
:10040000A00725080318250FA107200884008313DF
:10041000211883170008A200840A0008A3002208FC
:10042000A0002308A1002008A8002108A900882115
:100430007008A00020088312E80068088600EA29F6
:100440006628FF3FFF3FFF3FFF3FFF3FFF3FFF3F6C
:10056000FF3FFF3F3308B900B31FBB2AB209B309ED
:10057000B20A0319B30AB51FBD2AB601B70110307C
:10058000B800B20DB30DB60DB70D0318CF2A023067
:1005900036020030031C01303702031CD62A023019
:1005A000B6020030031C0130B7020314B80BC12A95
:1005B000B20DB30DB91FE12AB209B309B20A03198A
:1005C000B30A3208F0003308F1000800FF3FFF3F94
:1006C000FF3FFF3FFF3FFF3FFF3FFF3F00300B1962
:1006D000013000380A128A110319A12B0B112C309A
:1006E00003138316BA000030BB000030BE01BF0107
:1006F000BE0703180130BF070030BE0703180130E2
:10070000BF070030BA073F0803183F0FBB073A087E
:10071000840083133B1883170008BE00840A000876
:10072000BF000130BE07003003180130BF073A0890
:10073000840083133B1883173E088000840A3F0817
:1007400080000E28FF3FFF3FFF3FFF3FFF3FFF3F7F
:00000001FF
";

const KEYS_MAP: &str = "\
picc map 1
main 01E4
halt 0066
const t 0020 12
static n 002C 60
static last 0068 1
frame main main 00A0 8
frame main half 00A8 10
frame main $divs2 00B2 8
frame isr tick 00BA 14
end
";

// Forty arrivals.
fn ticks(alloc: Global) -> Result<String, AllocError> {
    let mut text = String::new(alloc);
    for number in 1..=40u32 {
        let line = format!(in alloc; "at {} TMR0IF\n", number.saturating_mul(500))?;
        text.push_str(&line)?;
    }
    Ok(text)
}

#[test]
fn files_cut_anywhere_are_read_or_told_at_their_line(rt: HostRuntime) -> Result<(), Fail> {
    let alloc = rt.alloc();
    let script = ticks(alloc)?;
    for (kind, text) in [
        (Kind::Hex, SHORT_HEX),
        (Kind::Map, SHORT_MAP),
        (Kind::Script, script.as_str()),
        (Kind::Hex, KEYS_HEX),
        (Kind::Map, KEYS_MAP),
    ] {
        assert!(rt; wrong_cuts(alloc, kind, text) == 0, "{text}");
    }
    Ok(())
}
