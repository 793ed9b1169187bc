//! The commands that run the chip. The texts were written out by hand from the instruction table, the formats and the sizes that are
//! stated.

ghost use Rattle.std.specs.Prelude.{[], None};

use crate::tables::check_all;
use command_cases::{host_of, words_of};
use pic_sim::Board;
use pic_world::Script;
use picc_cli::picc;
use std::alloc::{AllocError, Global};
use std::test::Fail;

// The first HEX writes 5 to PORTB. 0000: GOTO 5; 0004: RETFIE; 0005: MOVLW 05; BCF STATUS,RP0; MOVWF PORTB; GOTO 8. Others have SLEEP as their
// first word, or for the jump behind the end.
const RUNS: &str = "\
sim a.hex a.map a.s 1000@0@W PORTB 05$End$@a.hex=:020000040000FA$:100000000528FF3FFF3FFF3F0900053083128600B0$:100010000828FF3FFF3FFF3FFF3FFF3FFF3FFF3FFE$:00000001FF$
sim a.hex a.map a.s 0@0@@a.hex=:020000040000FA$:100000000528FF3FFF3FFF3F0900053083128600B0$:100010000828FF3FFF3FFF3FFF3FFF3FFF3FFF3FFE$:00000001FF$
# the jump from reset, and two instructions of main
sim a.hex a.map a.s 3@0@@a.hex=:020000040000FA$:100000000528FF3FFF3FFF3F0900053083128600B0$:100010000828FF3FFF3FFF3FFF3FFF3FFF3FFF3FFE$:00000001FF$
sim a.hex a.map a.s 4@0@W PORTB 05$End$@a.hex=:020000040000FA$:100000000528FF3FFF3FFF3F0900053083128600B0$:100010000828FF3FFF3FFF3FFF3FFF3FFF3FFF3FFE$:00000001FF$
sim a.hex a.map a.s 1000001@2@usage: picc build IN OUT MAP | trace IN SCRIPT M | sim HEX MAP SCRIPT N | agree IN SCRIPT N | gen K | check HEX | build84 IN OUT MAP | sim84 HEX MAP SCRIPT N$@a.hex=:020000040000FA$:100000000528FF3FFF3FFF3F0900053083128600B0$:100010000828FF3FFF3FFF3FFF3FFF3FFF3FFF3FFE$:00000001FF$
sim a.hex a.map a.s 1000@6@unmodelled 0000$@a.hex=:0200000063009B$:00000001FF$
sim a.hex a.map a.s 1@6@unmodelled 0000$@a.hex=:0200000063009B$:00000001FF$
sim a.hex a.map a.s 0@0@@a.hex=:0200000063009B$:00000001FF$
sim a.hex a.map a.s 1000@6@W PORTB 05$End$unmodelled 0008$@a.hex=:100000000528FF3FFF3FFF3F0900053083128600B0$:100010006300FF3FFF3FFF3FFF3FFF3FFF3FFF3FCB$:00000001FF$
# the same on the second chip, which has each of these instructions
sim84 a.hex a.map a.s 20000@0@W PORTB 05$End$@a.hex=:020000040000FA$:100000000528FF3FFF3FFF3F0900053083128600B0$:100010000828FF3FFF3FFF3FFF3FFF3FFF3FFF3FFE$:00000001FF$
sim84 a.hex a.map a.s 1000@6@unmodelled 0000$@a.hex=:0200000063009B$:00000001FF$
# each check of a HEX file
sim a.hex a.map a.s 1000@5@a.hex:1: checksum FE, wanted FF$@a.hex=:00000001FE
sim a.hex a.map a.s 1000@5@a.hex:1: type 02$@a.hex=:00000002FE
sim a.hex a.map a.s 1000@5@a.hex:2: bad record$@a.hex=$:0100000100FE
sim a.hex a.map a.s 1000@5@a.hex:2: outside 00010000$@a.hex=:020000040001F9$:0100000000FF
sim a.hex a.map a.s 1000@5@a.hex:2: twice 00000000$@a.hex=:0100000000FF$:0100000000FF
sim a.hex a.map a.s 1000@5@a.hex:0: no end$@a.hex=
";

// The map of that HEX, an empty script, and the same in C.
const BESIDE: &str =
    "@a.map=picc map 1$main 0005$halt 0008$frame main main 0020 3$end$@a.s=@a.c=void main(void){PORTB=5;}";

#[test]
fn runs_print_events_or_where_a_file_is_wrong(rt: HostRuntime) -> Result<(), Fail> {
    Ok(check_all(&rt, rt.alloc(), RUNS, BESIDE, 17)?)
}

// The first file in the order of the words that is wanting or wrong ends the command.
const FILES: &str = "\
sim a.hex a.map a.s 1000@3@cannot read a.hex$@a.c=void main(void){PORTB=5;}@a.map=x@a.s=x
sim a.hex a.map a.s 1000@5@a.hex:1: bad record$@a.c=void main(void){PORTB=5;}@a.hex=:@a.s=
sim a.hex a.map a.s 1000@3@cannot read a.map$@a.c=void main(void){PORTB=5;}@a.hex=:020000040000FA$:100000000528FF3FFF3FFF3F0900053083128600B0$:100010000828FF3FFF3FFF3FFF3FFF3FFF3FFF3FFE$:00000001FF$@a.s=x
sim a.hex a.map a.s 1000@5@a.map:2: bad line$@a.c=void main(void){PORTB=5;}@a.hex=:020000040000FA$:100000000528FF3FFF3FFF3F0900053083128600B0$:100010000828FF3FFF3FFF3FFF3FFF3FFF3FFF3FFE$:00000001FF$@a.map=picc map 1$main 2000$@a.s=x
sim a.hex a.map a.s 1000@5@a.s:2: bad line$@a.c=void main(void){PORTB=5;}@a.hex=:020000040000FA$:100000000528FF3FFF3FFF3F0900053083128600B0$:100010000828FF3FFF3FFF3FFF3FFF3FFF3FFF3FFE$:00000001FF$@a.map=picc map 1$main 0005$halt 0008$frame main main 0020 3$end$@a.s=$input 5
agree a.c a.s 1000@0@agree 2$@a.c=void main(void){PORTB=5;}@a.s=
agree a.c a.s 0@0@agree 0$@a.c=void main(void){PORTB=5;}@a.s=
agree a.c a.s 1000@5@a.s:1: bad line$@a.c=void main(void){PORTB=5;}@a.s=at 1 GIE
agree b.c a.s 1@3@cannot read b.c$@a.c=void main(void){PORTB=5;}@a.s=at 1 GIE
agree a.c a.s 1000@1@a.c: error 7: roots none$@a.c=@a.s=
agree a.c a.s 1000@4@a.c:3: undefined: division$@a.c=unsigned char x;$void main(void){$PORTB=1/x;}@a.s=
sim a.hex a.map a.s 3@0@End$@a.hex=:020000040000FA$:020000000528D1$:00000001FF$`1048532*$`@a.map=picc map 1$main 0005$halt 0006$end$@a.s=
sim a.hex a.map a.s 3@5@a.hex:0: too long$@a.hex=:020000040000FA$:020000000528D1$:00000001FF$`1048533*$`@a.map=picc map 1$main 0005$halt 0006$end$@a.s=
# nothing may follow the end of a map
sim a.hex a.map a.s 3@5@a.map:5: bad line$@a.hex=:020000040000FA$:020000000528D1$:00000001FF$@a.map=picc map 1$main 0005$halt 0006$end$`262109*$`@a.s=
sim a.hex a.map a.s 3@5@a.map:0: too long$@a.hex=:020000040000FA$:020000000528D1$:00000001FF$@a.map=picc map 1$main 0005$halt 0006$end$`262110*$`@a.s=
sim a.hex a.map a.s 3@0@End$@a.hex=:020000040000FA$:020000000528D1$:00000001FF$@a.map=picc map 1$main 0005$halt 0006$end$@a.s=`4194304*$`
sim a.hex a.map a.s 3@5@a.s:0: too long$@a.hex=:020000040000FA$:020000000528D1$:00000001FF$@a.map=picc map 1$main 0005$halt 0006$end$@a.s=`4194305*$`
gen 2@0@unsigned char s;$unsigned char f0(unsigned char x){return x+0;}$unsigned char f1(unsigned char x){return x+1;}$void main(void){unsigned char x;$x=PORTB;$x=f0(x);$x=f1(x);$PORTC=x;$}$/* gen 2: words 316 ram 14 depth 1 */$
check a.hex@3@cannot read a.hex$@a.c=void main(void){PORTB=5;}
check a.hex@5@a.hex:2: checksum 00, wanted C9$@a.hex=:020000040000FA$:02000000053000$:00000001FF$
check a.hex@5@a.hex:1: type 02$@a.hex=:00000002FE
check a.hex@5@a.hex:1: bad record$@a.hex=:0100000100FE
check a.hex@5@a.hex:2: outside 00010000$@a.hex=:020000040001F9$:0100000000FF
check a.hex@5@a.hex:2: twice 00000000$@a.hex=:0100000000FF$:0100000000FF
check a.hex@5@a.hex:0: no end$@a.hex=
check a.hex@0@depth 0$@a.hex=:020000040000FA$:020000000528D1$:00000001FF$`1048532*$`
check a.hex@5@a.hex:0: too long$@a.hex=:020000040000FA$:020000000528D1$:00000001FF$`1048533*$`
";

#[test]
fn files_in_the_order_of_the_words(rt: HostRuntime) -> Result<(), Fail> {
    Ok(check_all(&rt, rt.alloc(), FILES, "", 27)?)
}

// GOTO 5 at 0000h, and all else erased: the chip then goes through ADDLW FFh. The depths of other images follow from the rules of a
// certificate (crates/depth_check/specs/Valid.antt).
const HOSTILE: &str = "\
sim a.hex a.map a.s 3@0@End$@a.hex=:020000040000FA$:020000000528D1$:00000001FF$@a.map=picc map 1$main 0005$halt 0006$end$@a.s=
# the bytes 02, 05 and 30 need C9 to make the sum 0
sim a.hex a.map a.s 3@5@a.hex:2: checksum 00, wanted C9$@a.hex=:020000040000FA$:02000000053000$:00000001FF$@a.map=picc map 1$main 0005$halt 0006$end$@a.s=
sim a.hex a.map a.s 3@5@a.hex:0: no end$@a.hex=:020000040000FA$:020000000528D1$@a.map=picc map 1$main 0005$halt 0006$end$@a.s=
sim a.hex a.map a.s 3@5@a.hex:1: bad record$@a.hex=:0100000100FE@a.map=picc map 1$main 0005$halt 0006$end$@a.s=
sim a.hex a.map a.s 3@5@a.hex:1: bad record$@a.hex=:@a.map=picc map 1$main 0005$halt 0006$end$@a.s=
# the configuration word alone
sim a.hex a.map a.s 3@0@@a.hex=:02400E00F23F7F$:00000001FF@a.map=picc map 1$main 0005$halt 0006$end$@a.s=
sim a.hex a.map a.s 3@5@a.map:4: bad line$@a.hex=:020000040000FA$:020000000528D1$:00000001FF$@a.map=picc map 1$main 0005$halt 0006$@a.s=
sim a.hex a.map a.s 3@5@a.map:1: bad line$@a.hex=:020000040000FA$:020000000528D1$:00000001FF$@a.map=@a.s=
sim a.hex a.map a.s 3@0@End$@a.hex=:020000040000FA$:020000000528D1$:00000001FF$@a.map=picc map 1$main 0005$halt 0006$end$@a.s=at 4294967295 INTF
sim a.hex a.map a.s 3@5@a.s:1: bad line$@a.hex=:020000040000FA$:020000000528D1$:00000001FF$@a.map=picc map 1$main 0005$halt 0006$end$@a.s=at 4294967296 INTF
sim a.hex a.map a.s 3@5@a.s:1: bad line$@a.hex=:020000040000FA$:020000000528D1$:00000001FF$@a.map=picc map 1$main 0005$halt 0006$end$@a.s=input 5
sim a.hex a.map a.s 3@5@a.s:1: bad line$@a.hex=:020000040000FA$:020000000528D1$:00000001FF$@a.map=picc map 1$main 0005$halt 0006$end$@a.s=at 1 GIE
sim a.hex a.map a.s 3@0@End$@a.hex=:020000040000FA$:020000000528D1$:00000001FF$@a.map=picc map 1$main 0005$halt 0006$end$@a.s=input
sim a.hex a.map a.s 3@5@a.s:2: bad line$@a.hex=:020000040000FA$:020000000528D1$:00000001FF$@a.map=picc map 1$main 0005$halt 0006$end$@a.s=at 5 INTF$at 4 INTF
# the words that the check of the return stack can follow, and how deep they go: a jump alone; SLEEP
check a.hex@0@depth 0$@a.hex=:020000040000FA$:020000000528D1$:00000001FF$
check a.hex@0@depth 0$@a.hex=:0200000063009B$:00000001FF$
# CALL 2, where RETURN is; and eight such calls within one another, where nine are too many
check a.hex@0@depth 1$@a.hex=:06000000022001280800A7$:00000001FF$
check a.hex@0@depth 8$@a.hex=:10000000022001280420080006200800082008001B$:100010000A2008000C2008000E200800102008000C$:020020000800D6$:00000001FF$
check a.hex@7@no certificate$@a.hex=:10000000022001280420080006200800082008001B$:100010000A2008000C2008000E200800102008000C$:0600200012200800080098$:00000001FF$
# GIE is set, and RETFIE stands at 0004: the interrupt takes one word, so seven calls are the most beside it
check a.hex@0@depth 1$@a.hex=:040000008B17012831$:020008000900ED$:00000001FF$
check a.hex@0@depth 8$@a.hex=:040000008B17102822$:020008000900ED$:1000200012201128142008001620080018200800AB$:0E0030001A2008001C2008001E2008000800EE$:00000001FF$
check a.hex@7@no certificate$@a.hex=:040000008B17102822$:020008000900ED$:1000200012201128142008001620080018200800AB$:100030001A2008001C2008001E20080020200800AC$:020040000800B6$:00000001FF$
# the handler keeps PCLATH in 70h, and calls; without that PCLATH is lost
check a.hex@0@depth 2$@a.hex=:040000008B17012831$:0E0008000A08F0008A010B2070088A00090027$:020016000800E0$:00000001FF$
check a.hex@7@no certificate$@a.hex=:040000008B17012831$:040008008A01090060$:00000001FF$
# a jump to page 1 and back; and one by a page that is not known
check a.hex@0@depth 0$@a.hex=:040000008A15002835$:041000008A11002829$:00000001FF$
check a.hex@7@no certificate$@a.hex=:040000008A0000284A$:00000001FF$
# CALL 0 at 0; RETURN; INTCON without a handler; writes of INDF and of PCL
check a.hex@7@no certificate$@a.hex=:020000000020DE$:00000001FF$
check a.hex@7@no certificate$@a.hex=:020000000800F6$:00000001FF$
check a.hex@7@no certificate$@a.hex=:040000000B110128B7$:00000001FF$
check a.hex@7@no certificate$@a.hex=:0200000080017D$:00000001FF$
check a.hex@7@no certificate$@a.hex=:02000000820775$:00000001FF$
";

const TEXT: &str = "@a.c=void main(void){PORTB=5;}";

#[test]
fn hostile_files_are_read_or_told_at_their_line(rt: HostRuntime) -> Result<(), Fail> {
    Ok(check_all(&rt, rt.alloc(), HOSTILE, TEXT, 31)?)
}

/// A board that answers nothing.
#[derive(Drop)]
struct Silent;

impl Board for Silent {
    ghost lists = { λ board. record { given = []; taken = []; raised = [] } };

    ghost follows = { λ board. None };

    ghost room = { λ board. 0 };

    fn feed(&mut self, _script: &Script) -> Result<(), AllocError> {
        Ok(())
    }

    fn tick(&mut self, _t: u64) -> Result<u16, AllocError> {
        Err(AllocError)
    }

    fn read(&mut self, _register: u8) -> Result<u8, AllocError> {
        Err(AllocError)
    }

    fn write(&mut self, _register: u8, _value: u8) -> Result<(), AllocError> {
        Err(AllocError)
    }
}

// The status of a simulation over that board, and whether nothing is printed.
fn silent_run(alloc: Global, command: &str) -> Result<(u8, bool), AllocError> {
    let files =
        "a.hex=:020000040000FA$:100000000528FF3FFF3FFF3F0900053083128600B0$:100010000828FF3FFF3FFF3FFF3FFF3FFF3FFF3FFE$:00000001FF$@a.map=picc map 1$main 0005$halt 0008$frame main main 0020 3$end$@a.s=";
    let words = words_of(alloc, command)?;
    let mut host = host_of(alloc, files, Vec::new(alloc))?;
    let mut board: Box<dyn Board> = Box::new(alloc, Silent)?;
    let status = picc(alloc, &words, &mut host, &mut board);
    Ok((status, host.printed.is_empty()))
}

#[test]
fn a_board_that_refuses_ends_a_run_without_a_line(rt: HostRuntime) -> Result<(), Fail> {
    let (status, is_silent) = silent_run(rt.alloc(), "sim a.hex a.map a.s 1000")?;
    assert!(rt; status == 9 && is_silent, "a run");
    let (status, is_silent) = silent_run(rt.alloc(), "sim a.hex a.map a.s 0")?;
    assert!(rt; status == 0 && is_silent, "no instruction");
    Ok(())
}
