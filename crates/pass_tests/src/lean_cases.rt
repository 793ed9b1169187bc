//! Blocks before and after the pass that makes them leaner.
//!
//! `variables` is how many bytes of variables main has, `lend` whether the frames of copies are lent, one after the other, and `lean`
//! the pass, for a handler. The other words are those of the cases beside.

use crate::cases::check;
use std::test::Fail;

/// There are one static byte, main's frame and the handler's.
const LEAN: &str = "\
case a sum that is cut has one byte: `ticks++` of an unsigned char
object 20h 1
frame main 21h 11
frame isr 30h 11
block copy.0
put movlw 1; movwf F0.0; clrf F0.1; movf S0.0 w; movwf F0.2; clrf F0.3; movf F0.0 w; addwf F0.2 f; movf F0.1 w
put btfsc STATUS 0; incfsz F0.1 w; addwf F0.3 f; movf F0.2 w; movwf S0.0; goto halt
lean none
made 0
wants movf S0.0 w; movwf F0.2; movlw 1; addwf F0.2 w; movwf S0.0; goto halt
end
case statics are written each time: Accesses of a static are events
object 20h 1
frame main 21h 11
frame isr 30h 11
block copy.0
put movlw 1; movwf S0.0; movwf S0.0; movf S0.0 w; clrf S0.0; goto halt
lean none
made 0
wants movlw 1; movwf S0.0; movwf S0.0; movf S0.0 w; clrf S0.0; goto halt
end
case what counts stays: Nor is a local variable's access left out, or a jump to a label with an even number; a temporary byte's is, and all to which nothing comes
object 20h 1
frame main 21h 11
frame isr 30h 11
variables 1
block copy.0
put movlw 1; movwf F0.0; movwf F0.0; movwf F0.1; goto L0; label L0; movf F0.0 w; goto halt; btfsc STATUS 0; goto L0
put clrf F0.1; goto halt
lean none
made 0
wants movlw 1; movwf F0.0; movwf F0.0; goto L0; label L0; movlw 1; goto halt
end
case what is read behind a jump back is stored: What is stored in a loop is read at its front
object 20h 1
frame main 21h 11
frame isr 30h 11
block copy.0
put movlw 1; movwf F0.0; label L0; movf F0.0 w; movwf S0.0; movf S0.0 w; movwf F0.0; movwf F0.1; movlw 7; movwf S0.0; goto L0
lean none
made 0
wants movlw 1; movwf F0.0; label L0; movf F0.0 w; movwf S0.0; movf S0.0 w; movwf F0.0; movlw 7; movwf S0.0; goto L0
end
case a handler stores no constant: The handler's temporaries are wanted no longer than it runs
object 20h 1
frame main 21h 11
frame isr 30h 11
block copy.0
put goto halt
block copy.1
put movlw 5; movwf F1.0; movf F1.0 w; movwf S0.0; goto restore
lean 1
made 0
wants goto halt
end
made 1
wants movlw 5; movwf S0.0; goto restore
end
case a result is in w behind a call: What a function returns is in W where it comes back, so that nobody reads the byte in which it is returned
object 20h 1
frame main 21h 11
frame isr 30h 11
frame main 40h 11
block copy.0
put call copy.2; movf M0 w; movwf S0.0; goto halt
block copy.2
put movf S0.0 w; movwf M0; return
lean none
made 0
wants call copy.2; movwf S0.0; goto halt
end
made 1
wants movf S0.0 w; return
end
case a store through fsr keeps no temporary: A store through FSR asks for no other byte
object 20h 1
frame main 21h 11
frame isr 30h 11
block copy.0
put movlw 5; movwf F0.0; movwf INDF; goto halt
lean none
made 0
wants movlw 5; movwf INDF; goto halt
end
case a zero needs no w: A byte is cleared where 0 is stored
object 20h 1
frame main 21h 11
frame isr 30h 11
block copy.0
put movlw 0; movwf S0.0; movwf S0.0; goto halt
lean none
made 0
wants clrf S0.0; clrf S0.0; goto halt
end
case a copy of a variable is not stored: Variables are read in the places of their copies
object 20h 1
frame main 21h 11
frame isr 30h 11
variables 2
block copy.0
put movf S0.0 w; movwf F0.0; movf S0.0 w; movwf F0.1; movf F0.0 w; movwf F0.3; movf F0.1 w; movwf F0.4; movf F0.3 w
put movwf S0.0; addwf F0.4 w; movwf S0.0; goto halt
lean none
made 0
wants movf S0.0 w; movwf F0.0; movf S0.0 w; movwf F0.1; movf F0.0 w; movf F0.1 w; movf F0.0 w; movwf S0.0; addwf F0.1 w
wants movwf S0.0; goto halt
end
case a comparison decides by its carry: `if (a < b)` of two bytes: the difference leaves its carry, and no 0 or 1 is made of it
object 20h 1
frame main 21h 11
frame isr 30h 11
variables 2
block copy.0
put movf F0.1 w; subwf F0.0 w; movlw 0; btfss STATUS 0; movlw 1; movwf F0.4; clrf F0.5; movf F0.4 w; iorwf F0.5 w
put btfsc STATUS 2; goto L0; movlw 7; movwf S0.0; label L0; goto halt
lean none
made 0
wants movf F0.1 w; subwf F0.0 w; btfsc STATUS 0; goto L0; movlw 7; movwf S0.0; label L0; goto halt
end
case a borrow of nothing is the carry: The same of two ints whose high bytes are 0: the borrow goes on through the high bytes
object 20h 1
frame main 21h 11
frame isr 30h 11
block copy.0
put movlw 5; movwf F0.0; movf INDF w; movwf S0.0; goto halt
lend 0
lean none
made 0
wants movf INDF w; movwf S0.0; goto halt
end
case a temporary byte is dead where fsr is read: No pointer leads to the frame, so the read doesn't reach the byte
object 20h 1
frame main 21h 11
frame isr 30h 11
block copy.0
put movlw 5; movwf F0.0; movf INDF w; movwf S0.0; goto halt
lend 0
lean none
made 0
wants movf INDF w; movwf S0.0; goto halt
end
case a byte of a lent frame is needed where fsr is read: A pointer may lead there
object 20h 1
frame main 21h 11
frame isr 30h 11
block copy.0
put movlw 5; movwf F0.0; movf INDF w; movwf S0.0; goto halt
lend 1
lean none
made 0
wants movlw 5; movwf F0.0; movf INDF w; movwf S0.0; goto halt
end
case a number stays in w: `PORTB = 3; PORTB = 3;`: the number in W is that of the second byte, which needn't be read
object 20h 1
frame main 21h 11
frame isr 30h 11
block copy.0
put movlw 3; movwf F0.0; movlw 3; movwf F0.1; movf F0.0 w; movwf S0.0; movf F0.1 w; movwf S0.0; goto halt
lean none
made 0
wants movlw 3; movwf S0.0; movwf S0.0; goto halt
end
case w is tested without a byte: `if (TMR0IF) ticks = 7;`: W is tested, and not stored for that
object 20h 1
frame main 21h 11
frame isr 30h 11
block copy.0
put movlw 0; btfsc D0Bh 2; movlw 1; movwf F0.0; movf F0.0 w; btfsc STATUS 2; goto L0; movlw 7; movwf S0.0; label L0
put goto halt
lean none
made 0
wants movlw 0; btfsc D0Bh 2; movlw 1; iorlw 0; btfsc STATUS 2; goto L0; movlw 7; movwf S0.0; label L0; goto halt
end
case a result in w sets z: `if (a ^ 5) ticks = 7;`: the result is only in W, and Z says of it what the byte would
object 20h 1
frame main 21h 11
frame isr 30h 11
variables 1
block copy.0
put movf F0.0 w; movwf F0.2; movlw 5; xorwf F0.2 f; movf F0.2 w; btfsc STATUS 2; goto L0; movlw 7; movwf S0.0; label L0
put goto halt
lean none
made 0
wants movf F0.0 w; movlw 5; xorwf F0.0 w; btfsc STATUS 2; goto L0; movlw 7; movwf S0.0; label L0; goto halt
end
case a jump to the next word goes: `TMR0IF = 0;`: of the two ways only one is gone, and no jump leads round the other one
object 20h 1
frame main 21h 11
frame isr 30h 11
block copy.0
put clrf F0.0; btfss F0.0 0; goto L3; bsf D0Bh 2; goto L2; label L3; bcf D0Bh 2; label L2; goto halt
lean none
made 0
wants label L3; bcf D0Bh 2; label L2; goto halt
end
";

#[test]
fn blocks_become_leaner(rt: HostRuntime) -> Result<(), Fail> {
    assert_eq!(rt; check(&rt, rt.alloc(), LEAN)?, (17, 58));
    Ok(())
}
