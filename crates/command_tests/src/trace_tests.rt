//! Traces: what each ends in, and how many steps it takes. Events and numbers of steps were worked out by hand.

use crate::tables::check_all;
use std::test::Fail;

const ENDS: &str = "\
trace a.c a.s 1000@0@W PORTB 05$End$@a.c=void main(void){PORTB=5;}@a.s=
trace a.c a.s 0@0@@a.c=void main(void){PORTB=5;}@a.s=
# a statement begins, `=`, a byte is written, main ends
trace a.c a.s 3@0@W PORTB 05$@a.c=void main(void){PORTB=5;}@a.s=
trace a.c a.s 0000000002@0@@a.c=void main(void){PORTB=5;}@a.s=
trace a.c a.s 1000000@0@W PORTB 05$End$@a.c=void main(void){PORTB=5;}@a.s=
# refusals, behind the script
trace a.c a.s 1000@1@a.c: error 7: roots none$@a.c=@a.s=
trace a.c a.s 1000@1@a.c:1: error 5: name$@a.c=void main(void){y=1;}@a.s=
trace a.c a.s 1000@5@a.s:2: bad line$@a.c=@a.s=at 5 INTF$at 4 INTF
trace a.c a.s 1000@5@a.s:1: bad line$@a.c=void main(void){PORTB=5;}@a.s=input 5
# an undefined step, which is the third, and isn't taken
trace a.c a.s 1000@4@R x.0 00$a.c:3: undefined: division$@a.c=unsigned char x;$void main(void){$PORTB=1/x;}@a.s=
trace a.c a.s 2@0@R x.0 00$@a.c=unsigned char x;$void main(void){$PORTB=1/x;}@a.s=
trace a.c a.s 3@4@R x.0 00$a.c:3: undefined: division$@a.c=unsigned char x;$void main(void){$PORTB=1/x;}@a.s=
# words of no form
trace a.c a.s 1000001@2@usage: picc build IN OUT MAP | trace IN SCRIPT M | sim HEX MAP SCRIPT N | agree IN SCRIPT N | gen K | check HEX | build84 IN OUT MAP | sim84 HEX MAP SCRIPT N$@a.c=void main(void){PORTB=5;}@a.s=
trace a.c a.s 00000000002@2@usage: picc build IN OUT MAP | trace IN SCRIPT M | sim HEX MAP SCRIPT N | agree IN SCRIPT N | gen K | check HEX | build84 IN OUT MAP | sim84 HEX MAP SCRIPT N$@a.c=void main(void){PORTB=5;}@a.s=
trace a.c a.s -1@2@usage: picc build IN OUT MAP | trace IN SCRIPT M | sim HEX MAP SCRIPT N | agree IN SCRIPT N | gen K | check HEX | build84 IN OUT MAP | sim84 HEX MAP SCRIPT N$@a.c=void main(void){PORTB=5;}@a.s=
trace a.c a.s 1x@2@usage: picc build IN OUT MAP | trace IN SCRIPT M | sim HEX MAP SCRIPT N | agree IN SCRIPT N | gen K | check HEX | build84 IN OUT MAP | sim84 HEX MAP SCRIPT N$@a.c=void main(void){PORTB=5;}@a.s=
trace a.c a.s@2@usage: picc build IN OUT MAP | trace IN SCRIPT M | sim HEX MAP SCRIPT N | agree IN SCRIPT N | gen K | check HEX | build84 IN OUT MAP | sim84 HEX MAP SCRIPT N$@a.c=void main(void){PORTB=5;}@a.s=
trace -a.c a.s 1@2@usage: picc build IN OUT MAP | trace IN SCRIPT M | sim HEX MAP SCRIPT N | agree IN SCRIPT N | gen K | check HEX | build84 IN OUT MAP | sim84 HEX MAP SCRIPT N$@a.c=void main(void){PORTB=5;}@a.s=
# the names may be one
trace a.c a.c 1@5@a.c:1: bad line$@a.c=void main(void){PORTB=5;}@a.s=
# files that aren't there
trace a.c a.s 1000@3@cannot read a.c$@a.s=at
trace a.c a.s 1000@3@cannot read a.s$@a.c=
trace a.c a.s 1000@0@W INTCON 90$`199*W PORTB 01$`@a.c=void interrupt h(void){PORTB=1;}void main(void){INTCON=0x90;for(;;);}@a.s=at 1 INTF
trace a.c a.s 1000@0@W PORTB 05$End$@a.c=void main(void){PORTB=5;}@a.s=`4194304*$`
trace a.c a.s 1000@5@a.s:0: too long$@a.c=void main(void){PORTB=5;}@a.s=`4194305*$`
trace a.c a.s 1000@0@R PIE1 00$W PIE1 01$R INTCON 00$W INTCON 40$R INTCON 40$W INTCON C0$R PIR1 01$W PIR1 00$W PORTB 01$W PORTA 02$End$@a.c=void interrupt h(void){TMR1IF=0;PORTB=1;}void main(void){TMR1IE=1;PEIE=1;GIE=1;PORTA=2;}@a.s=at 6 TMR1IF
trace a.c a.s 1000@0@R PIE1 00$W PIE1 01$R INTCON 00$W INTCON 80$W PORTA 02$End$@a.c=void interrupt h(void){TMR1IF=0;PORTB=1;}void main(void){TMR1IE=1;GIE=1;PORTA=2;}@a.s=at 4 TMR1IF
";

#[test]
fn each_status_comes(rt: HostRuntime) -> Result<(), Fail> {
    Ok(check_all(&rt, rt.alloc(), ENDS, "", 26)?)
}

// An operator, an access to a byte, a statement and a call are a step each.
const STEPS: &str = "\
# a statement begins, `=`, a byte is written, main ends
trace a.c a.s 2@0@@a.c=void main(void){PORTB=5;}@a.s=
trace a.c a.s 3@0@W PORTB 05$@a.c=void main(void){PORTB=5;}@a.s=
trace a.c a.s 4@0@W PORTB 05$End$@a.c=void main(void){PORTB=5;}@a.s=
# the operator stands between the read and `=`
trace a.c a.s 1@0@@a.c=unsigned char x;void main(void){PORTB=x+1;}@a.s=
trace a.c a.s 2@0@R x.0 00$@a.c=unsigned char x;void main(void){PORTB=x+1;}@a.s=
trace a.c a.s 4@0@R x.0 00$@a.c=unsigned char x;void main(void){PORTB=x+1;}@a.s=
trace a.c a.s 5@0@R x.0 00$W PORTB 01$@a.c=unsigned char x;void main(void){PORTB=x+1;}@a.s=
# an element is `+` and `*`
trace a.c a.s 3@0@@a.c=unsigned char a[2];void main(void){PORTB=a[1];}@a.s=
trace a.c a.s 4@0@R a.1 00$@a.c=unsigned char a[2];void main(void){PORTB=a[1];}@a.s=
trace a.c a.s 5@0@R a.1 00$@a.c=unsigned char a[2];void main(void){PORTB=a[1];}@a.s=
trace a.c a.s 6@0@R a.1 00$W PORTB 00$@a.c=unsigned char a[2];void main(void){PORTB=a[1];}@a.s=
# an `if` and its statement
trace a.c a.s 3@0@@a.c=void main(void){if(1)PORTB=1;}@a.s=
trace a.c a.s 4@0@W PORTB 01$@a.c=void main(void){if(1)PORTB=1;}@a.s=
# a call, and the end of its body
trace a.c a.s 4@0@@a.c=void f(void){PORTB=1;}void main(void){f();}@a.s=
trace a.c a.s 5@0@W PORTB 01$@a.c=void f(void){PORTB=1;}void main(void){f();}@a.s=
trace a.c a.s 6@0@W PORTB 01$@a.c=void f(void){PORTB=1;}void main(void){f();}@a.s=
trace a.c a.s 7@0@W PORTB 01$End$@a.c=void f(void){PORTB=1;}void main(void){f();}@a.s=
# a function leaves with a value in no step of its own
trace a.c a.s 4@0@@a.c=unsigned char f(void){return 7;}void main(void){PORTB=f();}@a.s=
trace a.c a.s 5@0@W PORTB 07$@a.c=unsigned char f(void){return 7;}void main(void){PORTB=f();}@a.s=
# labels are compared up to the match
trace a.c a.s 5@0@@a.c=void main(void){switch(2){case 1:case 2:PORTB=1;}}@a.s=
trace a.c a.s 6@0@W PORTB 01$@a.c=void main(void){switch(2){case 1:case 2:PORTB=1;}}@a.s=
# a bit is read and written
trace a.c a.s 2@0@@a.c=void main(void){RB0=1;}@a.s=
trace a.c a.s 3@0@R PORTB 00$@a.c=void main(void){RB0=1;}@a.s=
trace a.c a.s 4@0@R PORTB 00$W PORTB 01$@a.c=void main(void){RB0=1;}@a.s=
# && counts at its end
trace a.c a.s 3@0@@a.c=void main(void){PORTB=1&&0;}@a.s=
trace a.c a.s 4@0@W PORTB 00$@a.c=void main(void){PORTB=1&&0;}@a.s=
# a structure is copied byte by byte
trace a.c a.s 2@0@@a.c=struct s{unsigned char a;};struct s x,y;void main(void){x=y;}@a.s=
trace a.c a.s 3@0@R y.0 00$@a.c=struct s{unsigned char a;};struct s x,y;void main(void){x=y;}@a.s=
trace a.c a.s 4@0@R y.0 00$W x.0 00$@a.c=struct s{unsigned char a;};struct s x,y;void main(void){x=y;}@a.s=
# an address and what it points to
trace a.c a.s 3@0@@a.c=unsigned char x;void main(void){PORTB=*&x;}@a.s=
trace a.c a.s 4@0@R x.0 00$@a.c=unsigned char x;void main(void){PORTB=*&x;}@a.s=
";

#[test]
fn steps_are_counted(rt: HostRuntime) -> Result<(), Fail> {
    Ok(check_all(&rt, rt.alloc(), STEPS, "", 31)?)
}
