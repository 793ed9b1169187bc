//! Builds for the second chip, and their runs on it. Words and bytes were added up by hand, and events worked out from the texts.

use crate::tables::check_all;
use std::test::Fail;

// It has the bytes from 20h to 4Fh, 1,024 words, and of the device registers TMR0, OPTION_REG, the ports A and B with their directions, and
// INTCON. The start block has 100 words and 4 for each byte of a static object; a function 4, and an assignment of a number 14.
const SECOND: &str = "\
build84 a.c a.hex a.map;sim84 a.hex a.map a.s 20000@0@W PORTB 05$End$@a.c=void main(void){PORTB=5;}@a.s=
build84 a.c a.hex a.map;sim84 a.hex a.map a.s 20000@0@R PORTB 07$R t.1 02$W TRISA 09$W PORTA FE$End$@a.c=unsigned char t[2]={1,2};void main(void){TRISA=PORTB+t[1];PORTA=~1;}@a.s=input 07
# the handler's context is kept from 0Ch on
build84 a.c a.hex a.map;sim84 a.hex a.map a.s 1000@0@W INTCON 92$W PORTB 01$R INTCON 12$W INTCON 10$W PORTA 02$End$@a.c=void interrupt h(void){PORTB=1;INTF=0;}void main(void){INTCON=0x92;PORTA=2;}@a.s=
build84 a.c a.hex a.map;sim84 a.hex a.map a.s 100000@0@W INTCON 90$W PORTB 01$R INTCON 12$W INTCON 10$@a.c=void interrupt h(void){PORTB=1;INTF=0;}void main(void){INTCON=0x90;for(;;);}@a.s=at 50000 INTF
# a flag of PIR1 does nothing there
build84 a.c a.hex a.map;sim84 a.hex a.map a.s 100000@0@W INTCON C0$@a.c=void interrupt h(void){PORTB=1;}void main(void){INTCON=0xC0;for(;;);}@a.s=at 50000 TMR1IF
# pointers, and a quotient by the helper's routine
build84 a.c a.hex a.map;sim84 a.hex a.map a.s 200000@0@R a.0 01$R a.1 02$R a.2 03$W PORTB 06$End$@a.c=unsigned char a[3]={1,2,3};void main(void){unsigned char*p;unsigned char s=0;for(p=a;p!=a+3;p++)s+=*p;PORTB=s;}@a.s=
build84 a.c a.hex a.map;sim84 a.hex a.map a.s 200000@0@W PORTB FD$W PORTA FF$End$@a.c=void main(void){int a=-7;PORTB=a/2;PORTA=a%2;}@a.s=
# a name that the text declares anew is its own
build84 a.c a.hex a.map;sim84 a.hex a.map a.s 20000@0@W PORTC.0 01$End$@a.c=unsigned char PORTC;void main(void){PORTC=1;}@a.s=
# registers that it doesn't have, by themselves and by a bit
build84 a.c a.hex a.map@1@a.c:1: error 13: register$@a.c=void main(void){PORTC=1;}
build84 a.c a.hex a.map@1@a.c:3: error 13: register$@a.c=void main(void){$PORTB=1;$RC0=1;PORTD=1;}
build84 a.c a.hex a.map@1@a.c:2: error 13: register$@a.c=void f(void){$PIE1=0;}void main(void){}
# bytes and words at the limit, and one more
build84 a.c a.hex a.map@0@@a.c=unsigned char a[48];void main(void){}
build84 a.c a.hex a.map@1@a.c: error 9: ram a$@a.c=unsigned char a[49];void main(void){}
build84 a.c a.hex a.map@1@a.c: error 9: ram a$@a.c=unsigned char a[49];void main(void){PORTC=1;}
build84 a.c a.hex a.map@0@@a.c=void main(void){`65*PORTB=5;`}
build84 a.c a.hex a.map@1@a.c: error 10: code 1028$@a.c=void main(void){`66*PORTB=5;`}
build84 a.c a.hex a.map@1@a.c: error 11: page main 1026$@a.c=void main(void){`73*PORTB=5;`}
# other refusals have the lines that they have for the first chip
build84 a.c a.hex a.map@1@a.c:1: error 5: name$@a.c=void main(void){y=1;}
build84 a.c a.hex a.map@1@a.c: error 7: roots none$@a.c=
build84 a.c a.hex a.map@3@cannot read a.c$
build84 a.c a.c a.map@2@usage: picc build IN OUT MAP | trace IN SCRIPT M | sim HEX MAP SCRIPT N | agree IN SCRIPT N | gen K | check HEX | build84 IN OUT MAP | sim84 HEX MAP SCRIPT N$@a.c=void main(void){PORTB=5;}
build84 a.c a.hex@2@usage: picc build IN OUT MAP | trace IN SCRIPT M | sim HEX MAP SCRIPT N | agree IN SCRIPT N | gen K | check HEX | build84 IN OUT MAP | sim84 HEX MAP SCRIPT N$@a.c=void main(void){PORTB=5;}
build84 -O a.c a.hex a.map@2@usage: picc build IN OUT MAP | trace IN SCRIPT M | sim HEX MAP SCRIPT N | agree IN SCRIPT N | gen K | check HEX | build84 IN OUT MAP | sim84 HEX MAP SCRIPT N$@a.c=void main(void){PORTB=5;}
build84 -R a.c a.hex a.map@2@usage: picc build IN OUT MAP | trace IN SCRIPT M | sim HEX MAP SCRIPT N | agree IN SCRIPT N | gen K | check HEX | build84 IN OUT MAP | sim84 HEX MAP SCRIPT N$@a.c=void main(void){PORTB=5;}
sim84 a.hex a.map a.s 1000001@2@usage: picc build IN OUT MAP | trace IN SCRIPT M | sim HEX MAP SCRIPT N | agree IN SCRIPT N | gen K | check HEX | build84 IN OUT MAP | sim84 HEX MAP SCRIPT N$@a.c=void main(void){PORTB=5;}
sim84 a.hex a.map a.s 1@3@cannot read a.hex$
";

#[test]
fn texts_are_built_for_the_second_chip(rt: HostRuntime) -> Result<(), Fail> {
    Ok(check_all(&rt, rt.alloc(), SECOND, "", 26)?)
}
