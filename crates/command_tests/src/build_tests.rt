//! Builds and refusals: the printed lines, and texts at each limit. Words of blocks and bytes of objects were added up by hand.

use crate::tables::check_all;
use std::test::Fail;

const BUILDS: &str = "\
build a.c a.hex a.map;sim a.hex a.map a.s 1000@0@W PORTB 05$End$@a.c=void main(void){PORTB=5;}@a.s=
build a.c a.hex a.map;sim a.hex a.map a.s 1000@0@End$@a.c=void main(void){}$@a.s=
# a number is cut to the byte of the register
build a.c a.hex a.map;sim a.hex a.map a.s 1000@0@W PORTB 00$End$@a.c=void main(void){PORTB=256;}@a.s=
# a number that begins with 0 is octal
build a.c a.hex a.map;sim a.hex a.map a.s 1000@0@W PORTB 05$End$@a.c=void main(void){PORTB=05;}@a.s=
build a.c a.hex a.map;sim a.hex a.map a.s 1000@0@W PORTB 05$End$@a.c=void main(void){PORTB=5;}$$@a.s=
build a.c a.hex a.map;sim a.hex a.map a.s 1000@0@End$@a.c= void main(void){}@a.s=
build a.c a.hex a.map@1@a.c: error 7: roots none$@a.c=
build a.c a.hex a.map@1@a.c: error 7: roots main$@a.c=void main(int a){}
build a.c a.hex a.map@1@a.c:1: error 2: excluded word$@a.c=float f;
build a.c a.hex a.map@1@a.c:2: error 3: bad directive$@a.c=$#pragma config X
build a.c a.hex a.map@1@a.c:1: error 4: syntax$@a.c=void main(void){PORTB=;}
build a.c a.hex a.map@1@a.c:1: error 5: name$@a.c=void main(void){y=1;}
build a.c a.hex a.map@1@a.c:1: error 1: bad token$@a.c=void main(void){PORTB=09;}
build a.c a.hex a.map@1@a.c:1: error 1: bad token$@a.c=void main(void){PORTB=4294967296;}
build a.c a.hex a.map@1@a.c:1: error 1: bad token$@a.c=/*
build a.c a.hex a.map@1@a.c:1: error 5: size$@a.c=int a[40000];
build a.c a.hex a.map@1@a.c: error 6: recursion f$@a.c=void g(void);void f(void){g();}void g(void){f();}void main(void){}
build a.c a.hex a.map@0@@a.c=unsigned char a[80],b[80],c[96],d[96];void main(void){}
build a.c a.hex a.map@1@a.c: error 9: ram x$@a.c=unsigned char a[80],b[80],c[96],d[96];unsigned char x;void main(void){}
build a.c a.hex a.map@1@a.c: error 9: ram a$@a.c=unsigned char a[97];void main(void){}
build a.c a.hex a.map@0@@a.c=void main(void){PORTB=PORTA;}
build a.c a.hex a.map@0@@a.c=void main(void){PORTB=5;}$$
build a.c a.hex a.map@3@cannot read a.c$
@2@usage: picc build IN OUT MAP | trace IN SCRIPT M | sim HEX MAP SCRIPT N | agree IN SCRIPT N | gen K | check HEX | build84 IN OUT MAP | sim84 HEX MAP SCRIPT N$@a.c=void main(void){PORTB=5;}
build a.c a.c a.map@2@usage: picc build IN OUT MAP | trace IN SCRIPT M | sim HEX MAP SCRIPT N | agree IN SCRIPT N | gen K | check HEX | build84 IN OUT MAP | sim84 HEX MAP SCRIPT N$@a.c=void main(void){PORTB=5;}
build a.c a.hex@2@usage: picc build IN OUT MAP | trace IN SCRIPT M | sim HEX MAP SCRIPT N | agree IN SCRIPT N | gen K | check HEX | build84 IN OUT MAP | sim84 HEX MAP SCRIPT N$@a.c=void main(void){PORTB=5;}
build a.c a.hex a.map b@2@usage: picc build IN OUT MAP | trace IN SCRIPT M | sim HEX MAP SCRIPT N | agree IN SCRIPT N | gen K | check HEX | build84 IN OUT MAP | sim84 HEX MAP SCRIPT N$@a.c=void main(void){PORTB=5;}
build a.c -o a.map@2@usage: picc build IN OUT MAP | trace IN SCRIPT M | sim HEX MAP SCRIPT N | agree IN SCRIPT N | gen K | check HEX | build84 IN OUT MAP | sim84 HEX MAP SCRIPT N$@a.c=void main(void){PORTB=5;}
sim a.c a.hex a.map@2@usage: picc build IN OUT MAP | trace IN SCRIPT M | sim HEX MAP SCRIPT N | agree IN SCRIPT N | gen K | check HEX | build84 IN OUT MAP | sim84 HEX MAP SCRIPT N$@a.c=void main(void){PORTB=5;}
";

#[test]
fn each_refusal_has_its_line(rt: HostRuntime) -> Result<(), Fail> {
    Ok(check_all(&rt, rt.alloc(), BUILDS, "", 29)?)
}

// The chain goes on to f8 or f9; the handler takes a word more, and a quotient of two ints is a call.
const CALLS: &str = "\
build a.c a.hex a.map@0@@a.c=void f8(void){}void f7(void){f8();}
build a.c a.hex a.map@1@a.c: error 8: depth 9$@a.c=void f9(void){}void f8(void){f9();}void f7(void){f8();}
build a.c a.hex a.map@0@@a.c=void interrupt h(void){}void f7(void){}
build a.c a.hex a.map@1@a.c: error 8: depth 9$@a.c=void interrupt h(void){}void f8(void){}void f7(void){f8();}
build a.c a.hex a.map@1@a.c: error 8: depth 9$@a.c=void f8(void){int a=1,b=1;a/b;}void f7(void){f8();}
";

/// A chain of calls from main: it calls f1, f1 calls f2, and so on to f7.
const CALLERS: &str =
    "void f6(void){f7();}void f5(void){f6();}void f4(void){f5();}void f3(void){f4();}void f2(void){f3();}void f1(void){f2();}void main(void){f1();}";

#[test]
fn calls_are_at_most_eight_deep(rt: HostRuntime) -> Result<(), Fail> {
    Ok(check_all(&rt, rt.alloc(), CALLS, CALLERS, 5)?)
}

// A function is stated at 4 words, and each assignment at 14: with 146 of them it is 2,048 words, a whole page. Of two blocks over a page
// the one is told whose function is defined first, though code has main's before the handler's. Each name a1 to a17 stands for two of the
// one before, so a16 for 65,536 times `;`.
const LIMITS: &str = "\
build a.c a.hex a.map@0@@a.c=void main(void){`146*PORTB=5;`}
build a.c a.hex a.map@1@a.c: error 11: page main 2062$@a.c=void main(void){`147*PORTB=5;`}
build a.c a.hex a.map@0@@a.c=void f(void){`146*PORTB=5;`}void main(void){f();}
build a.c a.hex a.map@1@a.c: error 11: page f 2062$@a.c=void f(void){`147*PORTB=5;`}void main(void){f();}
build a.c a.hex a.map@0@@a.c=void f(void),g(void),h(void);void main(void){f();g();h();}void f(void){`146*PORTB=5;`}void g(void){`146*PORTB=5;`}void h(void){`146*PORTB=5;`}
build a.c a.hex a.map@1@a.c: error 10: code 6266$@a.c=void f(void){`146*PORTB=5;`}void g(void){`146*PORTB=5;`}void h(void){`146*PORTB=5;`}void main(void){f();g();h();}
build a.c a.hex a.map@1@a.c: error 11: page h 2062$@a.c=void interrupt h(void){`147*PORTB=5;`}void main(void){`147*PORTB=5;`}
build a.c a.hex a.map@1@a.c: error 11: page main 2062$@a.c=void main(void){`147*PORTB=5;`}void interrupt h(void){`148*PORTB=5;`}
# a function that both roots reach stands in front of them
build a.c a.hex a.map@1@a.c: error 11: page f 2076$@a.c=void f(void){`148*PORTB=5;`}void interrupt h(void){`147*PORTB=5;`f();}void main(void){`147*PORTB=5;`f();}
build a.c a.hex a.map@0@@a.c=void main(void){}`262127* `
build a.c a.hex a.map@1@a.c:0: error 12: limit text$@a.c=void main(void){}`262128* `
build a.c a.hex a.map@0@@a.c=unsigned char `255*n`;void main(void){}
build a.c a.hex a.map@1@a.c:1: error 12: limit identifier$@a.c=unsigned char `256*n`;void main(void){}
build a.c a.hex a.map@0@@a.c=void main(void){PORTB=`63*(`1`63*)`;}
build a.c a.hex a.map@1@a.c:1: error 12: limit nesting$@a.c=void main(void){PORTB=`64*(`1`64*)`;}
build a.c a.hex a.map@1@a.c: error 11: page main 114650$@a.c=void main(void){PORTB=`4094*1+`1;}
build a.c a.hex a.map@1@a.c:1: error 12: limit run$@a.c=void main(void){PORTB=`4095*1+`1;}
build a.c a.hex a.map@1@a.c: error 11: page main 5104$@a.c=void main(void){`255*for(;;)`;}
build a.c a.hex a.map@1@a.c:1: error 4: syntax$@a.c=void main(void){`256*for(;;)`;}
build a.c a.hex a.map@0@@a.c=#define a0 ;$#define a1 a0 a0$#define a2 a1 a1$#define a3 a2 a2$#define a4 a3 a3$#define a5 a4 a4$#define a6 a5 a5$#define a7 a6 a6$#define a8 a7 a7$#define a9 a8 a8$#define a10 a9 a9$#define a11 a10 a10$#define a12 a11 a11$#define a13 a12 a12$#define a14 a13 a13$#define a15 a14 a14$#define a16 a15 a15$#define a17 a16 a16$void main(void){a16}
build a.c a.hex a.map@1@a.c:19: error 12: limit tokens$@a.c=#define a0 ;$#define a1 a0 a0$#define a2 a1 a1$#define a3 a2 a2$#define a4 a3 a3$#define a5 a4 a4$#define a6 a5 a5$#define a7 a6 a6$#define a8 a7 a7$#define a9 a8 a8$#define a10 a9 a9$#define a11 a10 a10$#define a12 a11 a11$#define a13 a12 a12$#define a14 a13 a13$#define a15 a14 a14$#define a16 a15 a15$#define a17 a16 a16$void main(void){a17}
";

#[test]
fn texts_at_the_limits(rt: HostRuntime) -> Result<(), Fail> {
    Ok(check_all(&rt, rt.alloc(), LIMITS, "", 21)?)
}
