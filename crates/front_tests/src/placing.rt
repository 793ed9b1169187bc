//! Programs whose copies, depths, sizes and addresses were worked out by hand from the tables of sizes.

use crate::answers::{Question, checked, says};
use crate::typed_trees::KEYPAD;
use std::test::Fail;

const SIZES: &str = r#"// Many statements.
2158 words, 2048 in a block, 3 bytes, depth 1 => void f(void){`146*PORTB=5;`}void main(void){f();}
2172 words, 2062 in a block, 3 bytes, depth 1 => void f(void){`147*PORTB=5;`}void main(void){f();}
114750 words, 114650 in a block, 8 bytes, depth 0 => void main(void){PORTB=1`4094*+1`;}
5204 words, 5104 in a block, 0 bytes, depth 0 => void main(void){`255*for(;;)`;}
// Many functions.
316 words, 88 in a block, 14 bytes, depth 1 => unsigned char s;$`2*unsigned char f@(unsigned char x){return x+@;}$`void main(void){unsigned char x;$x=PORTB;$`2*x=f@(x);$`PORTC=x;$}$
6020 words, 1948 in a block, 14 bytes, depth 1 => unsigned char s;$`64*unsigned char f@(unsigned char x){return x+@;}$`void main(void){unsigned char x;$x=PORTB;$`64*x=f@(x);$`PORTC=x;$}$
// Without roots, with a recursion, and at the end of data memory.
roots: none => `0*;`
recursion: f => void g(void);void f(void){g();}void g(void){f();}void main(void){}
1512 words, 4 in a block, 352 bytes, depth 0 => unsigned char a[80],b[80],c[96],d[96];void main(void){}
no address: x => unsigned char a[80],b[80],c[96],d[96];unsigned char x;void main(void){}
no address: a => unsigned char a[97];void main(void){}"#;

#[test]
fn sizes_are_as_stated(rt: HostRuntime) -> Result<(), Fail> {
    assert_eq!(rt; checked(&rt, rt.alloc(), Question::Sizes, SIZES)?, 11);
    Ok(())
}

// Chains of calls, with a handler, and with a division, which is a call of a helper.
const DEPTHS: &str =
    r#"8 => void f8(void){}void f7(void){f8();}void f6(void){f7();}void f5(void){f6();}void f4(void){f5();}void f3(void){f4();}void f2(void){f3();}void f1(void){f2();}void main(void){f1();}
over 9 => void f9(void){}void f8(void){f9();}void f7(void){f8();}void f6(void){f7();}void f5(void){f6();}void f4(void){f5();}void f3(void){f4();}void f2(void){f3();}void f1(void){f2();}void main(void){f1();}
8 => void f7(void){}void f6(void){f7();}void f5(void){f6();}void f4(void){f5();}void f3(void){f4();}void f2(void){f3();}void f1(void){f2();}void main(void){f1();}void interrupt h(void){}
over 9 => void f8(void){}void f7(void){f8();}void f6(void){f7();}void f5(void){f6();}void f4(void){f5();}void f3(void){f4();}void f2(void){f3();}void f1(void){f2();}void main(void){f1();}void interrupt h(void){}
over 9 => void f8(void){int a=1;int b=1;PORTB=a/b;}void f7(void){f8();}void f6(void){f7();}void f5(void){f6();}void f4(void){f5();}void f3(void){f4();}void f2(void){f3();}void f1(void){f2();}void main(void){f1();}
8 => void f7(void){int a=1;int b=1;PORTB=a/b;}void f6(void){f7();}void f5(void){f6();}void f4(void){f5();}void f3(void){f4();}void f2(void){f3();}void f1(void){f2();}void main(void){f1();}"#;

#[test]
fn depths_are_those_of_the_longest_chains(rt: HostRuntime) -> Result<(), Fail> {
    assert_eq!(rt; checked(&rt, rt.alloc(), Question::Depth, DEPTHS)?, 6);
    Ok(())
}

// A function for each row of the table of stated sizes, its frame and its words. Each function has 4 words besides those of its parts.
// Of the parts: a read of c, i or l has 1, 2 or 4 bytes and 6, 12 or 24 words, of a pointer 2 and 12.
const ROWS: &str =
    r#"// Reads: fixed 6w, a bit 10, computed 14 + 6w behind 2 bytes for the address. A member of a computed
// place 12 more.
1 10 => void g(void){c;}
1 14 => void g(void){RB0;}
3 36 => void g(void){*q;}
2 16 => void g(void){t.n;}
4 54 => void g(void){p->n;}
// Constants and `sizeof`: 4w.
2 12 => void g(void){5;}
4 20 => void g(void){5L;}
2 12 => void g(void){sizeof l;}
// Addresses: fixed 8, computed none.
2 12 => void g(void){&i;}
2 12 => void g(void){a;}
2 16 => void g(void){&*q;}
// Casts, `+` and conversions: 8 + 4k for k bytes more, and the operand beside the result.
5 30 => void g(void){(long)c;}
3 16 => void g(void){(unsigned char)i;}
2 16 => void g(void){(void)i;}
4 16 => void g(void){+i;}
4 22 => void g(void){+c;}
// `-` 10w, `~` 4w, `!` 4w(x) + 16 and 2 bytes beside the operand.
4 36 => void g(void){-i;}
8 68 => void g(void){-l;}
4 24 => void g(void){~i;}
3 30 => void g(void){!c;}
6 60 => void g(void){!l;}
// Two operands: beside both stand the result and 2 bytes more. Of W bytes on the left `+ -` 10W,
// `& ^ |` 8W, `== !=` 10W + 20, `< > <= >=` 10W + 30, `* / %` 20W + 10, shifts by a constant
// 8W + 20, others 14W + 14.
8 48 => void g(void){i+j;}
8 44 => void g(void){i&j;}
8 68 => void g(void){i==j;}
12 112 => void g(void){l!=l;}
8 78 => void g(void){i<j;}
12 122 => void g(void){l>=l;}
8 78 => void g(void){i*j;}
8 78 => void g(void){i%j;}
8 60 => void g(void){i<<3;}
8 70 => void g(void){i<<j;}
12 110 => void g(void){l>>j;}
// Pointers: 20 and the scale, none for 1 byte and 32 for 2 or 3; differences 20 for 1 byte, else 80.
8 48 => void g(void){q+i;}
8 80 => void g(void){r+i;}
8 80 => void g(void){p-i;}
8 102 => void g(void){b[i];}
8 48 => void g(void){q-q;}
8 108 => void g(void){r-r;}
// `&& ||`: 4w + 4w + 30; `?:` 4w(c) + 20; comma none.
2 64 => void g(void){i&&c;}
4 84 => void g(void){l||c;}
2 58 => void g(void){c?i:j;}
2 22 => void g(void){c,i;}
// Assignments: fixed 6w, computed 14 + 12w, a bit 20; the value and 2 bytes more stand behind the
// address.
4 28 => void g(void){i=j;}
6 66 => void g(void){*r=i;}
3 30 => void g(void){RB0=c;}
// `op=`, `++` and `--`: read, convert, operate, convert back, store, 12W, 14 if computed; postfix
// 6w more; the constant 1 of `++` has 8.
12 84 => void g(void){i+=j;}
14 150 => void g(void){*r+=i;}
11 94 => void g(void){RB0^=1;}
11 80 => void g(void){++c;}
11 86 => void g(void){c++;}
12 92 => void g(void){q++;}
// Structures of s bytes: fixed 6s, otherwise 28s + 8.
2 22 => void g(void){t=v;}
4 108 => void g(void){*p=t;}
// A call: 6 for each parameter byte, and 6w + 6.
3 58 => void g(void){f(c,i);}
// Each condition 4w + 20, a loop without one 20. `break` and `continue` 4.
2 98 => void g(void){if(c)i;else if(i)c;else c;}
11 136 => void g(void){for(i=0;c;c++);}
1 42 => void g(void){while(c){break;continue;}}
0 24 => void g(void){for(;;);}
// `switch`: 10, and 10W + 14 for each case; the operand once more and 2 bytes.
6 100 => void g(void){switch(i){case 1:c;case 2:;default:;}}
6 32 => void g(void){switch(c){}}
// `return` 6w + 6.
2 34 => int g(void){return i;}
7 34 => int g(unsigned char x,int y){int z;return y;}
// Locals: a value as an assignment; items as assignments, and 4 for each byte without one; a string
// 4 for each byte of its array.
6 24 => void g(void){int x=5;}
7 40 => void g(void){unsigned char x[4]={1,2};}
3 16 => void g(void){unsigned char x[3]="ab";}"#;

#[test]
fn each_row_of_the_sizes_is_as_stated(rt: HostRuntime) -> Result<(), Fail> {
    assert_eq!(rt; checked(&rt, rt.alloc(), Question::Row, ROWS)?, 65);
    Ok(())
}

const PAGES: &str =
    r#"// main has 4 + 3 * 6 = 22 words, and stands behind the 100 of the start block; f, g and h have 4 + 146 * 14 = 2048.
[0, 100, 2048, 4096, 6144] => void f(void);void g(void);void h(void);void main(void){f();g();h();}void f(void){`146*PORTB=5;`}void g(void){`146*PORTB=5;`}void h(void){`146*PORTB=5;`}
// With main behind the three, the fourth page is full: 100 + 3 * 2048 + 22 words.
Code { words: 6266 } => void f(void){`146*PORTB=5;`}void g(void){`146*PORTB=5;`}void h(void){`146*PORTB=5;`}void f(void);void g(void);void h(void);void main(void){f();g();h();}
// 147 assignments are 2062 words, over a page; f is the block behind the start block.
Page { block: 1, words: 2062 } => void f(void){`147*PORTB=5;`}void main(void){f();}"#;

#[test]
fn blocks_fill_pages_in_order(rt: HostRuntime) -> Result<(), Fail> {
    assert_eq!(rt; checked(&rt, rt.alloc(), Question::Pages, PAGES)?, 3);
    Ok(())
}

const PLACES: &str = r#"// add: 2 bytes of variables, and 8 of `b+1`.
main main 0020 3;main add 0023 10;isr h 002D 3;isr add 0030 10; => unsigned char add(unsigned char a){unsigned char b;b=a;return b+1;}void interrupt h(void){PORTC=add(9);INTF=0;}void main(void){INTCON=0x90;PORTB=add(1);}
// f: a byte, and 4 of `q=&a`. g: a byte, and 8 of the comparison. They never run together; a static pointer stands before them.
static q 0020 2;main main 0020 0;main f 0022 5;main g 0022 9; => unsigned char*q;void f(void){unsigned char a;q=&a;}void g(void){unsigned char b;PORTB=(q==&b);}void main(void){f();g();}
// Each region filled by one array.
static a 0020 80;static b 00A0 80;const c 0110 96;static d 0190 96;main main 0020 0; => unsigned char a[80],b[80];const unsigned char c[96]={1};unsigned char d[96];void main(void){}"#;

#[test]
fn objects_and_frames_have_addresses(rt: HostRuntime) -> Result<(), Fail> {
    assert_eq!(rt; checked(&rt, rt.alloc(), Question::Places, PLACES)?, 3);
    // main and pause: 2 bytes of variables, and 11 of `n.presses++` and `i++`. tick: 12 of `n.ticks++`.
    let wanted =
        "static n 0020 3;static stable 0023 1;main main 0024 13;main pause 0031 13;isr tick 003E 12;";
    says(&rt, rt.alloc(), Question::Places, wanted, KEYPAD)
}

const KNOWN: &str = r#"// The start block has 104 words, each of the two functions 62, and main 88.
[0, 104, 166, 228] 316 14 1 3 => unsigned char s;$`2*unsigned char f@(unsigned char x){return x+@;}$`void main(void){unsigned char x;$x=PORTB;$`2*x=f@(x);$`PORTC=x;$}$"#;

#[test]
fn a_program_has_its_addresses_sizes_and_depth(rt: HostRuntime) -> Result<(), Fail> {
    assert_eq!(rt; checked(&rt, rt.alloc(), Question::Known, KNOWN)?, 1);
    Ok(())
}

const READERS: &str =
    r#"// Each function whose name begins with `r` calls one more leaf; one that nobody calls counts nothing.
0 => void main(void){}
0 => unsigned char r(void){return 1;}void main(void){}
2 => unsigned char r(void){return 1;}void main(void){PORTB=r();}
// A chain that is longer goes past it, and one as long doesn't count twice.
2 => void g(void){}void f(void){g();}unsigned char r(void){return 1;}void main(void){f();PORTB=r();}
2 => void g(void){}void f(void){g();}unsigned char r(void){g();return 1;}void main(void){f();PORTB=r();}
// It is reached from both roots: 2 from main, 1 of the interrupt, and 2 from the handler.
5 => unsigned char r(void){return 1;}void interrupt h(void){PORTC=r();INTF=0;}void main(void){INTCON=0x90;PORTB=r();}
// Eight calls have room, and the leaf behind them has none.
over 9 => unsigned char r(void){return 1;}void f(void){PORTB=r();}void e(void){f();}void d(void){e();}void c(void){d();}void b(void){c();}void a(void){b();}void s(void){a();}void main(void){s();}
recursion: r => unsigned char r(void){return r();}void main(void){}"#;

#[test]
fn functions_that_call_a_leaf_count_one_call_more(rt: HostRuntime) -> Result<(), Fail> {
    assert_eq!(rt;
        checked(&rt, rt.alloc(), Question::DepthOfReaders, READERS)?,
        8
    );
    Ok(())
}

const SECOND: &str =
    r#"// The start block has 100 words and 4 for each byte of a static object, and main 4 and 14 for each assignment: 1,024 at most in all, and in a block.
1014 words => void main(void){`65*PORTB=5;`}
code 1028 => void main(void){`66*PORTB=5;`}
page main 1026 => void main(void){`73*PORTB=5;`}
// Objects and frames stand from 20h to 4Fh, in the order of placing.
296 words => unsigned char a[48];void main(void){}
ram a => unsigned char a[49];void main(void){}
ram b => unsigned char a[40],b[9],c[97];void main(void){}
// The device registers that the chip has, and then one that it does not have, by itself and by a bit.
202 words => void main(void){TMR0=1;OPTION_REG=1;PORTA=1;PORTB=1;TRISA=1;TRISB=1;INTCON=1;}
register 1 => void main(void){PORTC=1;}
register 3 => void main(void){$PORTB=1;$RC0=1;PORTD=1;$}
register 2 => unsigned char PORTB(void){return 1;}$void main(void){PORTB();PIR1=1;}
// Another refusal comes before it.
ram a => unsigned char a[49];void main(void){PORTC=1;}
code 1028 => void main(void){`66*PORTC=5;`}"#;

#[test]
fn the_second_chip_has_fewer_words_bytes_and_registers(rt: HostRuntime) -> Result<(), Fail> {
    assert_eq!(rt; checked(&rt, rt.alloc(), Question::Second, SECOND)?, 12);
    Ok(())
}
