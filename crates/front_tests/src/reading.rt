//! Texts and their tokens, texts and what directives and replacement leave of them, and texts with and without a tree.

use crate::answers::{Question, checked, says};
use crate::typed_trees::KEYPAD;
use std::test::Fail;

// Texts, and the tokens that they are cut into: kind, bytes and line.
const CUT: &str =
    r#"keyword int 0-3 line 1 first. name 4-5 line 1. punct ; 5-6 line 1. punct # 12-13 line 2 first. name 13-19 line 2. name 20-21 line 2. char 97 22-25 line 2. text 29-34 line 3 first. punct -> 34-36 line 3. punct >>= 36-39 line 3. name 40-41 line 3. => int x;/*$*/ #define A 'a'//'$"s\""->>>= i
int 0 base 8 0-1 line 1 first. => 0
int 1 base 10 unsigned long 0-3 line 1 first. => 1LU
int 3 base 2 long 0-5 line 1 first. => 0B11l
int 31 base 16 unsigned long 0-6 line 1 first. => 0X1fuL
int 4294967295 base 8 0-12 line 1 first. => 037777777777
int 4294967295 base 10 unsigned 0-11 line 1 first. => 4294967295u
int 4294967295 base 16 0-21 line 1 first. => 0x00000000000ffffffff
char 65 0-6 line 1 first. => '\x41'
char 65 0-6 line 1 first. => '\101'
char 255 0-6 line 1 first. => '\377'
char 34 0-3 line 1 first. => '"'
char 11 0-4 line 1 first. => '\v'
char 63 0-4 line 1 first. => '\?'
text 0-21 line 1 first. => "it's \"\1234\x00041"
keyword volatile 0-8 line 1 first. => volatile
keyword interrupt 0-9 line 1 first. => interrupt
name 0-9 line 1 first. => volatiles
name 0-2 line 1 first. => _0
name 0-255 line 1 first. => `255*a`
punct <<= 0-3 line 1 first. => <<=
punct | 0-1 line 1 first. => |
punct # 0-1 line 1 first. => #"#;

#[test]
fn a_text_is_cut_into_its_longest_tokens(rt: HostRuntime) -> Result<(), Fail> {
    assert_eq!(rt; checked(&rt, rt.alloc(), Question::Cut, CUT)?, 23);
    c_token::longest_token();
    Ok(())
}

// Texts in which no token stands at some place.
const NO_TOKENS: &str = r#"Lex(Bad { line: 1 }) => 09
Lex(Bad { line: 1 }) => 4294967296
Lex(Bad { line: 1 }) => PORTB=0b12;
Lex(Bad { line: 1 }) => PORTB=1.;
Lex(Bad { line: 1 }) => PORTB='ab';
Lex(Bad { line: 2 }) => $0x
Lex(Bad { line: 1 }) => 1uu
Lex(Bad { line: 1 }) => ''
Lex(Bad { line: 1 }) => '\400'
Lex(Bad { line: 1 }) => "\400"
Lex(Bad { line: 1 }) => "\x100"
Lex(Bad { line: 1 }) => "\x"
Lex(Bad { line: 1 }) => '\8'
Lex(Bad { line: 2 }) => $"a$b"
Lex(Bad { line: 1 }) => #error don't$
Lex(Bad { line: 3 }) => $$/*$$*
Lex(Bad { line: 1 }) => /*/
Lex(Bad { line: 1 }) => a # b
Lex(Bad { line: 2 }) => a$@
Lex(Identifier { line: 1 }) => `256*a`"#;

#[test]
fn what_is_no_token_is_refused_at_its_line(rt: HostRuntime) -> Result<(), Fail> {
    assert_eq!(rt; checked(&rt, rt.alloc(), Question::Tree, NO_TOKENS)?, 20);
    says(
        &rt,
        rt.alloc(),
        Question::Tree,
        "Lex(Bad { line: 1 })",
        b"a\x00",
    )
}

// Texts, and the line of the last token that is left, with all that are left.
const LEFT: &str =
    r#"4 void main ( void ) { } => #$  #  include  <xc.h> // c$#include<pic.h>/*x*/$void main(void){}
2 PORTB = ( 1 ) ; => #define A/**/(1)$PORTB=A;
4 int A ; A = B ; => #define A B$#define B A$int A;$A=B;
1 PORTB = A ; => PORTB=A;$#define A 1$
2 1 ; => #define A 1 /* x$y */ A;
2 x = 1 ; => #define PORTB x$PORTB=1;
5 A 2 A 2 ; => #define A B B$#define B C A 2$#define C$$A;
3 x => #define A x$#define A /**/ x$A
1 int A ; => int A;$#define A 'a' "A"$
4 1u + 1u + 2 => #define A 1u +$A$$A 2"#;

// How many tokens are left. Each name stands for two of the name before it.
const LEFT_COUNT: &str =
    r#"65543 => #define a0 ;$#define a1 a0 a0$#define a2 a1 a1$#define a3 a2 a2$#define a4 a3 a3$#define a5 a4 a4$#define a6 a5 a5$#define a7 a6 a6$#define a8 a7 a7$#define a9 a8 a8$#define a10 a9 a9$#define a11 a10 a10$#define a12 a11 a11$#define a13 a12 a12$#define a14 a13 a13$#define a15 a14 a14$#define a16 a15 a15$#define a17 a16 a16$void main(void){a16}$"#;

#[test]
fn names_are_replaced(rt: HostRuntime) -> Result<(), Fail> {
    assert_eq!(rt; checked(&rt, rt.alloc(), Question::Left, LEFT)?, 10);
    assert_eq!(rt;
        checked(&rt, rt.alloc(), Question::CountLeft, LEFT_COUNT)?,
        1
    );
    Ok(())
}

// Texts with a word that is excluded, or a line that is no directive.
const NO_PROGRAMS: &str = r#"Pre(Word { line: 1 }) => float f;
Pre(Directive { line: 1 }) => #pragma config X
Pre(Directive { line: 1 }) => #include <stdio.h>$void main(void){}
Pre(Directive { line: 1 }) => #include <htc/**/.h>$void main(void){}
Pre(Directive { line: 1 }) => #include "htc.h"
Pre(Directive { line: 1 }) => #define A(x) x$void main(void){}
Pre(Directive { line: 1 }) => #define int 1$void main(void){}
Pre(Directive { line: 1 }) => #define goto 1
Pre(Directive { line: 1 }) => #define
Pre(Directive { line: 2 }) => #define A 1$#define A 2$void main(void){}
Pre(Directive { line: 2 }) => #define A 1u$#define A 1U
Pre(Word { line: 2 }) => #define A(x) 1$#define A float$void main(void){}
Pre(Directive { line: 1 }) => #undef A$void main(void){}
Pre(Word { line: 3 }) => #undef A$int a;$__CONFIG"#;

#[test]
fn what_is_no_program_is_refused(rt: HostRuntime) -> Result<(), Fail> {
    assert_eq!(rt; checked(&rt, rt.alloc(), Question::Tree, NO_PROGRAMS)?, 14);
    Ok(())
}

const TREES: &str = r#"tree => `0*;`
tree => int;
tree => void main(void){}
tree => void main(void){PORTB=5;}
tree => struct s{int a,*b[3];char c;};struct s x={1,{2,3,},'a'};
tree => int*const volatile*p,q(int,char*a,struct t*()),r[2][3]={{1},{2}};
tree => char s[]="ab";void f(int[],int g(void)){}
tree => void main(void){if(a)b;else if(c)d;else{e;}}
tree => void main(void){if(a)while(b)if(c)d;else e;else f;}
tree => void main(void){do x++;while(--y);for(;;);for(i=0;i<3;i++)continue;return;}
tree => int f(int a){int b;switch(a){case 1:case 2+3:b=1;break;default:;}return b;}
tree => void main(void){a=b+=c?d,e:f?g:h;-*&a=1;sizeof a=1;a.b->c[d](e,f)()++=1;}
tree => void main(void){(int)(char)-a*sizeof(int)-sizeof b<<1>2==3&4^5|6&&7||8;}
tree => void main(void){((a));~!+-a%b/c;++*a;--b[1];x=(1,2);}
Parse(Syntax { line: 1 }) => void f(int a,void){}void main(void){}
Parse(Syntax { line: 1 }) => int (x);void main(void){}
Parse(Syntax { line: 1 }) => void main(void){PORTB="a"[0];}
Parse(Syntax { line: 1 }) => void main(void){switch(1)case 1:;}
Parse(Syntax { line: 1 }) => void main(void){goto_:;}
Parse(Syntax { line: 1 }) => void main(void){int x;x?x:x=1;}
Parse(Syntax { line: 1 }) => void main(void){int x;sizeof(int)x;}
Parse(Syntax { line: 1 }) => void main(void){do PORTB=1;while(1)}
Parse(Syntax { line: 1 }) => int f(void)[2]{}void main(void){}
Parse(Syntax { line: 2 }) => void main(void){$PORTB=;$}
Parse(Syntax { line: 1 }) => void main(void){PORTB=;}
Parse(Syntax { line: 1 }) => void main(void){(int)x=1;}
Parse(Syntax { line: 1 }) => void main(void){++(int)x;}
Parse(Syntax { line: 1 }) => void main(void){x$
Parse(Syntax { line: 1 }) => int a[]={};
Parse(Syntax { line: 1 }) => void main(void){x;int y;}
Parse(Syntax { line: 1 }) => x
Parse(Syntax { line: 1 }) => struct{};
Pre(Word { line: 1 }) => float f;
Pre(Directive { line: 1 }) => #pragma config X
Lex(Bad { line: 1 }) => int x=09;
Lex(Bad { line: 1 }) => int x=4294967296;
Parse(Syntax { line: 2 }) => void main(void){$if(a)if(b)c;else d;else e;else f;}
tree => void main(void){if(a){if(b)c;}else if(d)e;else if(f)g;}
Parse(Syntax { line: 1 }) => void main(void){else;}
tree => int a[2]={1,2,},b[]={{1},{2,3,},4};
Parse(Syntax { line: 1 }) => int a[]={,};
tree => int x=sizeof(int)+sizeof(x)+sizeof x;
tree => int x=(int)(char)x,y=(x)+1;
Parse(Syntax { line: 1 }) => int x=sizeof(int)(1);
tree => unsigned const long volatile static int x;
tree => struct s;struct{int a;}x;struct s{struct s*n;};
tree => void f(int,char*,struct s*[3],int(void));
tree => void f(void*,int[2][3],int a[]);
Parse(Syntax { line: 1 }) => void f(void,int);
Parse(Syntax { line: 1 }) => void main(void){{case 1:;}}
tree => void main(void){switch(1){case 1:case 2:{;}default:;}}
Parse(Syntax { line: 1 }) => void main(void){;int x;}
Parse(Syntax { line: 1 }) => int;struct s{int;};"#;

// Texts with `typedef` and `enum` without a tree. Those with one, which the rules on names and types take too, are in rules.rt.
const NO_TREES: &str = r#"Parse(Syntax { line: 1 }) => void main(void){typedef int T;T x;}
Parse(Syntax { line: 1 }) => typedef int T;struct s{int T;};
Parse(Syntax { line: 1 }) => typedef int T;enum{T};
Parse(Syntax { line: 1 }) => enum{};
Parse(Syntax { line: 1 }) => enum;
Parse(Syntax { line: 1 }) => enum e{,};
Parse(Syntax { line: 1 }) => enum e{A,,};
Parse(Syntax { line: 1 }) => typedef int T;void main(void){T=1;}
Parse(Syntax { line: 1 }) => typedef int T;int x=T;
Parse(Syntax { line: 1 }) => typedef int T;void T(void);
Parse(Syntax { line: 1 }) => typedef int T;void main(void){;T x;}
Parse(Syntax { line: 1 }) => enum e{A=1,2};
Parse(Syntax { line: 1 }) => enum e{A=(1};
Parse(Syntax { line: 1 }) => enum 1{A};
Parse(Syntax { line: 1 }) => typedef int T;void main(void){T;T(1);}
Parse(Syntax { line: 1 }) => typedef T x;"#;

#[test]
fn each_text_has_its_tree_or_its_refusal(rt: HostRuntime) -> Result<(), Fail> {
    assert_eq!(rt; checked(&rt, rt.alloc(), Question::Tree, TREES)?, 53);
    assert_eq!(rt; checked(&rt, rt.alloc(), Question::Tree, NO_TREES)?, 16);
    says(&rt, rt.alloc(), Question::Tree, "tree", KEYPAD)
}

const LIMITS: &str = r#"tree => void main(void){PORTB=`63*(`1`63*)`;}
Parse(Nesting { line: 1 }) => void main(void){PORTB=`64*(`1`64*)`;}
Parse(Syntax { line: 1 }) => x`64*(``64*)`
Parse(Syntax { line: 1 }) => void main(void){PORTB=`63*(`1`64*]`;}
Parse(Syntax { line: 1 }) => `8192*x `
Parse(Run { line: 1 }) => `8193*x `
tree => void main(void){x=1`4094*+1`;}
tree => void main(void){x=`8188*-` 1;}
tree => void main(void){x=`8188*~` 1;}
tree => void main(void){x=`2000*a?`b`2000*:c`;}
tree => void main(void){x=`2000*a?b:`c;}
tree => void main(void){`255*if(a)`;}
Parse(Syntax { line: 1 }) => void main(void){`256*if(a)`;}
tree => void main(void){}`262127* `
tree => unsigned char `255*a`;void main(void){}
Lex(Identifier { line: 1 }) => unsigned char `256*a`;void main(void){}
tree => void main(void){PORTB=1`4094*+1`;}
Parse(Run { line: 1 }) => void main(void){PORTB=1`4095*+1`;}
tree => void main(void){`9000*if(a){}else `{}}
tree => void main(void){x=(x)`2000*[x]``100*++`;}
tree => void main(void){`255*while(a)`x=((((((((1))))))));}"#;

const CHOICES: &str =
    r#"// In a run of 8,192 tokens, `x`, `=` and the last part aside, each `?` has its condition, its `:` and one part more.
tree => void main(void){x=`2047*a?`b`2047*:c`;}
Parse(Run { line: 1 }) => void main(void){x=`2048*a?`b`2048*:c`;}
tree => void main(void){x=`2047*a?b:`c;}
Parse(Run { line: 1 }) => void main(void){x=`2048*a?b:`c;}
Parse(Syntax { line: 1 }) => void main(void){PORTB=`2000*a?`;}
Parse(Syntax { line: 2 }) => void main(void){PORTB=`3000*a?`$;$}
Parse(Syntax { line: 1 }) => void main(void){PORTB=`4095*a?`;}
Parse(Run { line: 1 }) => void main(void){PORTB=`4096*a?`;}
Parse(Syntax { line: 1 }) => void main(void){PORTB=`4095*a?`
Parse(Syntax { line: 1 }) => void main(void){PORTB=`2730*a?``2730*:`;}
// A structure's body ends a run in the middle of an expression.
tree => void main(void){x=`2048*a?`sizeof(struct{int y;})`2048*:c`;}
tree => void main(void){x=`2049*a?`sizeof(struct{int y;})`2049*:c`;}
Parse(Syntax { line: 1 }) => void main(void){x=`2049*a?`sizeof(struct{int y;})`2048*:c`;}
Parse(Syntax { line: 1 }) => void main(void){x=`4094*x?`(struct{int y;}*)x`4093*:x`;}
Parse(Syntax { line: 2 }) => void main(void){x=`4093*x?`(struct{int y;}*)x$`4093*:x`:x;}
// 61,290 of them in one another, the last one without its `:`.
Parse(Syntax { line: 2 }) => void main(void){x=`4085*x?`(struct{int y;}*)x?`4085*x?`(struct{int y;}*)x?`4085*x?`(struct{int y;}*)x?`4085*x?`(struct{int y;}*)x?`4085*x?`(struct{int y;}*)x?`4085*x?`(struct{int y;}*)x?`4085*x?`(struct{int y;}*)x?`4085*x?`(struct{int y;}*)x?`4085*x?`(struct{int y;}*)x?`4085*x?`(struct{int y;}*)x?`4085*x?`(struct{int y;}*)x?`4085*x?`(struct{int y;}*)x?`4085*x?`(struct{int y;}*)x?`4085*x?`(struct{int y;}*)x?`4085*x?`(struct{int y;}*)x?x$`4085*:x`:(struct{int y;}*)x`4085*:x`:(struct{int y;}*)x`4085*:x`:(struct{int y;}*)x`4085*:x`:(struct{int y;}*)x`4085*:x`:(struct{int y;}*)x`4085*:x`:(struct{int y;}*)x`4085*:x`:(struct{int y;}*)x`4085*:x`:(struct{int y;}*)x`4085*:x`:(struct{int y;}*)x`4085*:x`:(struct{int y;}*)x`4085*:x`:(struct{int y;}*)x`4085*:x`:(struct{int y;}*)x`4085*:x`:(struct{int y;}*)x`4085*:x`:(struct{int y;}*)x`4085*:x`;}
// Many of them, one behind the other.
tree => void main(void){`20000*x=a?b:c;`}"#;

// Choices in one another, round a structure's body that declares nothing. Their trees are deeper than a spelling goes.
const DEEP: &str = r#"Declare 1 => int x;void main(void){x=`2049*x?`(struct{int y;}*)x`2049*:x`;}
Declare 2 => int x;void main(void){x=`4094*x?`$(struct{int y;}*)x`4094*:x`;}
Declare 1 => int x;void main(void){x=`4085*x?`(struct{int y;}*)x?`4085*x?`(struct{int y;}*)x?`4085*x?`(struct{int y;}*)x?`4085*x?`(struct{int y;}*)x?`4085*x?`(struct{int y;}*)x?`4085*x?`(struct{int y;}*)x?`4085*x?`(struct{int y;}*)x?`4085*x?`(struct{int y;}*)x?`4085*x?`(struct{int y;}*)x?`4085*x?`(struct{int y;}*)x?`4085*x?`(struct{int y;}*)x?`4085*x?`(struct{int y;}*)x?`4085*x?`(struct{int y;}*)x?`4085*x?`(struct{int y;}*)x?`4085*x?`(struct{int y;}*)x?x`4085*:x`:(struct{int y;}*)x`4085*:x`:(struct{int y;}*)x`4085*:x`:(struct{int y;}*)x`4085*:x`:(struct{int y;}*)x`4085*:x`:(struct{int y;}*)x`4085*:x`:(struct{int y;}*)x`4085*:x`:(struct{int y;}*)x`4085*:x`:(struct{int y;}*)x`4085*:x`:(struct{int y;}*)x`4085*:x`:(struct{int y;}*)x`4085*:x`:(struct{int y;}*)x`4085*:x`:(struct{int y;}*)x`4085*:x`:(struct{int y;}*)x`4085*:x`:(struct{int y;}*)x`4085*:x`:(struct{int y;}*)x;}"#;

const DOUBLING: &str = r#"// Each name stands for two of the name before it.
tree => #define a0 ;$#define a1 a0 a0$#define a2 a1 a1$#define a3 a2 a2$#define a4 a3 a3$#define a5 a4 a4$#define a6 a5 a5$#define a7 a6 a6$#define a8 a7 a7$#define a9 a8 a8$#define a10 a9 a9$#define a11 a10 a10$#define a12 a11 a11$#define a13 a12 a12$#define a14 a13 a13$#define a15 a14 a14$#define a16 a15 a15$#define a17 a16 a16$void main(void){a16}
Pre(Tokens { line: 19 }) => #define a0 ;$#define a1 a0 a0$#define a2 a1 a1$#define a3 a2 a2$#define a4 a3 a3$#define a5 a4 a4$#define a6 a5 a5$#define a7 a6 a6$#define a8 a7 a7$#define a9 a8 a8$#define a10 a9 a9$#define a11 a10 a10$#define a12 a11 a11$#define a13 a12 a12$#define a14 a13 a13$#define a15 a14 a14$#define a16 a15 a15$#define a17 a16 a16$void main(void){a17}
Pre(Tokens { line: 20 }) => #define a0 ;$#define a1 a0 a0$#define a2 a1 a1$#define a3 a2 a2$#define a4 a3 a3$#define a5 a4 a4$#define a6 a5 a5$#define a7 a6 a6$#define a8 a7 a7$#define a9 a8 a8$#define a10 a9 a9$#define a11 a10 a10$#define a12 a11 a11$#define a13 a12 a12$#define a14 a13 a13$#define a15 a14 a14$#define a16 a15 a15$#define a17 a16 a16$void main(void){a16}$a17"#;

#[test]
fn limits_hold_at_their_numbers(rt: HostRuntime) -> Result<(), Fail> {
    assert_eq!(rt; checked(&rt, rt.alloc(), Question::Tree, LIMITS)?, 21);
    assert_eq!(rt; checked(&rt, rt.alloc(), Question::Tree, CHOICES)?, 17);
    assert_eq!(rt; checked(&rt, rt.alloc(), Question::Rule, DEEP)?, 3);
    assert_eq!(rt; checked(&rt, rt.alloc(), Question::Tree, DOUBLING)?, 3);
    Ok(())
}
