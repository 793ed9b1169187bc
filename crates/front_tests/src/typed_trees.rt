//! Typed trees: sizes of types, bytes of static objects, and counts of nodes and parts.

use crate::answers::{Question, checked, says};
use std::test::Fail;

// Texts, and the bytes of their static objects in order.
const STATIC_SIZES: &str =
    r#"[1, 2, 4, 2] => char a[(-1<1u)+1],b[(-1L<1u)+1],c[sizeof 40000],d[sizeof 0x9C40];
[2, 2, 4, 2] => char a[sizeof('a')],b[sizeof(1u)],c[sizeof(1L)],d[sizeof(sizeof 1)];
[1, 2, 1, 4, 2] => char c;char a[sizeof(c+c)],b[sizeof(c)],d[sizeof(c+1L)],e[sizeof(c<<1L)];
[2, 2, 1, 2, 2] => char*p;char a[sizeof(p)],b[sizeof(*p)],c[sizeof(p-p)],d[sizeof(p==p)];
[11, 11, 8] => struct s{char a;int b;long c[2];}x;char a[sizeof x],b[sizeof x.c];
[12, 6, 2, 2] => int a[2][3];char b[sizeof a[0]],c[sizeof a[0][0]],d[sizeof&a];
[6, 3, 2] => int a[]={1,2,3};char b[]="ab",c[]={1,2};
[1, 9, 11, 3, 2] => char a[1?1:2],b[3%2+4*2],c[7>>1|8^3&1],d[-7/-2],e[!0+!5+~-2];
[1, 1] => char a[(char)257],b[(signed char)255+2];
[2, 1] => struct s{char a[65535],b;}*p;char c[sizeof*p+1];
[1, 2] => typedef unsigned char u8;typedef long*P;u8 a;P b;
[6, 12] => typedef int A[3];A a;A b[2];
[5, 10] => typedef struct{char a;long b;}S;S a,b[2];
[1, 3] => typedef char A[];A a={1},b={1,2,3};
[1, 5, 6] => enum{A,B=5,C};char a[A+1],b[B],c[C];
[2, 2] => enum e{A};enum e a;char b[sizeof(enum e)];
[2, 7] => enum{A=-3,B};char a[-B],b[A==B-1?7:8];
[54464] => typedef char B[60000];typedef B C[2];char a[sizeof(C)];"#;

#[test]
fn types_show_in_sizes(rt: HostRuntime) -> Result<(), Fail> {
    assert_eq!(rt;
        checked(&rt, rt.alloc(), Question::StaticSizes, STATIC_SIZES)?,
        18
    );
    Ok(())
}

const BEGINNINGS: &str =
    r#"x 0:1 1:254 2:255 5:97 6:98;l 0:120 1:86 2:52 3:18;y;p 0:&2 1:&2;z;t 0:65 1:65 2:50 3:92;f.1.k 0:10; => struct s{char a;int b[2];char c[3];}x={1,{-2},"ab"};long l=0x12345678;int y,*p=&y,*z=0;char t[]="\x41\1012\\";void f(int a){int y;static char k='\n';}"#;

#[test]
fn static_objects_begin_as_they_say(rt: HostRuntime) -> Result<(), Fail> {
    assert_eq!(rt;
        checked(&rt, rt.alloc(), Question::Beginnings, BEGINNINGS)?,
        1
    );
    Ok(())
}

/// The firmware of a key and a lamp.
pub const KEYPAD: &[u8] = br#"#include <htc.h>
#define LED RB1
#define KEY RB0
struct counts { unsigned int ticks; unsigned char presses; };
struct counts n;
unsigned char stable;
void interrupt tick(void)
{
    if (TMR0IF) { TMR0IF = 0; n.ticks++; }
}
void pause(unsigned char k)
{
    volatile unsigned char i;
    for (i = 0; i < k; i++)
        ;
}
void main(void)
{
    unsigned char last = 1;
    TRISB = 0x01;
    OPTION_REG = 0x07;
    TMR0IE = 1;
    GIE = 1;
    for (;;) {
        unsigned char now = KEY;
        pause(20);
        if (now == KEY && now != last) {
            last = now;
            if (!now) { n.presses++; LED = !LED; }
        }
        stable = last;
    }
}
"#;

const NODES: &str = r#"0 => `0*;`
1 => void main(void){}
6 => void main(void){PORTB=5;}
7 => void main(void){int x;x=6/2;}
20 => void main(void){unsigned char a=200;unsigned char b=100;PORTB=(a+b)>>1;}
10 => const unsigned char t[2]={7,9};void main(void){PORTB=t[1];}
31 => unsigned char a[3]={1,2,3};void main(void){unsigned char*p;unsigned char s=0;for(p=a;p!=a+3;p++)s+=*p;PORTB=s;}
7 => void main(void){switch(1){case sizeof 1:;default:case 1:;}}"#;

const LONG: &str = r#"8003 => void main(void){`8000*- `1;}
8003 => void main(void){1`4000*+1`;}
12004 => struct s{struct s*a;}*p;void main(void){p`4000*->a`;}
6003 => void main(void){`2000*1?2:`3;}
30002 => void main(void){`10000*if(1);else `;}"#;

#[test]
fn nodes_are_counted(rt: HostRuntime) -> Result<(), Fail> {
    assert_eq!(rt; checked(&rt, rt.alloc(), Question::Nodes, NODES)?, 8);
    assert_eq!(rt; checked(&rt, rt.alloc(), Question::Nodes, LONG)?, 5);
    says(&rt, rt.alloc(), Question::Nodes, "106", KEYPAD)
}

#[test]
fn functions_keep_their_parts(rt: HostRuntime) -> Result<(), Fail> {
    let wanted = "7 0 0 1 true;11 1 1 2 false;17 0 2 6 false;";
    says(&rt, rt.alloc(), Question::Functions, wanted, KEYPAD)
}
