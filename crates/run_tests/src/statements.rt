//! Each kind of statement, and calls.

use crate::comparing::agrees_twice;
use std::alloc::Global;
use std::test::Fail;

/// Programs, a line each.
pub const TEXTS: &str = "\
void main(void){}
void main(void){PORTB=5;}
void main(void){unsigned char a=200;unsigned char b=100;PORTB=(a+b)>>1;}
void main(void){PORTB=-1<1u;PORTB=-1L<1u;PORTB=sizeof 40000;PORTC=sizeof 0x9C40;}
void main(void){int a=-7;PORTB=a/2;PORTC=a%2;}
unsigned char x;void main(void){PORTB=1/x;}
unsigned char f(unsigned char a,unsigned char b){return a+b;}unsigned char g(unsigned char x){return f(x,3);}void main(void){PORTB=f(1,g(2));}
unsigned char a[3]={1,2,3};void main(void){unsigned char*p;unsigned char s=0;for(p=a;p!=a+3;p++)s+=*p;PORTB=s;}
unsigned char x;unsigned char*q;void main(void){q=&x;}
const unsigned char t[2]={7,9};void main(void){PORTB=t[1];}
void main(void){PORTB=PORTA;PORTB=PORTA;}
unsigned char f(unsigned char a){return a;}void main(void){if(RB0)PORTB=f(7);else PORTC=1;}
int x=3;void main(void){while(x)x--;do x++;while(x<4);for(x=9;x>2;x-=3)PORTB=x;}
int x;void main(void){for(;;){x++;if(x==2)continue;if(x>4)break;PORTB=x;}}
int x;void main(void){while(x<6){if(x++&1)continue;PORTB=x;}do{if(++x==9)continue;if(x>10)break;PORTC=x;}while(x<20);}
int x;void main(void){for(x=0;x<9;x++){if(x==3)continue;if(x==6)break;PORTB=x;}}
int x;void main(void){for(x=-1;x<8;x++)switch(x){case 0:PORTB=1;case 1:PORTB=2;break;default:PORTB=9;case 5:PORTB=5;break;case 3:{PORTB=3;}case 300:;}}
unsigned char c=2;void main(void){switch(c){PORTA=1;}switch(c){default:PORTB=1;}switch(c){case 1:PORTB=2;}}
long x=70000;void main(void){switch(x){case 4464:PORTB=1;break;case 70000:PORTB=2;}}
int x;int y;void main(void){for(x=0;x<5;x++){switch(x){case 1:continue;case 2:for(y=0;y<3;y++)switch(y){case 1:continue;default:PORTB=y;break;}PORTC=x;}}}
void f(void){PORTB=1;return;PORTB=2;}void main(void){f();return;PORTC=1;}
int f(int x){if(x>2)return x;else if(x==1)return 7;return-x;}int r;void main(void){r=f(3);r=f(1);r=f(2);f(0);}
long f(long a,unsigned char b,int c){return a*b+c;}long r;void main(void){r=f(70000,3,-5);r=f(f(1,2,3),4,5);}
struct s{int a;char b;};struct s g;void f(struct s*p,int n){while(n--){p->a+=n;p->b=n;}}void main(void){f(&g,3);PORTB=g.a;}
unsigned char*f(unsigned char*p){return p+1;}unsigned char a[3]={4,5,6};void main(void){PORTB=*f(a);*f(f(a))=1;}
int f(void){static int n=5;return n++;}void main(void){PORTB=f();PORTB=f()+f();}
void f(int n){int a[2]={1};int b;b=n;if(n){a[1]+=b;PORTB=a[1];}}void main(void){f(0);f(3);}
char c;void main(void){int x;int y=x=3;PORTB=(c=300,y)+(x?y:0);PORTB=x&&y||c;PORTC=!x||(x=0)||y++;}
int x;void g(void){x+=1;}void f(void){g();g();}void main(void){f();g();f();if(x==5)PORTB=1;}
void main(void){{int a=1;{int a=2;PORTB=a;}PORTB=a;}{int b[3]={1,2,3};PORTC=b[0]+b[1]*b[2];}}
struct s{char a[65535],b;};unsigned char x;void main(void){struct s*p=(void*)&x;PORTB=(p-p)+1;}
struct s{char b[65535];};unsigned char a[2];void main(void){struct s*p=(void*)a;struct s*q=(void*)(a+1);PORTB=(q-p)+1;}
int x;int f(void){x++;return x;}void main(void){int*p=&x;*p=3,*p+=2;x?f():x--;(void)f();x++,++x;f();for(*p=0;x<3;(*p)++)PORTC=x;x&&f();PORTB=(x++,*p=7,x);PORTB=x;}
int x;void main(void){for(x=-2;x<7;x++)switch(x){PORTA=9;case 4:case 2:PORTB=1;if(x==4)continue;default:PORTB=2;break;case 0:PORTC=x;case 5:}}
";

// The input of each of them.
const INPUT: [u8; 5] = [0x01, 0x5A, 0xFF, 0x00, 0x80];

// Whether a text agrees with its source, for 200,000 instructions with the input, and for 20,000 without.
fn agrees_with_and_without(alloc: Global, text: &str) -> Result<bool, Fail> {
    let agrees_with = agrees_twice(alloc, text, &INPUT, 200_000)?;
    Ok(agrees_with && agrees_twice(alloc, text, &[], 20_000)?)
}

#[test]
fn statements_of_each_kind_run_as_their_source(rt: HostRuntime) -> Result<(), Fail> {
    let mut count: u32 = 0;
    for text in TEXTS.lines() {
        assert!(rt; agrees_with_and_without(rt.alloc(), text)?, "{text}");
        count = count.saturating_add(1);
    }
    assert!(rt; count == 34);
    Ok(())
}
