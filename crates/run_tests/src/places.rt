//! Each kind of place, in each bank.

use crate::comparing::check_text;
use std::alloc::Global;
use std::process::Abort;
use std::test::Fail;

// What stands before the objects: nothing, or what fills the banks in front. A bar stands between two of them.
const FILLS: &str =
    "|unsigned char fill[80];|unsigned char fill[80],full[80];|unsigned char fill[80],full[80],filled[96];";

const OBJECTS: &str =
    "struct s{unsigned char m;int n;long o;unsigned char p[3];};struct s v={1,-2,70000,{7,8,9}},w;int i=300;unsigned char c=9,a[5]={1,2,3,4,5};struct s*q;unsigned char*r;";

// What main does, a line each. The locals stand in main's frame, behind the objects or in the next region.
const BODIES: &str = "\
i=c;c=i;
v.n=i;v.o=v.n;i=v.p[1];v.p[2]=c;
q=&v;q->n=5;i=q->n;q->o=-1;q->p[1]=q->m;
q=&v;(*q).m=3;c=(*q).m;i=q->n++;i=--q->n;q->o+=i;
r=a;*r=7;c=*r;r++;*r+=2;c=r[1];r[2]=c;--r;c=*r;
r=&a[4];c=*r;c=r[-2];i=r-a;i=r>a;i=r==a+4;
r=a+1;r+=2;r-=1;c=*r++;c=*--r;*r++=4;
w=v;v.m=0;w=w;q=&w;*q=v;v=*q;
struct s x;x=v;x.n=4;v=x;q=&x;w=*q;*q=v;
unsigned char b[4];for(c=0;c<4;c++)b[c]=c*c;c=b[3];r=b;c=r[2];r=&b[1];*r=c;
int b[3]={1,2};int*t=b;i=*t++;i=t[1];t[0]=i;b[i&1]=3;i=b[1];
long b[2]={70000,-1};long*t=&b[1];i=*t;*t=v.o;v.o=b[1];t--;i=t==b;
RB0=c;c=RB0;RB7=1;RB0=!RB0;i=RB3=5;RC2++;RC2+=3;c=RA1?RA2:RA3;
PORTB=c;c=PORTB;PORTC=PORTB;TRISC=i;i=TRISB;OPTION_REG=PORTA+1;PIE1|=2;ADRESL++;TMR0=TMR0;
static int k=7;k++;i=k;k=c;
struct s x[2];x[1]=v;x[0]=x[1];q=x+1;i=q-x;q--;i=q->n;x[i&1].o=5;w=x[0];
unsigned char*t=0;i=t==0;i=!t;t=a;i=t!=0;if(t)c=*t;i=t&&c;
r=&v.p[1];*r=6;c=v.p[1];r=(unsigned char*)&v;c=r[0];
c=a[2];c=a[c&3];a[i&1]++;a[1]-=a[2];i=a[a[0]]<<a[1];
const unsigned char k[3]={4,5,6};c=k[1];c=k[c&1];
char g[4]=\"ab\";c=g[0];c=g[2];c=g[3];
volatile int x=1;x;x=x+x;c;v;v.n;q=&v;*q;
unsigned int u=65535;i=u>i;i=-1<u;v.o=u;v.o=-u;v.o=v.o>>c;
q=&v;r=q->p;c=r[2];i=sizeof v;i=sizeof a;i=(v.n,c);c=(c,i);
";

/// Runs each of these behind a fill. The answer is how many there are.
fn check_bodies(rt: &impl Abort, alloc: Global, fill: &str) -> Result<u32, Fail> {
    let mut count: u32 = 0;
    for body in BODIES.lines() {
        let text = format!(in alloc; "{fill}{OBJECTS}void main(void){{{body}}}")?;
        check_text(rt, alloc, &text)?;
        count = count.saturating_add(1);
    }
    Ok(count)
}

#[test]
fn places_in_each_bank_run_as_their_source(rt: HostRuntime) -> Result<(), Fail> {
    let mut count: u32 = 0;
    for fill in FILLS.split('|') {
        count = count.saturating_add(check_bodies(&rt, rt.alloc(), fill)?);
    }
    // four fills, and twenty-four bodies behind each
    assert!(rt; count == 96);
    Ok(())
}
