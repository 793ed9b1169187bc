//! Worked programs: their traces, what they do on the chip, and where their objects and frames stand. All that is wanted was worked
//! out by hand.

use crate::tables::check_all;
use command_cases::{BUILD, LED, bytes_of, cut, host_behind, is_same_file, line_ends};
use host_io::MemoryHost;
use std::alloc::{AllocError, Global};
use std::test::Fail as Failure;

const TRACES: &str = "\
# one write
trace a.c a.s 1000@0@W PORTB 05$End$@a.c=void main(void){PORTB=5;}@a.s=
# sums are ints
trace a.c a.s 1000@0@W PORTB 96$End$@a.c=void main(void){unsigned char a=200;unsigned char b=100;PORTB=(a+b)>>1;}@a.s=
# and one whose low byte alone is used
trace a.c a.s 1000@0@W PORTB 96$W PORTC 2C$End$@a.c=void main(void){unsigned char a=200;unsigned char b=100;PORTB=(a+b)>>1;PORTC=a+b;}@a.s=
# usual conversions and sizes
trace a.c a.s 1000@0@W PORTB 00$W PORTB 01$W PORTB 04$W PORTC 02$End$@a.c=void main(void){PORTB=-1<1u;PORTB=-1L<1u;PORTB=sizeof 40000;PORTC=sizeof 0x9C40;}@a.s=
# division truncates toward zero
trace a.c a.s 1000@0@W PORTB FD$W PORTC FF$End$@a.c=void main(void){int a=-7;PORTB=a/2;PORTC=a%2;}@a.s=
# division by zero
trace a.c a.s 1000@4@R x.0 00$a.c:1: undefined: division$@a.c=unsigned char x;void main(void){PORTB=1/x;}@a.s=
# a torn read
trace a.c a.s 1000@0@W INTCON 90$R t.0 FF$R t.0 FF$R t.1 00$W t.0 00$W t.1 01$R INTCON 12$W INTCON 10$R t.1 01$W PORTB 01$W PORTC FF$End$@a.c=unsigned int t=0x00FF;void interrupt h(void){t++;INTF=0;}void main(void){unsigned int v;INTCON=0x90;v=t;PORTB=v>>8;PORTC=v;}@a.s=at 2 INTF
# one handler run for two arrivals
trace a.c a.s 1000@0@W INTCON 90$W PORTB 01$R INTCON 12$W INTCON 10$@a.c=void interrupt h(void){PORTB=1;INTF=0;}void main(void){INTCON=0x90;for(;;);}@a.s=at 1 INTF$at 1 INTF$
# overlay
trace a.c a.s 1000@0@W PORTB 06$End$@a.c=unsigned char f(unsigned char a,unsigned char b){return a+b;}unsigned char g(unsigned char x){return f(x,3);}void main(void){PORTB=f(1,g(2));}@a.s=
# two copies
trace a.c a.s 1000@0@W INTCON 90$W PORTC 0A$R INTCON 12$W INTCON 10$W PORTB 02$End$@a.c=unsigned char add(unsigned char a){unsigned char b;b=a;return b+1;}void interrupt h(void){PORTC=add(9);INTF=0;}void main(void){INTCON=0x90;PORTB=add(1);}@a.s=at 1 INTF
# pending before the handler is enabled
trace a.c a.s 1000@0@R INTCON 02$W INTCON 12$R INTCON 12$W INTCON 92$W PORTB 01$R INTCON 12$W INTCON 10$W PORTA 02$End$@a.c=void interrupt h(void){PORTB=1;INTF=0;}void main(void){INTE=1;GIE=1;PORTA=2;}@a.s=at 0 INTF
# a lost flag
trace a.c a.s 1000@0@W INTCON 10$R INTCON 10$W INTCON 10$R INTCON 10$W PORTB 10$End$@a.c=void main(void){INTCON=0x10;INTCON&=0xFD;PORTB=INTCON;}@a.s=at 2 INTF
# a flag that is seen and cleared
trace a.c a.s 1000@0@W INTCON 10$R INTCON 12$W INTCON 10$R INTCON 10$W PORTB 10$End$@a.c=void main(void){INTCON=0x10;INTCON&=0xFD;PORTB=INTCON;}@a.s=at 1 INTF
# a pointer through an array
trace a.c a.s 1000@0@R a.0 01$R a.1 02$R a.2 03$W PORTB 06$End$@a.c=unsigned char a[3]={1,2,3};void main(void){unsigned char*p;unsigned char s=0;for(p=a;p!=a+3;p++)s+=*p;PORTB=s;}@a.s=
# bytes of an address
trace a.c a.s 1000@0@W q.0 20$W q.1 00$End$@a.c=unsigned char x;unsigned char*q;void main(void){q=&x;}@a.s=
# a pointer past the end
trace a.c a.s 1000@4@a.c:1: undefined: outside$@a.c=unsigned char a[3]={1,2,3};void main(void){unsigned char*p;unsigned char s=0;for(p=a;p!=a+4;p++)s+=*p;PORTB=s;}@a.s=
# a pointer to a copy that ended
trace a.c a.s 1000@4@W q.0 22$W q.1 00$R q.0 22$R q.1 00$a.c:1: undefined: inactive$@a.c=unsigned char*q;void f(void){unsigned char a;q=&a;}void g(void){unsigned char b;PORTB=(q==&b);}void main(void){f();g();}@a.s=
# a structure is unset again when its declarator is reached again
trace a.c a.s 1000@4@R g.0 00$a.c:3: undefined: unset$@a.c=struct s{char a;};struct s g;$void main(void){struct s*q;unsigned char i;q=&g;$for(i=0;i<2;i++){struct s b=*q;q=&b;}$PORTB=1;}@a.s=
# a const table
trace a.c a.s 1000@0@W PORTB 09$End$@a.c=const unsigned char t[2]={7,9};void main(void){PORTB=t[1];}@a.s=
# input
trace a.c a.s 1000@0@R PORTA 5A$W PORTB 5A$R PORTA 00$W PORTB 00$End$@a.c=void main(void){PORTB=PORTA;PORTB=PORTA;}@a.s=input 5A
";

#[test]
fn programs_have_their_worked_traces(rt: HostRuntime) -> Result<(), Failure> {
    Ok(check_all(&rt, rt.alloc(), TRACES, "", 20)?)
}

const ON_THE_CHIP: &str = "\
build a.c a.hex a.map;sim a.hex a.map a.s 100000@0@W PORTB 05$End$@a.c=void main(void){PORTB=5;}@a.s=
build a.c a.hex a.map;sim a.hex a.map a.s 200000@0@W INTCON 90$W PORTB 01$R INTCON 12$W INTCON 10$@a.c=void interrupt h(void){PORTB=1;INTF=0;}void main(void){INTCON=0x90;for(;;);}@a.s=at 100000 INTF
build a.c a.hex a.map;sim a.hex a.map a.s 200000@0@W PORTB 06$End$@a.c=unsigned char f(unsigned char a,unsigned char b){return a+b;}unsigned char g(unsigned char x){return f(x,3);}void main(void){PORTB=f(1,g(2));}@a.s=
build a.c a.hex a.map;sim a.hex a.map a.s 20000@0@W PORTB 96$W PORTC 2C$End$@a.c=void main(void){unsigned char a=200;unsigned char b=100;PORTB=(a+b)>>1;PORTC=a+b;}@a.s=
build a.c a.hex a.map;sim a.hex a.map a.s 200000@0@W PORTB 96$End$@a.c=void main(void){unsigned char a=200;unsigned char b=100;PORTB=(a+b)>>1;}@a.s=
build a.c a.hex a.map;sim a.hex a.map a.s 200000@0@W PORTB 00$W PORTB 01$W PORTB 04$W PORTC 02$End$@a.c=void main(void){PORTB=-1<1u;PORTB=-1L<1u;PORTB=sizeof 40000;PORTC=sizeof 0x9C40;}@a.s=
build a.c a.hex a.map;sim a.hex a.map a.s 200000@0@W PORTB FD$W PORTC FF$End$@a.c=void main(void){int a=-7;PORTB=a/2;PORTC=a%2;}@a.s=
build a.c a.hex a.map;sim a.hex a.map a.s 200000@0@R a.0 01$R a.1 02$R a.2 03$W PORTB 06$End$@a.c=unsigned char a[3]={1,2,3};void main(void){unsigned char*p;unsigned char s=0;for(p=a;p!=a+3;p++)s+=*p;PORTB=s;}@a.s=
build a.c a.hex a.map;sim a.hex a.map a.s 200000@0@W q.0 20$W q.1 00$End$@a.c=unsigned char x;unsigned char*q;void main(void){q=&x;}@a.s=
build a.c a.hex a.map;sim a.hex a.map a.s 200000@0@W PORTB 09$End$@a.c=const unsigned char t[2]={7,9};void main(void){PORTB=t[1];}@a.s=
# one branch of a bit, and the other
build a.c a.hex a.map;sim a.hex a.map a.s 20000@0@R PORTB 01$W PORTB 07$End$@a.c=unsigned char f(unsigned char a){return a;}void main(void){if(RB0)PORTB=f(7);else PORTC=1;}@a.s=input 01
build a.c a.hex a.map;sim a.hex a.map a.s 20000@0@R PORTB 00$W PORTC 01$End$@a.c=unsigned char f(unsigned char a){return a;}void main(void){if(RB0)PORTB=f(7);else PORTC=1;}@a.s=
# the handler is entered directly behind the write that makes an interrupt due
build a.c a.hex a.map;sim a.hex a.map a.s 1000@0@W INTCON 92$W PORTB 01$R INTCON 12$W INTCON 10$W PORTA 02$End$@a.c=void interrupt h(void){PORTB=1;INTF=0;}void main(void){INTCON=0x92;PORTA=2;}@a.s=
build a.c a.hex a.map;sim a.hex a.map a.s 0@0@@a.c=void main(void){PORTB=5;}@a.s=
# what is undefined in the source has code too
build a.c a.hex a.map@0@@a.c=unsigned char x;void main(void){PORTB=1/x;}
build a.c a.hex a.map@0@@a.c=unsigned char a[3]={1,2,3};void main(void){unsigned char*p;unsigned char s=0;for(p=a;p!=a+4;p++)s+=*p;PORTB=s;}
build a.c a.hex a.map@0@@a.c=unsigned char*q;void f(void){unsigned char a;q=&a;}void g(void){unsigned char b;PORTB=(q==&b);}void main(void){f();g();}
build a.c a.hex a.map;sim a.hex a.map a.s 1000@0@R PORTA 5A$W t.0 5A$R t.0 5A$W PORTB 5A$End$@a.c=unsigned char t;void main(void){t=PORTA;PORTB=t;}@a.s=input 5A
build a.c a.hex a.map;sim a.hex a.map a.s 1000@0@W TRISB 00$W PORTB 05$W PORTC FF$W TRISE 80$End$@a.c=void main(void){TRISB=0;PORTB=5;PORTC=255;TRISE=128;}@a.s=
build a.c a.hex a.map;sim a.hex a.map a.s 1000@0@W TRISB 00$W PORTB 05$W PORTC FF$W TRISE 80$End$@a.c=void main(void){TRISB=0;PORTB=5;PORTC=255;TRISE=128; }@a.s=
";

#[test]
fn programs_make_their_worked_events_on_the_chip(rt: HostRuntime) -> Result<(), Failure> {
    Ok(check_all(&rt, rt.alloc(), ON_THE_CHIP, "", 20)?)
}

// Whether two texts are built to the same HEX and the same map.
fn are_built_alike(alloc: Global, text: &str, other: &str) -> Result<bool, AllocError> {
    let (host, status) = host_behind(alloc, BUILD, text, "")?;
    let (behind, end) = host_behind(alloc, BUILD, other, "")?;
    let are_built = status == 0 && end == 0;
    Ok(are_built && is_same_file(&host, &behind, "a.hex") && is_same_file(&host, &behind, "a.map"))
}

// A blank more between two tokens changes neither file.
#[test]
fn layout_says_nothing(rt: HostRuntime) -> Result<(), Failure> {
    let text = "void main(void){TRISB=0;PORTB=5;PORTC=255;TRISE=128;}";
    let wide = "void main(void){TRISB=0;PORTB=5;PORTC=255;TRISE=128; }";
    assert!(rt;
        are_built_alike(rt.alloc(), text, wide)?,
        "the HEX and the map"
    );
    Ok(())
}

fn map_of(host: &MemoryHost) -> &[u8] {
    match host.files.get("a.map") {
        Some(map) => map.as_slice(),
        None => b"".as_slice(),
    }
}

// Main's frame has the temporary bytes of the assignment: one of the constant, and two of the address.
#[test]
fn a_map_has_its_lines(rt: HostRuntime) -> Result<(), Failure> {
    let (host, status) = host_behind(rt.alloc(), BUILD, LED, "")?;
    let map = map_of(&host);
    let begins = map.starts_with(b"picc map 1\nmain ".as_slice());
    let ends = map.ends_with(b"\nframe main main 0020 3\nend\n".as_slice());
    assert!(rt;
        status == 0 && begins && ends && line_ends(map) == 5,
        "its lines"
    );
    Ok(())
}

// Texts, and the lines of their maps for objects and frames.
const PLACED: &str = "\
void main(void){PORTB=5;}@frame main main 0020 3$
unsigned char add(unsigned char a){unsigned char b;b=a;return b+1;}void interrupt h(void){PORTC=add(9);INTF=0;}void main(void){INTCON=0x90;PORTB=add(1);}@frame main main 0020 3$frame main add 0023 10$frame isr h 002D 3$frame isr add 0030 10$
unsigned char a[80],b[80],c[96],d[96];void main(void){}@static a 0020 80$static b 00A0 80$static c 0110 96$static d 0190 96$frame main main 0020 0$
";

// Whether a line of a map is that of an object or of a frame.
fn is_placed(line: &[u8]) -> bool {
    line.starts_with(b"static ".as_slice())
        || line.starts_with(b"const ".as_slice())
        || line.starts_with(b"frame ".as_slice())
}

// The lines of a map for objects and frames.
fn placed_lines(alloc: Global, map: &[u8]) -> Result<Vec<u8>, AllocError> {
    let mut lines = Vec::new(alloc);
    for line in map.split(|c| *c == b'\n') {
        if is_placed(line) {
            lines.extend_from_slice(line)?;
            lines.push(b'\n')?;
        }
    }
    Ok(lines)
}

// Whether a text is built, and objects and frames stand where the case has them.
fn is_case_placed(alloc: Global, case: &str) -> Result<bool, AllocError> {
    let (text, wanted) = cut(case);
    let (host, status) = host_behind(alloc, BUILD, text, "")?;
    let lines = placed_lines(alloc, map_of(&host))?;
    Ok(status == 0 && lines.as_slice() == bytes_of(alloc, wanted)?.as_slice())
}

#[test]
fn objects_and_frames_stand_where_they_were_worked_out(rt: HostRuntime) -> Result<(), Failure> {
    let mut count: u32 = 0;
    for case in PLACED.lines() {
        assert!(rt; is_case_placed(rt.alloc(), case)?, "{case}");
        count = count.saturating_add(1);
    }
    assert!(rt; count == 3, "{count} cases");
    Ok(())
}
