//! Texts that break a rule on names and types, with its kind and the line, and texts close to them that break none.

use crate::answers::{Question, checked};
use std::test::Fail;

const DECLARATIONS: &str = r#"Name 1 => void main(void){y=1;}
Name 1 => void main(void){f();}
Name 1 => void main(void){struct t*p;}
Name 1 => void f(struct t*p);
Name 1 => void main(void){(struct t)1;}
Name 1 => void main(void){RE3=1;}
Name 1 => void main(void){{int x;}x=1;}
Name 1 => void f(char a[sizeof n],int n);
Name 1 => void f(int n[sizeof n]);
Name 1 => void f(int n);char a[sizeof n];
Name 1 => void main(void){struct t{int a;}x;}
taken => struct t*f(void);struct s{struct u*p;struct s*q;};struct u{int a;};
taken => void f(int n,char a[sizeof n]);void g(int n,char a[sizeof n]){}
Again 1 => int x;int x;
Again 1 => int x;void x(void);
Again 1 => int x(void);int x;
Again 1 => void f(int a){int a;}
Again 1 => void f(int a,int a);
Again 1 => struct s{int a;};struct s{int b;};
Again 1 => struct s{int a;char a;};
Again 1 => int f(int a);int f(char a);
Again 1 => int f(int a);char f(int a);
Again 1 => void f(void){}void f(void){}
Again 1 => int f(void);struct s f(void);
Again 1 => int f(void);int f(void)(void);
Again 1 => int x;void x[3];
Again 1 => int x;void x;
Again 1 => int a;int a[2](void){}
Again 1 => const int f(void);int f(void);
Again 1 => struct s{int a;};struct s{const int b;};
Again 1 => struct s{int a;};void main(void){struct s{int b;}x;}
taken => void f(int a){{int a;}}
taken => int f(int a);int f(const int b){return b;}int f(int c);
taken => void f();void f(void);
taken => struct s{int s;}s;
taken => void main(void){int PORTB,GIE;PORTB=GIE;}
Declare 1 => long long x;
Declare 1 => unsigned void x;
Declare 1 => unsigned signed x;
Declare 1 => short char x;
Declare 1 => short long x;
Declare 1 => const x;
Declare 1 => const const int x;
Declare 1 => struct s{int a;}int x;
Declare 1 => static register int x;
Declare 1 => int interrupt x;
Declare 1 => void main(void){int interrupt x;}
Declare 1 => void f(int interrupt x);
Declare 1 => struct s{static int a;};
Declare 1 => void f(static int a);
Declare 1 => void f(auto int a);
Declare 1 => auto int x;
Declare 1 => register int x;
Declare 1 => struct s{const int a;};
Declare 1 => struct s{int*const a;};
Declare 1 => struct s{const char t[2];};
Declare 1 => struct s{int f(void);};
Declare 1 => void main(void){int f(void);}
Declare 1 => struct s{int a;};struct s f(void);
Declare 1 => struct s{int a;};void f(struct s a);
Declare 1 => int f(void)[2];
Declare 1 => void f(int g(void));
Declare 1 => void f(void);void f(int g(void));
Declare 1 => struct s{int a;};void f(void);void f(struct s a);
Declare 1 => struct s*p;void f(struct s a);
Declare 1 => void f(void a[][2]);
Declare 1 => void f(int a[2](void));
Declare 1 => int f(void)(void){}
Declare 1 => int a[2](void);
Declare 1 => void a[2];
Declare 1 => void main(void){struct{int a;}x;}
Declare 1 => struct s{struct t{int a;}b;};
Declare 1 => struct s{int a;}x;void main(void){(struct s)x;}
Declare 1 => void main(void){(static int)1;}
Declare 1 => int a[(register int)1];
Declare 1 => void f(int a[(register int)1]);
taken => int*const const volatile p;
taken => int unsigned long const static volatile x;
taken => void interrupt interrupt f(void){}
taken => void interrupt f(void);void f(void){}
taken => void f(int,char*){}
taken => void f(register int a);
taken => void main(void){auto int x;register int y;}
taken => struct s{const char*p;};
taken => void main(void){(register int)1;}
taken => void f(void*a,char b[]);
Declare 1 => void f(void b[]);
Declare 1 => void f(void b[2]);
Size 1 => int a[0];
Size 1 => int a[-1];
Size 1 => char a[65536];
Size 1 => int a[32768];
Size 1 => void main(void){char a[256][256];}
Size 1 => struct s{char a[65535],b;};struct s x;
taken => char a[65535];
taken => struct s{char a[65535],b;};struct s*p;
Incomplete 1 => void x;
Incomplete 1 => struct s x;
Incomplete 1 => int a[];
Incomplete 1 => int a[2][];
Incomplete 1 => struct s{struct s a;};
Incomplete 1 => struct s{void a;};
Incomplete 1 => struct s{int a[];};
Incomplete 1 => void f(void a);
Incomplete 1 => struct s*p;void f(struct s a[][2]);
Incomplete 1 => void f(int a[][2][]);
Incomplete 1 => void f(void){}void main(void){sizeof f();}
Incomplete 1 => void main(void){sizeof(void);}
Incomplete 1 => int a[]={sizeof a};
taken => void f(int a[],int b[][3]);
taken => void f(int a[][]);struct s*p;void g(struct s a[]);
// On a later line, or for another rule.
Name 2 => int f(void);void main(void){$sizeof f(z);}
Name 2 => int f(int a);void main(void){$f(z);}
Declare 2 => int f(void);void f($int g(void));
Name 2 => void main(void){sizeof(int$struct s);}
Declare 1 => void f(int$interrupt$x);
Declare 2 => int interrupt$x;
Incomplete 2 => void f(void$x);
Incomplete 1 => void f(const$void);
Again 4 => int f(void);void$f(int$a,int$a);"#;

#[test]
fn declarations_are_taken_or_refused(rt: HostRuntime) -> Result<(), Fail> {
    assert_eq!(rt;
        checked(&rt, rt.alloc(), Question::Rule, DECLARATIONS)?,
        120
    );
    Ok(())
}

const EXPRESSIONS: &str = r#"Member 1 => struct s{int a;}x;void main(void){x.b;}
Member 1 => int x;void main(void){x.a;}
Member 1 => struct s{int a;}x;void main(void){x->a;}
Member 1 => struct s*p;void main(void){p->a;}
Member 1 => struct s{int a;}x;void main(void){(1,x).a;}
taken => struct s{int a;}x[2];void main(void){x->a=1;(*x).a=2;x[1].a=3;}
Call 1 => int x;void main(void){x();}
Call 1 => void f(void){}void main(void){(f)();}
Call 1 => void f(void){}void main(void){f(1);}
Call 1 => void f(int a,int b){}void main(void){f(1);}
taken => void f(int a,char*b){}void main(void){f(1,0);}
Address 1 => void main(void){&1;}
Address 1 => void main(void){&PORTB;}
Address 1 => void main(void){&RB0;}
Address 1 => void f(void){}void main(void){&f;}
Address 1 => const int x;void main(void){&x;}
Address 1 => void main(void){register int x;&x;}
Address 1 => void main(void){register int a[2];int*p=a;&a[0];}
Address 1 => void main(void){register int a[2];int*p=a;&*(a+1);}
Address 1 => void main(void){register int a[2];&*(1+a);}
Address 1 => void main(void){register int a[2];&*a;}
Address 1 => void main(void){register int a[2];&(a+1)[0];}
Address 1 => void main(void){register int a[2][2];&a[1][1];}
Address 1 => void f(register int a[2]){register int b[2];&*(b+1);}
Address 1 => const struct s{int a;}x;void main(void){&x.a;}
Address 1 => const char t[2];void main(void){*t;}
Address 1 => const char t[2];void main(void){t+z;}
Address 1 => const char t[2];void main(void){t=1;}
Address 1 => const char t[2][2];void main(void){t[1];}
taken => void f(register int a[2]){a[0]=a[1];&a[0];&*(a+1);}
taken => void main(void){int a[2];&*(a+1);&*a;}
taken => const char t[2][2];void main(void){t[1][0];1[t][1];sizeof t;sizeof t[0];}
taken => struct s{char a[2];};void f(const struct s*p){const char*q=p->a;q=&p->a[1];}
Assign 1 => void main(void){1=2;}
Assign 1 => int x;void main(void){-x=1;}
Assign 1 => void f(void){}void main(void){f=1;}
Assign 1 => const int x;void main(void){x=1;}
Assign 1 => const int*p;void main(void){*p=1;}
Assign 1 => const struct s{int a;}x;void main(void){x.a=1;}
Assign 1 => int a[2];void main(void){a=0;}
Assign 1 => void main(void){1++;}
Assign 1 => const int x;void main(void){--x;}
Assign 1 => int a[2];void main(void){a++;}
Operand 1 => int*p;void main(void){p*2;}
Operand 1 => int*p;void main(void){1<<p;}
Operand 1 => int*p;void main(void){p&1;}
Operand 1 => int*p;void main(void){~p;}
Operand 1 => int*p;void main(void){-p;}
Operand 1 => int*p;void main(void){p+p;}
Operand 1 => int*p;void main(void){1-p;}
Operand 1 => void*p;void main(void){p+1;}
Operand 1 => struct s*p;void main(void){p+1;}
Operand 1 => struct s*p;void main(void){p++;}
Operand 1 => int*p;char*q;void main(void){p-q;}
Operand 1 => int*p;char*q;void main(void){p<q;}
Operand 1 => int*p;void main(void){p<0;}
Operand 1 => int*p;char*q;void main(void){p==q;}
Operand 1 => int*p;void main(void){p==1;}
Operand 1 => void f(void){}void main(void){!f();}
Operand 1 => void f(void){}void main(void){1&&f();}
Operand 1 => void f(void){}void main(void){f()?1:2;}
Operand 1 => void f(void){}void main(void){1?f():1;}
Operand 1 => int*p;char*q;void main(void){1?p:q;}
Operand 1 => int*p;const int*q;void main(void){1?p:q;}
Operand 1 => void f(void){}void main(void){if(f());}
Operand 1 => void f(void){}void main(void){for(;f(););}
Operand 1 => struct s{int a;}x;void main(void){while(x);}
Operand 1 => void main(void){*1;}
Operand 1 => void*p;void main(void){*p;}
Operand 1 => int*p;void main(void){(int)p;}
Operand 1 => void main(void){(int*)1;}
Operand 1 => struct s{int a;}x;void main(void){(int)x;(void)x;}
Operand 1 => int*p;void main(void){switch(p){}}
Operand 1 => void f(void){}void main(void){f;}
Operand 1 => void f(void){}void main(void){(void)f;}
Operand 1 => void f(void){}void main(void){int a[f];}
Operand 1 => void f(void){}int x=f;
Operand 1 => void f(int a){}void main(void){f(f);}
Operand 1 => void f(void){}int x;void main(void){x=f;}
Operand 1 => void f(int a[][]){a[0];}
Operand 1 => struct s*p;void f(struct s a[]){a+1;}
Operand 1 => void f(void){}void main(void){sizeof f;}
Operand 1 => void main(void){sizeof RB0;}
Operand 1 => struct s{int a;}x;void main(void){x+1;}
taken => int*p;const int*q;void main(void){p-q;p<q;p==q;}
taken => int*p;void*v;void main(void){p==v;v!=p;p==0;'\0'!=p;p==(char*)0;}
taken => void f(void){}void main(void){1?f():f();}
taken => int*p;void main(void){1?p:0;1?(char*)0:p;}
taken => int*p;void main(void){p=1?(int*)0:(char*)0;}
Convert 1 => int*p;void main(void){p=1;}
Convert 1 => int*p;int x;void main(void){x=p;}
Convert 1 => char*p;unsigned char*q;void main(void){p=q;}
Convert 1 => char*p;const char*q;void main(void){q=p;p=q;}
Convert 1 => char*p;const void*q;void main(void){q=p;p=q;}
Convert 1 => struct s{int a;}x;struct t{int a;}y;void main(void){x=y;}
Convert 1 => struct s{int a;}x,y;void main(void){x=(1,y);}
Convert 1 => int f(void)=1;
Convert 1 => void f(char*p){}void main(void){f(1);}
Convert 1 => int f(void){return(char*)0;}
Convert 1 => void main(void){char*p=1;}
Convert 1 => void main(void){char*p="a";}
Convert 1 => int i,*p;void main(void){i+=p;}
Convert 1 => int*p,*q;void main(void){p-=q;}
Convert 1 => void main(void){char a[3]={"ab"};}
Convert 1 => void main(void){char*p[1]={"ab"};}
Convert 1 => char*p;void main(void){p=1?(int*)0:(char*)0;}
taken => char*p;void*q;void main(void){q=p;p=q;p=0;p=(int*)0;}
taken => struct s{int a;}x,y;void main(void){x=y;}
taken => int*p;void main(void){p+=1;p-=1L;++p;p--;}
// On a later line, or for another rule.
Name 1 => void main(void){5=y;}
Operand 4 => int*p;$void main(void){$PORTB=1;$p$*$2;}
Operand 2 => int*p;void main(void){$($p)*2;}
Operand 1 => void f(void){}void main(void){sizeof$f;}
Operand 2 => void f(void){}void main(void){(void)$f;}
Operand 3 => int*p;void main(void){$($p*2);}
Operand 3 => struct s{int a;}x;void main(void){while($($x));}
Convert 2 => void f(char*p){}void main(void){$f($1);}
Convert 3 => int*p;void main(void){int a[1]={$($p)};}
Convert 2 => int*p;void main(void){int$a$=$p;}
Convert 2 => void main(void){int x;char$*p$=$"a";}"#;

#[test]
fn expressions_are_taken_or_refused(rt: HostRuntime) -> Result<(), Fail> {
    assert_eq!(rt; checked(&rt, rt.alloc(), Question::Rule, EXPRESSIONS)?, 120);
    Ok(())
}

const INITIAL_VALUES: &str = r#"Constant 1 => int n;int a[n];
Constant 1 => int a[1/0];
Constant 1 => int a[(0,1)];
Constant 1 => int x=(-32767-1)/-1;
Constant 1 => int x=1<<16;
Constant 1 => int x;int y=x;
Constant 1 => char c="a";
Constant 1 => char a[3]={"ab"};
Constant 1 => char c={"a"};
Constant 1 => void main(void){int x;switch(x){case x:;}}
taken => int x=1||1/0,y=0?1%0:2;
taken => int x;int y=(int)sizeof x;
Initializer 1 => int a[2]={1,2,3};
Initializer 1 => struct s{int a;}x={1,2};
Initializer 1 => int x={1,2};
Initializer 1 => int a[2]=1;
Initializer 1 => int a[]=1;
Initializer 1 => int a[2][2]={1,2};
Initializer 1 => struct s{int a;};struct s x;struct s y=x;
Initializer 1 => struct s{int a;};void main(void){struct s y=1;}
Initializer 1 => struct s{int a;}x;struct t{int a;}y;void main(void){struct s z[1]={y};}
Initializer 1 => char a[2]="abc";
Initializer 1 => char*p[1]={"ab"};
Initializer 1 => struct s{int a;}x;void main(void){struct s y=(1,x);}
Initializer 1 => int a[3]="ab";
Initializer 1 => char*p="ab";
Initializer 1 => int a[2];int*p=a+1;
Initializer 1 => int a[2];int*p=&a[0];
Initializer 1 => int x;void main(void){static int*p=&x;int y;static int*q=&y;}
taken => int x={1};
taken => int x={{1}};
taken => int a[2][2]={{1},{2,3},};
taken => struct s{int a;}x;void main(void){struct s y=x;}
taken => struct s{int a;}x;struct t{struct s a;int b;};void main(void){struct t y={x,1},z={{1},1};}
taken => char a[3]="abc";unsigned char b[]="";signed char c[9]="\0";
taken => int x,a[2];int*p=&x,*q=a,*r=0,*s=(char*)0,*t=(&x);
// On a later line, or for another rule.
Name 1 => int a[2]={1,2,z};
Convert 1 => int x;char*p=&x;
Constant 4 => int x;int y$=$($x);
Convert 2 => int x;char$*p$=$&x;
Convert 3 => int x;char*p[1]={$($&x)};
Size 2 => int a[($0)];
Name 1 => struct s{char a;int b[2];char c[3];}x={1,{-2},"ab"};long l=0x12345678;int*p=&y;void f(int a){int y;static char k='\n';{static int*q=x.b;}}"#;

#[test]
fn initial_values_are_taken_or_refused(rt: HostRuntime) -> Result<(), Fail> {
    assert_eq!(rt;
        checked(&rt, rt.alloc(), Question::Rule, INITIAL_VALUES)?,
        43
    );
    Ok(())
}

const STATEMENTS: &str = r#"Return 1 => void f(void){return 1;}
Return 1 => int f(void){return;}
Return 1 => void f(void){}void g(void){return f();}
taken => int f(int x){if(x)return 1;}
Jump 1 => void main(void){break;}
Jump 1 => void main(void){continue;}
Jump 1 => void main(void){switch(1){case 1:continue;}}
Jump 1 => void main(void){switch(1){default:default:;}}
Jump 1 => void main(void){switch(PORTB){case -1:case 65535:;}}
taken => void main(void){for(;;){switch(1){case 1:continue;default:break;}break;}}
taken => void main(void){switch(1L){case -1:case 65535:;}}"#;

#[test]
fn statements_are_taken_or_refused(rt: HostRuntime) -> Result<(), Fail> {
    assert_eq!(rt; checked(&rt, rt.alloc(), Question::Rule, STATEMENTS)?, 11);
    Ok(())
}

// Texts with `typedef` and `enum`.
const TYPE_NAMES: &str = r#"Name 1 => enum e x;
Name 1 => void main(void){enum e x;}
Name 1 => enum e{A=sizeof(enum e)};
Name 1 => enum{A=B,B};
Name 1 => enum{A=A};
Name 1 => void f(enum{A}x);char c[A+1];
Name 1 => void main(void){(enum e)1;}
Name 1 => enum e;
Name 1 => void main(void){enum e*p;}enum e{A};
Again 1 => enum e{A};struct e s;
Again 1 => struct s{int a;};enum s x;
Again 1 => struct s{int a;};enum s{A};
Again 1 => struct s*p;enum s{A};
Again 1 => enum e{A};struct e{int a;};
Again 1 => enum e{A};enum e{B};
Again 1 => enum{A,A};
Again 1 => int A;enum{A};
Again 1 => enum{A};int A;
Again 1 => enum{A};void A(void);
Again 1 => typedef int T,T;
Again 1 => int T;typedef int T;
Again 1 => void f(void);typedef int f(void);
Again 1 => int T;typedef int T=1;
Again 1 => enum e{A};void main(void){enum e{B}x;}
Again 1 => enum e{A};void main(void){struct e*p;}
Again 1 => enum e{A};void main(void){(struct e*)0;}
Again 1 => enum e{A};void main(void){(enum e{B})0;}
Again 1 => enum e{A};void main(void){(struct e{int a;}*)0;}
Again 1 => struct s{int a;};void main(void){sizeof(enum s);}
Again 1 => void f(int A,enum{A}x);
Again 1 => void f(enum{A}x){int A;}
Again 1 => struct t{enum t{A}x;};
Declare 1 => typedef int T;T unsigned x;
Declare 1 => typedef unsigned char u8;void main(void){u8 u8;}
Declare 1 => typedef int T;T T;
Declare 1 => typedef const int T;const T x=1;
Declare 1 => typedef volatile int T;volatile T x;
Declare 1 => typedef const int A[2];const A x={1,2};
Declare 1 => typedef static int T;
Declare 1 => typedef register int T;
Declare 1 => typedef typedef int T;
Declare 1 => typedef const const int T;
Declare 1 => typedef int;
Declare 1 => typedef int T=1;
Declare 1 => typedef int T=y;
Declare 1 => typedef int T(void);
Declare 1 => typedef int f(void){return 1;}
Declare 1 => typedef int f(void){}
Declare 1 => void main(void){typedef int T;}
Declare 1 => void f(typedef int T);
Declare 1 => struct s{typedef int T;};
Declare 1 => void main(void){(typedef int)1;}
Declare 1 => typedef int interrupt T;
Declare 1 => typedef void V[3];
Declare 1 => typedef void V;V x[3];
Declare 1 => typedef const int T;struct s{T a;};
Declare 1 => void main(void){enum{A}x;}
Declare 1 => void main(void){enum e{A}x;}
Declare 1 => struct s{enum{A}x;};
Declare 1 => struct s{enum e{A}x;};
Declare 1 => void main(void){(enum{A})1;}
Declare 1 => void main(void){sizeof(enum e{A});}
Declare 1 => typedef void V;void f(V x[]);
Declare 1 => typedef int A[3];A f(void);
Declare 1 => typedef struct s{int a;}S;S f(void);
Declare 1 => typedef struct s{int a;}S;void f(S x);
Declare 1 => enum e{A}int x;
Declare 1 => enum e{A};enum e unsigned x;
Declare 1 => typedef int T;void f(int T);
Declare 1 => enum{A}interrupt;
Declare 1 => typedef int T;void main(void){(static T)1;}
Declare 1 => void main(void){void f(enum{A}x);}
Size 1 => typedef int T[0];
Size 1 => typedef char B[60000];B x[2];
Incomplete 1 => typedef struct s S;S x;
Incomplete 1 => typedef void V;void f(V);
Incomplete 1 => typedef int A[];A x;
Incomplete 1 => typedef void V;void main(void){sizeof(V);}
Incomplete 1 => typedef struct s S;struct t{S a;};
Incomplete 1 => typedef struct s A[3];A x;
Incomplete 1 => typedef struct s A[3];A x;struct s{int a;};
Incomplete 1 => typedef struct s A[3];char c[sizeof(A)];
Incomplete 1 => typedef struct s A[2];struct s{A a;};
Incomplete 1 => typedef struct s A[2];void main(void){A x;}
Incomplete 1 => typedef struct s A[3];A*p;
Incomplete 1 => typedef struct s A[1][2][3];struct s{int a;};A x;
Operand 1 => typedef struct s A[3];struct s{int a;};A*p;void main(void){(A)p;}
Constant 1 => enum{A=32767,B};
Constant 1 => enum{A=32768};
Constant 1 => enum{A=-32769};
Constant 1 => int x;enum{A=x};
Constant 1 => enum{A=1/0};
Constant 1 => int n;typedef int T[n];
Initializer 1 => enum{A};char*p=A;
Call 1 => typedef int T,a[T()];
Call 1 => enum{A};void main(void){A();}
Address 1 => enum{A};void main(void){&A;}
Assign 1 => enum{A};void main(void){A=1;}
Operand 1 => enum{A};void main(void){char*p;if(p==A);}
Operand 1 => enum{A};void main(void){(char*)A;}
Operand 1 => typedef int T,a[T];
Operand 1 => typedef int T,a[sizeof T];
Convert 1 => enum{A};void main(void){char*p;p=A;}
// On several lines.
Again 2 => enum{A,$A};
Constant 2 => enum{A=1,$B=$(99999L)};
Constant 3 => int x;enum{A=1,$B=$(x)};
Again 3 => typedef int$T,$T;
Declare 1 => typedef$int;
Declare 1 => static$typedef int$T;
Declare 2 => typedef int$*T=0;
Again 2 => enum$e{A};struct$e x;
Declare 1 => typedef int T;T$unsigned x;
Name 2 => int x;$enum$e y;
Again 2 => enum e{A};$enum$e{B=y};
Declare 2 => void main(void){$enum${A=y}x;}
Declare 1 => typedef int f(void)${}
Incomplete 2 => typedef void V;void f($V);
Call 2 => typedef int T,a[$T()];"#;

const TYPE_NAMES_TAKEN: &str =
    r#"taken => typedef unsigned char u8;enum{OFF,ON=5,MORE};u8 x=MORE;void main(void){PORTB=x+ON;}
taken => typedef int T;T x;
taken => int typedef T;T x;
taken => typedef struct s S;S*p;struct s{int a;};S x;
taken => typedef struct s{int a;}S,*P;S x;P p=&x;
taken => typedef void V;V f(void);V*p;
taken => typedef int A[];A a={1,2},b={1,2,3};
taken => typedef char B[60000];typedef B C[2];char d[sizeof(C)==54464];
taken => typedef int A[3];void f(A a){a=a+1;}
taken => typedef const int A[3];void f(A a){a=a+1;}
taken => typedef int*const P;void f(P p);
taken => enum e{A,B,};enum e x=B;
taken => enum e{A};void main(void){enum e x;x=A;}
taken => enum{A=-32768,B,C=32767};
taken => enum{A=2,B=A+1};char c[B];
taken => enum{A,B};void main(void){switch(PORTA){case A:case B:;}}
taken => void f(enum e{A,B}x){PORTB=A;}enum e y;
taken => typedef int PORTB;PORTB x;
taken => enum{GIE};char c[GIE+1];
taken => struct s{int T;};typedef int T;struct s x,*p;void main(void){x.T=1;p->T=2;}
taken => typedef int T;struct T{T a;};struct T x;
taken => typedef int T;enum T{A};enum T x;
taken => typedef int T;T;
taken => typedef char*P;P p=(P)0;
taken => typedef unsigned int U;char c[(U)2];
taken => enum e{A};char c[sizeof(enum e)==2];
taken => typedef int T;void main(void){int x;x=sizeof(T)+(T)1;}
taken => typedef int I;const I x=1;volatile I y;
taken => typedef int T,U[sizeof(int)];U x;
taken => void f(int T){T=1;}typedef int T;T x;
taken => #define INT typedef int$INT T;T x;
taken => typedef int F;F f(F a){return a;}void main(void){f(1);}
taken => enum{A};void f(void){int A;A=1;}
taken => typedef struct{int a;}S;S x,y;void main(void){x=y;}
taken => typedef struct s S;void f(S*p);struct s{int a;};void f(S*p){p->a=1;}
taken => typedef struct s A[3];
taken => typedef struct s A[3];struct s{int a;};A x;char c[sizeof(A)==6];
taken => typedef struct s A[3];struct s{int a;};A*p;void main(void){(A*)p;}
taken => typedef struct s A[3];struct s{int a;};struct t{A x;}y;
taken => typedef struct s A[3];struct s{int a;};typedef A B[2];B x;
taken => typedef struct s A[3];struct s{int a;};A*f(void);
taken => typedef struct s A[2][3];struct s{int a;};A x;char c[sizeof(A)==12];
taken => typedef struct s A[3];typedef A B[2];struct s{int a;};B x;char c[sizeof(B)==12];
taken => typedef struct s U;typedef U A[3];struct s{int a;};A x;
taken => typedef struct s A[];struct s{int a;};A x={{1},{2}};
taken => typedef struct s A[3];void f(A x);struct s{int a;};void f(A x){x->a=1;}
taken => typedef int T;typedef T U;U x;
taken => typedef const char C;typedef volatile C D;D x=1;
taken => enum e{A}f(void);enum e f(void){return A;}
taken => typedef int A[2];A x[3];char c[sizeof x==12];
taken => enum e{A}x,y;enum e z;int*p=&x;
taken => typedef int T;void f(T);void f(int a){}
taken => typedef char C;void main(void){C a[2];a[0]=1;}
taken => typedef int A[2];A f;void g(A*p){}void main(void){g(&f);}
taken => enum{A,B=5,C};char x[A+1],y[B],z[C];
taken => enum e{A};typedef enum e E;E x=A;
taken => enum e{A};void main(void){enum e*p;}"#;

#[test]
fn types_and_numbers_have_names(rt: HostRuntime) -> Result<(), Fail> {
    assert_eq!(rt; checked(&rt, rt.alloc(), Question::Rule, TYPE_NAMES)?, 118);
    assert_eq!(rt;
        checked(&rt, rt.alloc(), Question::Rule, TYPE_NAMES_TAKEN)?,
        57
    );
    Ok(())
}
