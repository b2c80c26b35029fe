//! Canonical texts of whole sources.

use crate::sources::{tree, with_lines};
use ca_canonical::unparse;
use std::process::Abort;

/// Whether this is the canonical text of the tree of a source.
fn is_canonical<R: AllocGlobal + Abort>(rt: &R, source: &str, expected: &str) -> bool {
    let tree = tree(rt, source);
    let text = unparse(rt.alloc(), tree).expect(rt, "a text");
    text.as_slice() == expected.as_bytes()
}

/// Sources, and behind `=>` their canonical texts, with `$` for the end of a line.
const TEXTS: &str =
    "class A { public: long n; void add(long v) { n += v; } void two(long v) { add(v); add(v + 1); } }; int main() { A *a = new A(); a->two(3); } => class A {$public :$long n ;$void add ( long v ) {$n += v ;$}$void two ( long v ) {$add ( v ) ;$add ( v + 1 ) ;$}$} ;$int main ( ) {$A * a = new A ( ) ;$a -> two ( 3 ) ;$}$
class B; class A { public: long x, y[3]; B *p, *q; bool f(long a, B *b) { return a > 1; } }; int main() { } => class A {$public :$long x ;$long y [ 3 ] ;$B * p ;$B * q ;$bool f ( long a , B * b ) {$return a > 1 ;$}$} ;$int main ( ) {$}$
int main() { x++; y--; z *= 2; } => int main ( ) {$x += 1 ;$y -= 1 ;$z *= 2 ;$}$
int main() { return 0; } => int main ( ) {$}$
int main() { return 0; return 0; } => int main ( ) {$return 0 ;$return 0 ;$}$
int main() { return (0); } => int main ( ) {$return 0 ;$return 0 ;$}$
int main() { return 1; } => int main ( ) {$return 1 ;$}$
int main() { { } ; ; } => int main ( ) {${$} ;$;$}$
int main() { if (a) if (b) c(); else d(); } => int main ( ) {$if ( a ) if ( b ) c ( ) ;$else d ( ) ;$}$
int main() { if (a) { if (b) c(); } else while (true) d(1, -2); } => int main ( ) {$if ( a ) {$if ( b ) c ( ) ;$}$else while ( true ) d ( 1 , - 2 ) ;$}$
int main() { for (long i = 0; i < n; i++) p[i] = new A; } => int main ( ) {$for ( long i = 0 ; i < n ; i += 1 ) p [ i ] = new A ( ) ;$}$
int main() { print((-(a + b))->f); print((1)[(x)->y]); print(-(-x)); print(!(a == b)); } => int main ( ) {$print ( ( - ( a + b ) ) -> f ) ;$print ( ( 1 ) [ x -> y ] ) ;$print ( - - x ) ;$print ( ! ( a == b ) ) ;$}$
int main() { print(max((a), (b + 1)) * -min(1, (2))); print((max(a, b))->f); print((min(a, b))[max(0, 1)]); print(max(a | b, (b && c))); } => int main ( ) {$print ( max ( a , b + 1 ) * - min ( 1 , 2 ) ) ;$print ( ( max ( a , b ) ) -> f ) ;$print ( ( min ( a , b ) ) [ max ( 0 , 1 ) ] ) ;$print ( max ( a | b , b && c ) ) ;$}$
int main() { x &= (1 | 2); y |= (z); a->b[1] ^= max(x, y); } => int main ( ) {$x &= 1 | 2 ;$y |= z ;$a -> b [ 1 ] ^= max ( x , y ) ;$}$";

#[test]
fn writes_whole_texts(rt: HostRuntime) {
    for row in TEXTS.lines() {
        let (source, expected) = row.split_once(" => ").expect(&rt, "a row");
        let expected = with_lines(&rt, expected);
        assert!(rt; is_canonical(&rt, source, &expected), "{source}");
    }
}

/// The binary operators, with how strongly they bind.
const OPERATORS: &str = "|| 0
&& 1
| 2
^ 3
& 4
== 5
!= 5
< 6
> 6
<= 6
>= 6
+ 7
- 7
* 8
/ 8
% 8";

/// An operator and how strongly it binds.
fn operator<'a, R: Abort>(rt: &R, row: &'a str) -> (&'a str, u32) {
    let (text, strength) = row.split_once(' ').expect(rt, "a row");
    (text, strength.parse().expect(rt, "a strength"))
}

/// Whether a source that prints an expression has the canonical text that prints the other one.
fn prints<R: AllocGlobal + Abort>(rt: &R, given: &str, expected: &str) -> bool {
    let alloc = rt.alloc();
    let source = format!(in alloc; "int main() {{ print({given}); }}");
    let text = format!(in alloc; "int main ( ) {{\nprint ( {expected} ) ;\n}}\n");
    is_canonical(
        rt,
        &source.expect(rt, "a source"),
        &text.expect(rt, "a text"),
    )
}

/// An expression over two operators, for which it has `U` and `L`.
fn over<R: AllocGlobal + Abort>(rt: &R, text: &str, upper: &str, lower: &str) -> String {
    let text = text.replace(rt.alloc(), "U", upper).expect(rt, "a text");
    text.replace(rt.alloc(), "L", lower).expect(rt, "a text")
}

/// Whether an expression over two operators keeps its brackets, or else loses them.
fn keeps<R: AllocGlobal + Abort>(
    rt: &R,
    brackets: &str,
    bare: &str,
    operators: (&str, &str),
    kept: bool,
) -> bool {
    let (upper, lower) = operators;
    let given = over(rt, brackets, upper, lower);
    let expected = over(rt, if kept { brackets } else { bare }, upper, lower);
    prints(rt, &given, &expected)
}

#[test]
fn writes_each_operator_under_each_other(rt: HostRuntime) {
    for row in OPERATORS.lines() {
        let (upper, strength) = operator(&rt, row);
        for row in OPERATORS.lines() {
            let (lower, lower_strength) = operator(&rt, row);
            let both = (upper, lower);
            let left = keeps(
                &rt,
                "( a L b ) U c",
                "a L b U c",
                both,
                lower_strength < strength,
            );
            let right = keeps(
                &rt,
                "a U ( b L c )",
                "a U b L c",
                both,
                lower_strength <= strength,
            );
            assert!(rt; left && right, "{upper} over {lower}");
        }
    }
}
