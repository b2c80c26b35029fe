//! Texts without their marks.

use crate::sources::{let_go, tree, with_lines};
use ca_canonical::unparse;
use ca_erase::{EraseError, erase};
use ca_lex::LONGEST_TEXT;
use std::alloc::Global;
use std::process::Abort;

/// Sources, and behind `=>` their annotated texts, with `$` for the end of a line.
const EMITTED: &str = "int main() { } => int main ( ) {$}$
class A { public: long n; void add(long v) { n += v; } void two(long v) { add(v); add(v + 1); } }; int main() { A *a = new A(); a->two(3); } => class A {$public :$long n ;$void add ( long v ) {$/*@lock*/ n += v ;$/*@unlock*/ }$void two ( long v ) {$/*@spawn*/ add ( v ) ;$add ( v + 1 ) ;$}$} ;$int main ( ) {$A * a = new A ( ) ;$/*@parallel*/ a -> two ( 3 ) ;$}$
class Graph { public: bool mark; long value; long sum; Graph *left; Graph *right;$ void init(long v, Graph *l, Graph *r) { value = v; left = l; right = r; }$ void visit(long p) { sum = sum + p; if (!mark) { mark = true;$ if (left != nullptr) left->visit(value); if (right != nullptr) right->visit(value); } } };$ int main() { Graph *a = new Graph(); a->init(3, a, nullptr); a->visit(1); return 0; } => class Graph {$public :$bool mark ;$long value ;$long sum ;$Graph * left ;$Graph * right ;$void init ( long v , Graph * l , Graph * r ) {$value = v ;$left = l ;$right = r ;$}$void visit ( long p ) {$/*@lock*/ sum = sum + p ;$if ( ! mark ) {$mark = true ;$if ( left != nullptr ) /*@unlock*/ /*@spawn*/ left -> visit ( value ) ;$if ( right != nullptr ) /*@unlock*/ /*@spawn*/ right -> visit ( value ) ;$}$/*@unlock*/ }$} ;$int main ( ) {$Graph * a = new Graph ( ) ;$a -> init ( 3 , a , nullptr ) ;$/*@parallel*/ a -> visit ( 1 ) ;$}$
class Acc { public: long sum; void add(long p) { sum = sum + p; } void sub(long p) { sum = sum - p; }$ void mul(long p) { sum = sum * p; } void mix(long p) { add(p); mul(p); } void par(long p) { add(p); sub(p); } };$ int main() { Acc *a = new Acc(); a->mix(2); a->par(3); } => class Acc {$public :$long sum ;$void add ( long p ) {$/*@lock*/ sum = sum + p ;$/*@unlock*/ }$void sub ( long p ) {$/*@lock*/ sum = sum - p ;$/*@unlock*/ }$void mul ( long p ) {$sum = sum * p ;$}$void mix ( long p ) {$add ( p ) ;$mul ( p ) ;$}$void par ( long p ) {$/*@spawn*/ add ( p ) ;$sub ( p ) ;$}$} ;$int main ( ) {$Acc * a = new Acc ( ) ;$a -> mix ( 2 ) ;$/*@parallel*/ a -> par ( 3 ) ;$}$
class Cell { public: long sum; long base; long last; Cell *next;$ void late(long p) { sum = sum + p; if (next != nullptr) next->late(p); last = sum; }$ void early(long p) { sum = sum + p; if (next != nullptr) next->early(base); } };$ int main() { } => class Cell {$public :$long sum ;$long base ;$long last ;$Cell * next ;$void late ( long p ) {$sum = sum + p ;$if ( next != nullptr ) next -> late ( p ) ;$last = sum ;$}$void early ( long p ) {$/*@lock*/ sum = sum + p ;$if ( next != nullptr ) /*@unlock*/ /*@spawn*/ next -> early ( base ) ;$/*@unlock*/ }$} ;$int main ( ) {$}$
class Bin { public: long n; void add(long v) { n = n + v; } };$ class Pair { public: Bin *b[2];$ void fill() { b[0] = new Bin(); b[1] = new Bin(); } };$ int main() { Pair *s = new Pair(); s->fill();$ for (long i = 0; i < 2; i++) s->b[i]->add(i + 1);$ } => class Bin {$public :$long n ;$void add ( long v ) {$/*@lock*/ n = n + v ;$/*@unlock*/ }$} ;$class Pair {$public :$Bin * b [ 2 ] ;$void fill ( ) {$b [ 0 ] = new Bin ( ) ;$b [ 1 ] = new Bin ( ) ;$}$} ;$int main ( ) {$Pair * s = new Pair ( ) ;$s -> fill ( ) ;$/*@parallel*/ for ( long i = 0 ; i < 2 ; i += 1 ) s -> b [ i ] -> add ( i + 1 ) ;$}$
class Bins { public: long a[3]; void add(long i, long v) { a[i] = a[i] + v; } };$class Set { public: Bins *b[1000]; void fill() { for (long i = 0; i < 1000; i++) b[i] = new Bins(); }$void all(long v) { for (long i = 0; i < 1000; i++) b[i]->add(i % 3, v); } };$int main() { Set *s = new Set(); s->fill(); s->all(7); s->all(8); } => class Bins {$public :$long a [ 3 ] ;$void add ( long i , long v ) {$/*@lock*/ a [ i ] = a [ i ] + v ;$/*@unlock*/ }$} ;$class Set {$public :$Bins * b [ 1000 ] ;$void fill ( ) {$for ( long i = 0 ; i < 1000 ; i += 1 ) b [ i ] = new Bins ( ) ;$}$void all ( long v ) {$for ( long i = 0 ; i < 1000 ; i += 1 ) /*@spawn*/ b [ i ] -> add ( i % 3 , v ) ;$}$} ;$int main ( ) {$Set * s = new Set ( ) ;$s -> fill ( ) ;$/*@parallel*/ s -> all ( 7 ) ;$/*@parallel*/ s -> all ( 8 ) ;$}$
class A { public: long n; void add(long v) { n += v; } void both(long v) { add(v); add(v); } void none() { } };$int main() { A *a = new A(); for (long i = 0; i < 2; i++) a->both(i); while (a->n < 9) a->both(1); { a->none(); } } => class A {$public :$long n ;$void add ( long v ) {$/*@lock*/ n += v ;$/*@unlock*/ }$void both ( long v ) {$/*@spawn*/ add ( v ) ;$add ( v ) ;$}$void none ( ) {$}$} ;$int main ( ) {$A * a = new A ( ) ;$/*@parallel*/ for ( long i = 0 ; i < 2 ; i += 1 ) a -> both ( i ) ;$while ( a -> n < 9 ) /*@parallel*/ a -> both ( 1 ) ;${$a -> none ( ) ;$}$}$
class A { public: long n; A *q; A *b[2]; void add(long v) { n += v; }$ void go(long v) { n += v; add(v); this->add(1); q->add(v); this->q->add(v); this->q->add(1);$ b[v]->add(v); b[v]->add(1); b[1]->add(v); { b[1]->add(2); add(3); } add(4); if (v < 3) add(5); add(6);$ for (long i = 0; i < v; i++) { add(i); add(7); } } };$ int main() { A *a = new A(); a->go(1); } => class A {$public :$long n ;$A * q ;$A * b [ 2 ] ;$void add ( long v ) {$/*@lock*/ n += v ;$/*@unlock*/ }$void go ( long v ) {$/*@lock*/ n += v ;$/*@unlock*/ /*@spawn*/ add ( v ) ;$this -> add ( 1 ) ;$/*@unlock*/ /*@spawn*/ q -> add ( v ) ;$/*@unlock*/ /*@spawn*/ this -> q -> add ( v ) ;$this -> q -> add ( 1 ) ;$/*@unlock*/ /*@spawn*/ b [ v ] -> add ( v ) ;$b [ v ] -> add ( 1 ) ;$/*@unlock*/ /*@spawn*/ b [ 1 ] -> add ( v ) ;${$/*@unlock*/ /*@spawn*/ b [ 1 ] -> add ( 2 ) ;$/*@unlock*/ /*@spawn*/ add ( 3 ) ;$}$/*@unlock*/ /*@spawn*/ add ( 4 ) ;$if ( v < 3 ) /*@unlock*/ /*@spawn*/ add ( 5 ) ;$/*@unlock*/ /*@spawn*/ add ( 6 ) ;$for ( long i = 0 ; i < v ; i += 1 ) {$/*@unlock*/ /*@spawn*/ add ( i ) ;$add ( 7 ) ;$}$/*@unlock*/ }$} ;$int main ( ) {$A * a = new A ( ) ;$/*@parallel*/ a -> go ( 1 ) ;$}$
class A { public: long n; long k; A *q; void add(long v) { n += v; } void up(long v) { k += v; }$ void ask(long v) { long t = k; q->add(v); } };$ int main() { A *a = new A(); for (long i = 0; i < 2; i++) { a->ask(i); a->up(i); } a->ask(1); } => class A {$public :$long n ;$long k ;$A * q ;$void add ( long v ) {$/*@lock*/ n += v ;$/*@unlock*/ }$void up ( long v ) {$/*@lock*/ k += v ;$/*@unlock*/ }$void ask ( long v ) {$/*@lock*/ long t = k ;$/*@unlock*/ /*@spawn*/ q -> add ( v ) ;$/*@unlock*/ }$} ;$int main ( ) {$A * a = new A ( ) ;$/*@parallel*/ for ( long i = 0 ; i < 2 ; i += 1 ) {$a -> ask ( i ) ;$a -> up ( i ) ;$}$/*@parallel*/ a -> ask ( 1 ) ;$}$";

/// A text without its marks.
fn erased<R: Abort>(rt: &R, alloc: Global, text: &str) -> Vec<u8> {
    assert!(rt; text.len() <= LONGEST_TEXT);
    erase(alloc, text.as_bytes()).expect(rt, "no bad mark")
}

/// Whether the annotated text of a row without its marks is the canonical text of its source.
fn is_canonical<R: AllocGlobal + Abort>(rt: &R, row: &str) -> bool {
    let (text, marked) = row.split_once(" => ").expect(rt, "a row");
    let text = with_lines(rt, text);
    let marked = with_lines(rt, marked);
    let canonical = unparse(rt.alloc(), tree(rt, &text)).expect(rt, "a text");
    let found = erased(rt, rt.alloc(), &marked);
    found.as_slice() == canonical.as_slice()
}

#[test]
fn annotated_texts_are_erased(rt: HostRuntime) {
    for row in EMITTED.lines() {
        assert!(rt; is_canonical(&rt, row), "{row}");
    }
}

/// Texts with marks, and behind `=>` texts without them, with `$` for the end of a line.
const ERASED: &str = " => 
a /*@lock*/ b => a b
a/*@unlock*/b => ab
/*@spawn*/  a =>  a
a /*@lock*/ /*@unlock*/ /*@spawn*/ b => a b
a // /*@lock*/ b$ => a // /*@lock*/ b$
a /* /*@lock*/ b => a /* /*@lock*/ b
a / b /*@parallel*/ => a / b ";

/// Whether a row tells a text without its marks.
fn is_erased<R: AllocGlobal + Abort>(rt: &R, row: &str) -> bool {
    let (text, wanted) = row.split_once(" => ").expect(rt, "a row");
    let text = with_lines(rt, text);
    let wanted = with_lines(rt, wanted);
    let found = erased(rt, rt.alloc(), &text);
    found.as_slice() == wanted.as_bytes()
}

#[test]
fn marks_are_left_out(rt: HostRuntime) {
    for row in ERASED.lines() {
        assert!(rt; is_erased(&rt, row), "{row}");
    }
}

/// The line and the column of the first bad mark of a text, with `$` for the end of a line.
const BAD: &str = "1 14 int main() { /*@hold*/ }
1 1 /*@lock
2 4 a /*@lock*/$ b /*@locks*/
1 1 /*@ lock*/
2 14 // /*@hold*/$/* /*@hold*/ /*@Lock*/";

/// Whether a row tells the first bad mark.
fn has_bad_mark<R: AllocGlobal + Abort>(rt: &R, row: &str) -> bool {
    let (line, row) = row.split_once(' ').expect(rt, "a line");
    let (column, text) = row.split_once(' ').expect(rt, "a column");
    let line: u32 = line.parse().expect(rt, "a number");
    let column: u32 = column.parse().expect(rt, "a number");
    let text = with_lines(rt, text);
    assert!(rt; text.len() <= LONGEST_TEXT);
    let found = erase(rt.alloc(), text.as_bytes());
    let is_bad = match &found {
        Err(EraseError::BadMark(at)) => at.line == line && at.column == column,
        _ => false,
    };
    let_go(found);
    is_bad
}

#[test]
fn bad_marks_are_told(rt: HostRuntime) {
    for row in BAD.lines() {
        assert!(rt; has_bad_mark(&rt, row), "{row}");
    }
}
