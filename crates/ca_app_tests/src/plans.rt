//! Plans that are told: `pairs`, `plan` and `emit`.

use crate::calls::{Call, add, add_lines};
use crate::samples::{
    GRAPH_SHARES, OF_GRAPH_SHARES, OF_SEARCH_TREE, OF_TABLE_OF_SUMS, SEARCH_TREE, TABLE_OF_SUMS,
};
use crate::sources::{
    ACCUMULATOR, BINS, BOUND, CELLS, FIRST, GRAPH_VISIT, STACK, TWO_BINS, TWO_SUMS,
};
use std::alloc::Global;
use std::process::Abort;
use std::sync::Wait;
use std::thread::Threads;

/// Texts without classes, texts that have one tree but for places, and marks of statements of each kind. In the last four the condition
/// of loops reads what their calls write; a call of a marked operation in a marked loop has no mark of its own, and one elsewhere has it;
/// a follower stands directly behind a call of its list on an equal receiver, where a bare call has the receiver `this`; and an operation
/// that is free in one extent of a marked call or loop and not in another takes its lock. A line with a text stands
/// before the lines of what is told of it: the command, `:` and what is written, with `$` for the end of a line.
const TOLD_OF_SMALL_TEXTS: &str = "of int main() { }
pairs:
plan:
emit:int main ( ) {$}$
of int main() { print(1); }
pairs:
plan:
emit:int main ( ) {$print ( 1 ) ;$}$
of class A { public: long f; long g; void m(long x) { f = f + x; } }; int main() { A *a = new A(); a->m(1); }
pairs:extent A::m$A::m A::m commutes$
of class A; // again$class A { public: long f, g; void m(long x) { f = (f + x); } }; int main() { A *a = new A; /* on a */ a->m(1); return 0; }
pairs:extent A::m$A::m A::m commutes$
emit:class A {$public :$long f ;$long g ;$void m ( long x ) {$f = f + x ;$}$} ;$int main ( ) {$A * a = new A ( ) ;$a -> m ( 1 ) ;$}$
of class A { public: long f; void put(long x) { this->f = x; } void add(long x) { f += x + x; } void own(long x) { x = f; } }; int main() { }
pairs:extent A::put$A::put A::put unproved FieldDiffers f$extent A::add$A::add A::add commutes$extent A::own$A::own A::own commutes$
of class M { public: long x; void up(long v) { x = max(x, v); } void lo(long v) { x = min(x, v); } void both(long v) { up(v); lo(v); } }; int main() { }
pairs:extent M::up$M::up M::up commutes$extent M::lo$M::lo M::lo commutes$extent M::both$M::up M::up commutes$M::up M::lo unproved FieldDiffers x$M::up M::both commutes$M::lo M::lo commutes$M::lo M::both commutes$M::both M::both commutes$
plan:op M::up serial$op M::lo serial$op M::both serial$
of class M { public: long x; void up(long v) { if (x < v) x = v; } void lo(long v) { if (v < x) x = v; } void both(long v) { up(v); lo(v); } }; int main() { }
pairs:extent M::up$M::up M::up commutes$extent M::lo$M::lo M::lo commutes$extent M::both$M::up M::up commutes$M::up M::lo unproved FieldDiffers x$M::up M::both commutes$M::lo M::lo commutes$M::lo M::both commutes$M::both M::both commutes$
of class X { public: long x; void f(long v) { x ^= v; } void g() { f(5); f((x | 3) & 6); } }; int main() { X *a = new X(); a->g(); }
pairs:extent X::f$X::f X::f commutes$extent X::g$X::f X::f commutes$X::f X::g unproved NotSeparable X::g 1 AccessAfterCall$X::g X::g unproved NotSeparable X::g 1 AccessAfterCall$
emit:class X {$public :$long x ;$void f ( long v ) {$x ^= v ;$}$void g ( ) {$f ( 5 ) ;$f ( ( x | 3 ) & 6 ) ;$}$} ;$int main ( ) {$X * a = new X ( ) ;$a -> g ( ) ;$}$
of class X { public: long x; void f(long v) { x ^= v; } void g(long v) { f((v) & 3); f(max(v | 3, 6)); } }; int main() { X *a = new X(); a->g(1); }
emit:class X {$public :$long x ;$void f ( long v ) {$/*@lock*/ x ^= v ;$/*@unlock*/ }$void g ( long v ) {$/*@spawn*/ f ( v & 3 ) ;$f ( max ( v | 3 , 6 ) ) ;$}$} ;$int main ( ) {$X * a = new X ( ) ;$/*@parallel*/ a -> g ( 1 ) ;$}$
of class V { public: long a[10]; void add(long f, long t, long v) { for (long i = f; i < t; i++) a[i] += v; } void one(long j) { a[j] = a[j] + 1; } void two() { add(0, 10, 3); one(4); add(2, 5, 1); } }; int main() { V *x = new V(); x->two(); }
pairs:extent V::add$V::add V::add commutes$extent V::one$V::one V::one commutes$extent V::two$V::add V::add commutes$V::add V::one commutes$V::add V::two commutes$V::one V::one commutes$V::one V::two commutes$V::two V::two commutes$
plan:op V::add serial$op V::one serial$op V::two parallel$
emit:class V {$public :$long a [ 10 ] ;$void add ( long f , long t , long v ) {$/*@lock*/ for ( long i = f ; i < t ; i += 1 ) a [ i ] += v ;$/*@unlock*/ }$void one ( long j ) {$/*@lock*/ a [ j ] = a [ j ] + 1 ;$/*@unlock*/ }$void two ( ) {$/*@spawn*/ add ( 0 , 10 , 3 ) ;$one ( 4 ) ;$add ( 2 , 5 , 1 ) ;$}$} ;$int main ( ) {$V * x = new V ( ) ;$/*@parallel*/ x -> two ( ) ;$}$
of class A { public: long n; A *o; void m() { n = o->n; } };$int main() { }
pairs:extent A::m$A::m A::m unproved NotSeparable A::m 1 ForeignRead$
of class A { public: long n; long f() { return n; } void m() { n = f(); } };$int main() { }
pairs:extent A::m$A::m A::m unproved NotSeparable A::m 1 FunctionRead$
of class A { public: long n; void m() { print(n); } };$int main() { }
pairs:extent A::m$A::m A::m unproved NotSeparable A::m 1 Prints$
of class A { public: long n; void m(long p) { n = n / p; } };$int main() { }
pairs:extent A::m$A::m A::m unproved NotSeparable A::m 1 DividesByVariable$
of class A { public: long n; void m(long p) { n = n / -2; } };$int main() { }
pairs:extent A::m$A::m A::m commutes$
of class A { public: long n; void m(long p) { n = n / 0; } };$int main() { }
pairs:extent A::m$A::m A::m unproved NotSeparable A::m 1 DividesByVariable$
of class V { public: long a[10]; void add(long f, long t, long v) { for (long i = f; i < t; i++) a[i] = v; } }; int main() { }
pairs:extent V::add$V::add V::add unproved LoopForm 1$
of class A { public: long a[9]; long c; void k(long v) {$for (long i; i < c; i++) a[i] += v; } void s() { c += 1; } void w() { k(1); s(); } }; int main() { }
pairs:extent A::k$A::k A::k commutes$extent A::s$A::s A::s commutes$extent A::w$A::k A::k unproved LoopForm 2$A::k A::s unproved LoopForm 2$A::k A::w unproved LoopForm 2$A::s A::s commutes$A::s A::w commutes$A::w A::w commutes$
plan:op A::k serial$op A::s serial$op A::w serial$
of $ /* of visits */ class A { public: void m() { ; } }; int main() { }
plan:op A::m serial$
of class A { public: void m() { ; } void n() { m(); } void e() { } }; int main() { A *a = new A(); { a->n(); } ; while (a == nullptr) a->n(); }
emit:class A {$public :$void m ( ) {$;$}$void n ( ) {$/*@spawn*/ m ( ) ;$}$void e ( ) {$}$} ;$int main ( ) {$A * a = new A ( ) ;${$/*@parallel*/ a -> n ( ) ;$} ;$while ( a == nullptr ) /*@parallel*/ a -> n ( ) ;$}$
of class B { public: long n; B *q; void add(long v) { n = n + v; }$ void all() { for (long i = 0; i < n; i++) add(i); } };$ int main() { B *b = new B(); for (long i = 0; i < b->n; i++) b->add(i); }
plan:op B::add serial$op B::all serial$loop 2 serial$loop 3 serial$
of class A { public: long n; void add(long v) { n += v; } void both(long v) { add(v); add(v); } void none() { } };$int main() { A *a = new A(); for (long i = 0; i < 2; i++) a->both(i); while (a->n < 9) a->both(1); { a->none(); } }
emit:class A {$public :$long n ;$void add ( long v ) {$/*@lock*/ n += v ;$/*@unlock*/ }$void both ( long v ) {$/*@spawn*/ add ( v ) ;$add ( v ) ;$}$void none ( ) {$}$} ;$int main ( ) {$A * a = new A ( ) ;$/*@parallel*/ for ( long i = 0 ; i < 2 ; i += 1 ) a -> both ( i ) ;$while ( a -> n < 9 ) /*@parallel*/ a -> both ( 1 ) ;${$a -> none ( ) ;$}$}$
of class A { public: long n; A *q; A *b[2]; void add(long v) { n += v; }$ void go(long v) { n += v; add(v); this->add(1); q->add(v); this->q->add(v); this->q->add(1);$ b[v]->add(v); b[v]->add(1); b[1]->add(v); { b[1]->add(2); add(3); } add(4); if (v < 3) add(5); add(6);$ for (long i = 0; i < v; i++) { add(i); add(7); } } };$ int main() { A *a = new A(); a->go(1); }
emit:class A {$public :$long n ;$A * q ;$A * b [ 2 ] ;$void add ( long v ) {$/*@lock*/ n += v ;$/*@unlock*/ }$void go ( long v ) {$/*@lock*/ n += v ;$/*@unlock*/ /*@spawn*/ add ( v ) ;$this -> add ( 1 ) ;$/*@unlock*/ /*@spawn*/ q -> add ( v ) ;$/*@unlock*/ /*@spawn*/ this -> q -> add ( v ) ;$this -> q -> add ( 1 ) ;$/*@unlock*/ /*@spawn*/ b [ v ] -> add ( v ) ;$b [ v ] -> add ( 1 ) ;$/*@unlock*/ /*@spawn*/ b [ 1 ] -> add ( v ) ;${$/*@unlock*/ /*@spawn*/ b [ 1 ] -> add ( 2 ) ;$/*@unlock*/ /*@spawn*/ add ( 3 ) ;$}$/*@unlock*/ /*@spawn*/ add ( 4 ) ;$if ( v < 3 ) /*@unlock*/ /*@spawn*/ add ( 5 ) ;$/*@unlock*/ /*@spawn*/ add ( 6 ) ;$for ( long i = 0 ; i < v ; i += 1 ) {$/*@unlock*/ /*@spawn*/ add ( i ) ;$add ( 7 ) ;$}$/*@unlock*/ }$} ;$int main ( ) {$A * a = new A ( ) ;$/*@parallel*/ a -> go ( 1 ) ;$}$
of class A { public: long n; long k; A *q; void add(long v) { n += v; } void up(long v) { k += v; }$ void ask(long v) { long t = k; q->add(v); } };$ int main() { A *a = new A(); for (long i = 0; i < 2; i++) { a->ask(i); a->up(i); } a->ask(1); }
emit:class A {$public :$long n ;$long k ;$A * q ;$void add ( long v ) {$/*@lock*/ n += v ;$/*@unlock*/ }$void up ( long v ) {$/*@lock*/ k += v ;$/*@unlock*/ }$void ask ( long v ) {$/*@lock*/ long t = k ;$/*@unlock*/ /*@spawn*/ q -> add ( v ) ;$/*@unlock*/ }$} ;$int main ( ) {$A * a = new A ( ) ;$/*@parallel*/ for ( long i = 0 ; i < 2 ; i += 1 ) {$a -> ask ( i ) ;$a -> up ( i ) ;$}$/*@parallel*/ a -> ask ( 1 ) ;$}$";

const OF_FIRST: &str =
    "pairs:extent Acc::add$Acc::add Acc::add commutes$extent Acc::tie$Acc::tie Acc::tie unproved FieldDiffers peer$";

const OF_GRAPH_VISIT: &str =
    "pairs:extent Graph::init$Graph::init Graph::init unproved FieldDiffers value$extent Graph::visit$Graph::visit Graph::visit commutes$
plan:op Graph::init serial$op Graph::visit parallel$
emit:class Graph {$public :$bool mark ;$long value ;$long sum ;$Graph * left ;$Graph * right ;$void init ( long v , Graph * l , Graph * r ) {$value = v ;$left = l ;$right = r ;$}$void visit ( long p ) {$/*@lock*/ sum = sum + p ;$if ( ! mark ) {$mark = true ;$if ( left != nullptr ) /*@unlock*/ /*@spawn*/ left -> visit ( value ) ;$if ( right != nullptr ) /*@unlock*/ /*@spawn*/ right -> visit ( value ) ;$}$/*@unlock*/ }$} ;$int main ( ) {$Graph * a = new Graph ( ) ;$Graph * b = new Graph ( ) ;$a -> init ( 3 , b , b ) ;$b -> init ( 5 , a , nullptr ) ;$/*@parallel*/ a -> visit ( 1 ) ;$}$";

const OF_ACCUMULATOR: &str =
    "pairs:extent Acc::add$Acc::add Acc::add commutes$extent Acc::sub$Acc::sub Acc::sub commutes$extent Acc::mul$Acc::mul Acc::mul commutes$extent Acc::mix$Acc::add Acc::add commutes$Acc::add Acc::mul unproved FieldDiffers sum$Acc::add Acc::mix commutes$Acc::mul Acc::mul commutes$Acc::mul Acc::mix commutes$Acc::mix Acc::mix commutes$extent Acc::par$Acc::add Acc::add commutes$Acc::add Acc::sub commutes$Acc::add Acc::par commutes$Acc::sub Acc::sub commutes$Acc::sub Acc::par commutes$Acc::par Acc::par commutes$
plan:op Acc::add serial$op Acc::sub serial$op Acc::mul serial$op Acc::mix serial$op Acc::par parallel$
emit:class Acc {$public :$long sum ;$void add ( long p ) {$/*@lock*/ sum = sum + p ;$/*@unlock*/ }$void sub ( long p ) {$/*@lock*/ sum = sum - p ;$/*@unlock*/ }$void mul ( long p ) {$sum = sum * p ;$}$void mix ( long p ) {$add ( p ) ;$mul ( p ) ;$}$void par ( long p ) {$/*@spawn*/ add ( p ) ;$sub ( p ) ;$}$} ;$int main ( ) {$Acc * a = new Acc ( ) ;$a -> mix ( 2 ) ;$/*@parallel*/ a -> par ( 3 ) ;$}$";

const OF_STACK: &str = "pairs:extent Stack::put$Stack::put Stack::put unproved FieldDiffers buf$
emit:class Stack {$public :$long buf [ 8 ] ;$long n ;$void put ( long v ) {$buf [ n ] = v ;$n = n + 1 ;$}$} ;$int main ( ) {$}$";

const OF_BINS: &str =
    "pairs:extent Bins::add$Bins::add Bins::add commutes$extent Set::fill$Set::fill Set::fill unproved NotSeparable Set::fill 10 Creates$extent Set::all$Bins::add Bins::add commutes$Set::all Set::all commutes$loop 13$Bins::add Bins::add commutes$
plan:op Bins::add serial$op Set::fill serial$op Set::all parallel$loop 13 parallel$
emit:class Bins {$public :$long a [ 3 ] ;$void add ( long i , long v ) {$/*@lock*/ a [ i ] = a [ i ] + v ;$/*@unlock*/ }$} ;$class Set {$public :$Bins * b [ 1000 ] ;$void fill ( ) {$for ( long i = 0 ; i < 1000 ; i += 1 ) b [ i ] = new Bins ( ) ;$}$void all ( long v ) {$for ( long i = 0 ; i < 1000 ; i += 1 ) /*@spawn*/ b [ i ] -> add ( i % 3 , v ) ;$}$} ;$int main ( ) {$Set * s = new Set ( ) ;$s -> fill ( ) ;$/*@parallel*/ s -> all ( 7 ) ;$/*@parallel*/ s -> all ( 8 ) ;$}$";

const OF_CELLS: &str =
    "pairs:extent Cell::late$Cell::late Cell::late unproved NotSeparable Cell::late 10 AccessAfterCall$extent Cell::early$Cell::early Cell::early commutes$
emit:class Cell {$public :$long sum ;$long base ;$long last ;$Cell * next ;$void late ( long p ) {$sum = sum + p ;$if ( next != nullptr ) next -> late ( p ) ;$last = sum ;$}$void early ( long p ) {$/*@lock*/ sum = sum + p ;$if ( next != nullptr ) /*@unlock*/ /*@spawn*/ next -> early ( base ) ;$/*@unlock*/ }$} ;$int main ( ) {$}$";

const OF_TWO_BINS: &str =
    "pairs:extent Bin::add$Bin::add Bin::add commutes$extent Pair::fill$Pair::fill Pair::fill unproved NotSeparable Pair::fill 9 Creates$loop 14$Bin::add Bin::add commutes$
plan:op Bin::add serial$op Pair::fill serial$loop 14 parallel$
emit:class Bin {$public :$long n ;$void add ( long v ) {$/*@lock*/ n = n + v ;$/*@unlock*/ }$} ;$class Pair {$public :$Bin * b [ 2 ] ;$void fill ( ) {$b [ 0 ] = new Bin ( ) ;$b [ 1 ] = new Bin ( ) ;$}$} ;$int main ( ) {$Pair * s = new Pair ( ) ;$s -> fill ( ) ;$/*@parallel*/ for ( long i = 0 ; i < 2 ; i += 1 ) s -> b [ i ] -> add ( i + 1 ) ;$}$";

const OF_BOUND: &str = "pairs:extent M::up$M::up M::up commutes$
emit:class M {$public :$long x ;$void up ( long v ) {$if ( x < v ) x = v ;$}$} ;$int main ( ) {$}$";

const OF_TWO_SUMS: &str =
    "emit:class A {$public :$long n ;$void add ( long v ) {$/*@lock*/ n += v ;$/*@unlock*/ }$void two ( long v ) {$/*@spawn*/ add ( v ) ;$add ( v + 1 ) ;$}$} ;$int main ( ) {$A * a = new A ( ) ;$/*@parallel*/ a -> two ( 3 ) ;$}$";

/// Ends the test where a row of a text isn't told.
fn are_told<R: AllocGlobal + Threads + Wait + Sync + Abort>(rt: &R, text: &str, rows: &str) {
    for row in rows.lines() {
        let (line, written) = row.split_once(':').expect(rt, "a row");
        assert!(rt;
            Call::new(line, text).tells(rt, 0, written),
            "{row} of {text}"
        );
    }
}

/// Ends the test where a row isn't told of the text before it.
fn are_told_of_texts<R: AllocGlobal + Threads + Wait + Sync + Abort>(rt: &R, rows: &str) {
    let mut text = Vec::new(rt.alloc());
    for row in rows.lines() {
        if let Some(of) = row.strip_prefix("of ") {
            text = Vec::new(rt.alloc());
            add_lines(rt, &mut text, of);
        } else {
            let (line, written) = row.split_once(':').expect(rt, "a row");
            assert!(rt; Call::of_bytes(line, &text).tells(rt, 0, written), "{row}");
        }
    }
}

/// Verdicts, marks and annotated texts.
#[test]
fn tells_plans(rt: HostRuntime) {
    are_told_of_texts(&rt, TOLD_OF_SMALL_TEXTS);
    are_told(&rt, FIRST, OF_FIRST);
    are_told(&rt, GRAPH_VISIT, OF_GRAPH_VISIT);
    are_told(&rt, ACCUMULATOR, OF_ACCUMULATOR);
    are_told(&rt, STACK, OF_STACK);
    are_told(&rt, BINS, OF_BINS);
    are_told(&rt, CELLS, OF_CELLS);
    are_told(&rt, TWO_BINS, OF_TWO_BINS);
    are_told(&rt, BOUND, OF_BOUND);
    are_told(&rt, TWO_SUMS, OF_TWO_SUMS);
    are_told(&rt, GRAPH_SHARES, OF_GRAPH_SHARES);
    are_told(&rt, SEARCH_TREE, OF_SEARCH_TREE);
    are_told(&rt, TABLE_OF_SUMS, OF_TABLE_OF_SUMS);
}

/// A class with two operations, one of which doubles so many times.
fn doubling<R: Abort>(rt: &R, alloc: Global, times: usize) -> Vec<u8> {
    let mut text = Vec::new(alloc);
    add(rt, &mut text, b"class D { public: long s; void dbl() {");
    for _ in 0..times {
        add(rt, &mut text, b" s = s + s;");
    }
    add(
        rt,
        &mut text,
        b" } void aff(long p) { s = s + s + p; } }; int main() { }",
    );
    text
}

/// What weighs too much.
#[test]
fn tells_what_is_too_heavy(rt: HostRuntime) {
    let text = doubling(&rt, rt.alloc(), 1);
    let written =
        b"extent D::dbl\nD::dbl D::dbl commutes\nextent D::aff\nD::aff D::aff unproved FieldDiffers s\n";
    assert!(rt; Call::of_bytes("pairs", &text).ends(&rt, 0, written));
    let text = doubling(&rt, rt.alloc(), 20);
    let written =
        b"extent D::dbl\nD::dbl D::dbl unproved Large\nextent D::aff\nD::aff D::aff unproved FieldDiffers s\n";
    assert!(rt; Call::of_bytes("pairs", &text).ends(&rt, 0, written));
}
