//! Texts that are refused, each with the line that is told of it: `refusal_text` of `ca_app/specs/Refusals.antt`.

/// A line for each text: the text, `=>` and what is told.
pub const REFUSED: &str = "int main() { print(1 # 2); } => error 1:22 E01
int main() /* / => error 1:12 E01
int main() { long x = 007; } => error 1:23 E01
int main() { print(0x1F); } => error 1:21 E01
int main() { print(5L); } => error 1:21 E01
int main() { long x = 9223372036854775808; } => error 1:23 E02
int main() { print(99999999999999999999L); } => error 1:20 E02
int main() { x = ; } => error 1:18 E10
int main() { long max = 1; } => error 1:19 E10
int main() { print(true &&& true); } => error 1:27 E10
int main() { bool b; b ||= true; } => error 1:24 E10
int main() { print(max(1, 2)[0]); } => error 1:29 E10
int main() { => error 1:13 E10
class A { public: }; class A { public: }; int main() { } => error 1:28 E20
int main() { B *b = nullptr; } => error 1:14 E21
class A { public: long n; void n() { } }; int main() { } => error 1:32 E22
int main() { long x; long x; } => error 1:27 E23
int main() { y = 1; } => error 1:14 E24
int main() { long x = true; } => error 1:23 E25
int main() { print(true & 1); } => error 1:25 E25
int main() { print(1 & 2 == 2); } => error 1:22 E25
int main() { print(max(1, true)); } => error 1:20 E25
int main() { long x; x |= true; } => error 1:27 E25
int main() { long x = 1 < 2; } => error 1:25 E25
class A { public: void m(long p) { } void k() { m(); } }; int main() { } => error 1:49 E26
class A { public: long n; }; int main() { A *a = new A(); a->n = 1; } => error 1:60 E27
class A { public: void m() { } void k() { long x = m(); } }; int main() { } => error 1:52 E28
class A { public: long n; long f() { n = 1; return n; } }; int main() { } => error 1:38 E29
int main() { return 1; } => error 1:14 E30
class A { public: long f() { } }; int main() { } => error 1:24 E30
class A { public: long a[2]; long f() { return a; } }; int main() { } => error 1:48 E31
class A { public: void m() { } }; int main() { this->m(); } => error 1:48 E32
class A { public: long a[0]; }; int main() { } => error 1:24 E33
class A { public: long a[1000001]; }; int main() { } => limit 1:24 E56
class A { public: long f() { y = 1; } }; int main() { } => error 1:30 E24
class A { public: void m(long p) { } void k() { m(true, 1); } }; int main() { } => error 1:49 E26
class A { public: void m() { x = 5; } B *x; }; int main() { } => error 1:34 E25
class A { public: void m() { print(x->f); } B *x; }; int main() { } => error 1:37 E24
class A { public: void m() { a = true; } long a; bool a; }; int main() { } => error 1:34 E25
class A { public: long a[2]; void m() { a = 1; } }; int main() { } => error 1:41 E27
int main() { long x; x[0] = 1; } => error 1:23 E27
int main() { long x; x->f = 1; } => error 1:23 E25
class A { public: void m(long p) { } void k() { long x = m(); } }; int main() { } => error 1:58 E26
int main() { long x; print(x[true]); } => error 1:30 E25
class A { public: long f() { for (A *a = new A(); false; a = nullptr) ; return 1; } }; int main() { } => error 1:35 E29
int main() { m(); } => error 1:14 E24
class A { public: long f() { { return 1; ; } } }; int main() { } => error 1:24 E30
int main() { print(1 == nullptr); } => error 1:22 E25
int main() { print(nullptr); } => error 1:20 E25
class A { public: long f() { print(nullptr); return 1; } }; int main() { } => error 1:36 E25
int main() { { long x; } x = 1; } => error 1:26 E24
int main() { long x = x; } => error 1:23 E24
class A { public: void m() { } long f() { m(); return 1; } }; int main() { } => error 1:43 E29
class A { public: B *b; }; int main() { } => error 1:19 E21
class A { public: }; int main() { A *a = new B(); } => error 1:46 E21
class A { public: long n; bool n; }; int main() { } => error 1:32 E22
class A { public: void m(long x) { long x; } }; int main() { } => error 1:41 E23
class A { public: void m(long x, bool x) { } }; int main() { } => error 1:39 E23
int main() { for (long i; i < 3; i++) ; i = 1; } => error 1:41 E24
int main() { a[0] = 1; } => error 1:14 E24
int main() { if (1) ; } => error 1:18 E25
class A { public: void m(long x) { } }; int main() { A *a; a->m(true); } => error 1:65 E25
class A { public: }; class B { public: }; int main() { A *a = new B(); } => error 1:67 E25
class A { public: long f() { return true; } }; int main() { } => error 1:37 E25
int main() { bool b; b += 1; } => error 1:22 E25
int main() { bool b; b++; } => error 1:22 E25
class A { public: long f() { return 1; } }; int main() { A *a; a->f(); } => error 1:65 E28
class A { public: long f() { print(1); return 1; } }; int main() { } => error 1:30 E29
class A { public: A *a; long f() { a = new A(); return 1; } }; int main() { } => error 1:36 E29
class A { public: long n; long f() { for (n = 0; n < 3; n++) ; return 1; } }; int main() { } => error 1:43 E29
class A { public: void m() { return 1; } }; int main() { } => error 1:30 E30
class A { public: long f() { if (true) return 1; } }; int main() { } => error 1:24 E30
class A { public: long n; long f() { return n[0]; } }; int main() { } => error 1:46 E31
int main() { print(this == nullptr); } => error 1:20 E32
class A { public: long n; long n() { return true; } }; int main() { } => error 1:45 E25
int main() { long x; long x = true; } => error 1:31 E25
class A { public: long a[1000001]; void c() { y = 1; } }; int main() { } => limit 1:24 E56
class A { public: void m() { b = c; } B *b; B *c; }; int main() { } => error 1:39 E21
class A { public: long n; long f() { return n; } bool n; }; int main() { } => error 1:55 E22
int main() { 1 = 2; } => error 1:14 E10
int main() { long x; x->m(1) = 2; } => error 1:30 E10
class A { public: }; int main() { A *a; if (true) A * b; } => error 1:53 E10
int main() { return (0); } => error 1:14 E30
int main() { return 0; return 0; } => error 1:14 E30
int main() { if (a) f(); else else => error 1:31 E10
class A { public: long n; }; int main() { A *a = new B(); } => error 1:54 E21";
