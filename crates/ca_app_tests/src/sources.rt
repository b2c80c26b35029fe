//! Sources of the tests.

/// Two accumulators.
pub const FIRST: &str =
    "class Acc {\npublic:\n  long sum;\n  Acc *peer;\n  void add(long p) { sum = sum + p; }\n  void tie(Acc *q) { peer = q; }\n};\nint main() {\n  Acc *a = new Acc();\n  Acc *b = new Acc();\n  a->add(3);\n  b->add(4);\n  a->tie(b);\n  a->add(5);\n  return 0;\n}\n";

pub const FIRST_HEAP: &str = "#0 Acc sum=8 peer=#1\n#1 Acc sum=4 peer=null\n";

/// A visit of two objects that point at each other.
pub const GRAPH_VISIT: &str =
    "class Graph {\npublic:\n  bool mark;\n  long value;\n  long sum;\n  Graph *left;\n  Graph *right;\n  void init(long v, Graph *l, Graph *r) {\n    value = v;\n    left = l;\n    right = r;\n  }\n  void visit(long p) {\n    sum = sum + p;\n    if (!mark) {\n      mark = true;\n      if (left != nullptr) left->visit(value);\n      if (right != nullptr) right->visit(value);\n    }\n  }\n};\nint main() {\n  Graph *a = new Graph();\n  Graph *b = new Graph();\n  a->init(3, b, b);\n  b->init(5, a, nullptr);\n  a->visit(1);\n  return 0;\n}\n";

pub const GRAPH_HEAP: &str =
    "#0 Graph mark=true value=3 sum=6 left=#1 right=#1\n#1 Graph mark=true value=5 sum=6 left=#0 right=null\n";

/// An accumulator whose operations call each other.
pub const ACCUMULATOR: &str =
    "class Acc {\npublic:\n  long sum;\n  void add(long p) { sum = sum + p; }\n  void sub(long p) { sum = sum - p; }\n  void mul(long p) { sum = sum * p; }\n  void mix(long p) { add(p); mul(p); }\n  void par(long p) { add(p); sub(p); }\n};\nint main() { Acc *a = new Acc(); a->mix(2); a->par(3); }\n";

/// An operation that calls itself without end, before one whose index is out of range.
pub const DEEP_THEN_HIT: &str =
    "class Node {\npublic:\n  long buf[4];\n  Node *q;\n  void link(Node *x) { q = x; }\n  void go() { go(); }\n  void hit() { buf[9] = buf[9] + 1; }\n  void start() {\n    go();\n    q->hit();\n  }\n};\nint main() {\n  Node *a = new Node();\n  Node *b = new Node();\n  a->link(b);\n  a->start();\n}\n";

/// The same, the other way round.
pub const HIT_THEN_DEEP: &str =
    "class Node {\npublic:\n  long buf[4];\n  Node *q;\n  void link(Node *x) { q = x; }\n  void go() { go(); }\n  void hit() { buf[9] = buf[9] + 1; }\n  void start() {\n    q->hit();\n    go();\n  }\n};\nint main() {\n  Node *a = new Node();\n  Node *b = new Node();\n  a->link(b);\n  a->start();\n}\n";

/// A sum that passes the greatest number.
pub const WRAPPING_SUM: &str =
    "class Acc {\npublic:\n  long sum;\n  void set(long v) { sum = v; }\n  void add(long p) { sum += p; }\n  void twice() { add(1); add(1); }\n};\nint main() { Acc *a = new Acc(); a->set(9223372036854775807); a->twice(); }\n";

/// A thousand objects with arrays.
pub const BINS: &str =
    "class Bins {\npublic:\n  long a[3];\n  void add(long i, long v) { a[i] = a[i] + v; }\n};\nclass Set {\npublic:\n  Bins *b[1000];\n  void fill() {\n    for (long i = 0; i < 1000; i++) b[i] = new Bins();\n  }\n  void all(long v) {\n    for (long i = 0; i < 1000; i++) b[i]->add(i % 3, v);\n  }\n};\nint main() {\n  Set *s = new Set();\n  s->fill();\n  s->all(7);\n  s->all(8);\n}\n";

/// Two objects that an array points at.
pub const TWO_BINS: &str =
    "class Bin {\npublic:\n  long n;\n  void add(long v) { n = n + v; }\n};\nclass Pair {\npublic:\n  Bin *b[2];\n  void fill() { b[0] = new Bin(); b[1] = new Bin(); }\n};\nint main() {\n  Pair *s = new Pair();\n  s->fill();\n  for (long i = 0; i < 2; i++) s->b[i]->add(i + 1);\n}\n";

pub const TWO_BINS_HEAP: &str = "#0 Pair b=[#1,#2]\n#1 Bin n=1\n#2 Bin n=2\n";

/// Three objects that an array points at.
pub const THREE_BINS: &str =
    "class Bin {\npublic:\n  long n;\n  void add(long v) { n = n + v; }\n};\nclass Pair {\npublic:\n  Bin *b[3];\n  void fill() { b[0] = new Bin(); b[1] = new Bin(); b[2] = new Bin(); }\n};\nint main() {\n  Pair *s = new Pair();\n  s->fill();\n  for (long i = 0; i < 3; i++) s->b[i]->add(i + 1);\n}\n";

pub const THREE_BINS_HEAP: &str = "#0 Pair b=[#1,#2,#3]\n#1 Bin n=1\n#2 Bin n=2\n#3 Bin n=3\n";

/// Two objects that an array points at, begun at 1 by calls that aren't marked, and multiplied by marked ones.
pub const TWO_PRODUCTS: &str =
    "class Bin {\npublic:\n  long n;\n  void begin() { n = 1; }\n  void add(long v) { n *= v; }\n};\nclass Pair {\npublic:\n  Bin *b[2];\n  void fill() { b[0] = new Bin(); b[1] = new Bin(); b[0]->begin(); b[1]->begin(); }\n};\nint main() {\n  Pair *s = new Pair();\n  s->fill();\n  for (long i = 0; i < 2; i++) s->b[i]->add(i + 2);\n}\n";

pub const TWO_PRODUCTS_HEAP: &str = "#0 Pair b=[#1,#2]\n#1 Bin n=2\n#2 Bin n=3\n";

/// Three of them.
pub const THREE_PRODUCTS: &str =
    "class Bin {\npublic:\n  long n;\n  void begin() { n = 1; }\n  void add(long v) { n *= v; }\n};\nclass Pair {\npublic:\n  Bin *b[3];\n  void fill() { b[0] = new Bin(); b[1] = new Bin(); b[2] = new Bin(); b[0]->begin(); b[1]->begin(); b[2]->begin(); }\n};\nint main() {\n  Pair *s = new Pair();\n  s->fill();\n  for (long i = 0; i < 3; i++) s->b[i]->add(i + 2);\n}\n";

pub const THREE_PRODUCTS_HEAP: &str = "#0 Pair b=[#1,#2,#3]\n#1 Bin n=2\n#2 Bin n=3\n#3 Bin n=4\n";

/// Sixty-four objects, begun at 1, each multiplied by what a loop of 2,000 turns gives.
pub const MANY_PRODUCTS: &str =
    "class Bin {\npublic:\n  long n;\n  void begin() { n = 1; }\n  long count(long v) { long k = v; for (long i = 0; i < 2000; i++) k = k + 1; return k; }\n  void mul(long v) { n *= count(v); }\n};\nclass Set {\npublic:\n  Bin *b[64];\n  void fill() { for (long i = 0; i < 64; i++) { b[i] = new Bin(); b[i]->begin(); } }\n};\nint main() {\n  Set *s = new Set();\n  s->fill();\n  for (long i = 0; i < 64; i++) s->b[i]->mul(i);\n}\n";

/// Two calls that add to one object.
pub const ONE_BIN: &str =
    "class Bin {\npublic:\n  long n;\n  void add(long v) { n = n + v; }\n};\nclass Own {\npublic:\n  Bin *b;\n  void fill() { b = new Bin(); }\n};\nint main() {\n  Own *s = new Own();\n  s->fill();\n  for (long i = 0; i < 2; i++) s->b->add(i + 1);\n}\n";

pub const ONE_BIN_HEAP: &str = "#0 Own b=#1\n#1 Bin n=3\n";

/// Eight calls that add to one object by ever longer loops: some end soon, some don't.
pub const LONGER_AND_LONGER: &str =
    "class Bin { public: long n; void add(long v) { n = n + v; } }; class Own { public: Bin *b; void tie(Bin *x) { b = x; } void many(long v) { for (long i = 0; i < v; i++) b->add(i); } }; class Set { public: Own *o[8]; void fill() { Bin *x = new Bin(); for (long i = 0; i < 8; i++) { o[i] = new Own(); o[i]->tie(x); } } }; int main() { Set *s = new Set(); s->fill(); for (long i = 0; i < 8; i++) s->o[i]->many(i * 1500); }\n";

/// Two calls that add to one object, in a heap of 250,000 values, of which 64 workers may have a copy each.
pub const ONE_BIN_BESIDE_MANY: &str =
    "class Bin { public: long n; void add(long v) { n = n + v; } }; class Own { public: Bin *b; long a[249998]; void fill() { b = new Bin(); } }; int main() { Own *s = new Own(); s->fill(); for (long i = 0; i < 2; i++) s->b->add(i + 1); }\n";

/// The same with a value more.
pub const ONE_BIN_BESIDE_MORE: &str =
    "class Bin { public: long n; void add(long v) { n = n + v; } }; class Own { public: Bin *b; long a[249999]; void fill() { b = new Bin(); } }; int main() { Own *s = new Own(); s->fill(); for (long i = 0; i < 2; i++) s->b->add(i + 1); }\n";

/// A list of 100,000 objects, and calls nested as deeply.
pub const LONG_LIST: &str =
    "class Link {\npublic:\n  Link *next;\n  long n;\n  void set(Link *x) { next = x; }\n  void walk(long d) { n = n + d; if (next != nullptr) next->walk(d + 1); }\n};\nint main() {\n  Link *head = nullptr;\n  for (long i = 0; i < 100000; i++) {\n    Link *k = new Link();\n    k->set(head);\n    head = k;\n  }\n  head->walk(1);\n  print(head->n);\n}\n";

/// A program that prints and leaves an object.
pub const PRINTS: &str =
    "class Bin { public: long n; void add(long v) { n = n + v; } }; int main() { Bin *b = new Bin(); for (long i = 0; i < 3; i++) { b->add(i); print(i); } print(true); }\n";

pub const PRINTED: &str = "0\n1\n2\ntrue\n#0 Bin n=3\n";

/// Calls in a list, and in the body of a loop, of an operation whose second statement takes a step.
pub const STEPS_IN_A_LIST: &str =
    "class A {\npublic:\n  long n;\n  long part(long v) { return 12 / v; }\n  void add(long v) {\n    n += v;\n    n += part(v);\n  }\n  void three(long v) {\n    add(1);\n    add(v);\n    add(2);\n  }\n  void turns(long v) {\n    for (long i = 0; i < 3; i++) add(v - i);\n  }\n};\nint main() {\n  A *a = new A();\n  a->three(3);\n}\n";

pub const STEPS_IN_A_LOOP: &str =
    "class A {\npublic:\n  long n;\n  long part(long v) { return 12 / v; }\n  void add(long v) {\n    n += v;\n    n += part(v);\n  }\n  void three(long v) {\n    add(1);\n    add(v);\n    add(2);\n  }\n  void turns(long v) {\n    for (long i = 0; i < 3; i++) add(v - i);\n  }\n};\nint main() {\n  A *a = new A();\n  a->turns(4);\n}\n";

/// The same, with a second statement that traps at the second call.
pub const TRAP_IN_A_LIST: &str =
    "class A {\npublic:\n  long n;\n  long part(long v) { return 12 / v; }\n  void add(long v) {\n    n += v;\n    n += 12 / v;\n  }\n  void three(long v) {\n    add(1);\n    add(v);\n    add(2);\n  }\n  void turns(long v) {\n    for (long i = 0; i < 3; i++) add(v - i);\n  }\n};\nint main() {\n  A *a = new A();\n  a->three(0);\n}\n";

pub const TRAP_IN_A_LOOP: &str =
    "class A {\npublic:\n  long n;\n  long part(long v) { return 12 / v; }\n  void add(long v) {\n    n += v;\n    n += 12 / v;\n  }\n  void three(long v) {\n    add(1);\n    add(v);\n    add(2);\n  }\n  void turns(long v) {\n    for (long i = 0; i < 3; i++) add(v - i);\n  }\n};\nint main() {\n  A *a = new A();\n  a->turns(1);\n}\n";

/// A stack, whose puts differ.
pub const STACK: &str =
    "class Stack { public: long buf[8]; long n; void put(long v) { buf[n] = v; n = n + 1; } }; int main() { }";

/// A cell that reads its sum behind a call, or passes on what stays.
pub const CELLS: &str =
    "class Cell {\npublic:\n  long sum;\n  long base;\n  long last;\n  Cell *next;\n  void late(long p) {\n    sum = sum + p;\n    if (next != nullptr) next->late(p);\n    last = sum;\n  }\n  void early(long p) {\n    sum = sum + p;\n    if (next != nullptr) next->early(base);\n  }\n};\nint main() { }\n";

/// A greatest value.
pub const BOUND: &str =
    "class M { public: long x; void up(long v) { if (x < v) x = v; } }; int main() { }";

/// A sum that is called twice.
pub const TWO_SUMS: &str =
    "class A { public: long n; void add(long v) { n += v; } void two(long v) { add(v); add(v + 1); } }; int main() { A *a = new A(); a->two(3); }";

/// Two products on one object, which wait together.
pub const PRODUCTS_ON_ONE: &str =
    "class A { public: long n; void set(long v) { n = v; } void mul(long v) { n *= v; } void two(long v) { mul(v); mul(v + 1); } }; int main() { A *a = new A(); a->set(2); a->two(3); }";
