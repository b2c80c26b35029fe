//! Values in sections: what expressions and value methods give, and of what they read.

use crate::sections::tell;

/// Value methods: one that calls itself, one with a loop, one that divides, one that reads a field, one of bits and the greatest, and
/// two that divide on a right side, which is asked for in the first alone. An operation for each puts what it gives, and the own field
/// besides; the last one puts a sum and what comes of a comparison.
const TEXT: &str = "class A { public: long x; long y; bool z;
    long down(long n) { if (n == 0) return 0; return this->down(n - 1) + 1; }
    long sum(long n) { long s = 0; for (long i = 0; i < n; i = i + 1) s = s + i; return s; }
    long part(long n) { return 1 / n; }
    long get(long n) { return x + n; }
    long bits(long n) { long b = max(n, 3) & 6 | n ^ 1; b ^= min(n, 0); return b; }
    long eager(long n) { if ((0 & 1 / n) == 0) return 1; return 2; }
    long lazy(long n) { if (n != 0 && (0 & 1 / n) == 0) return 1; return 2; }
    void go_down(long n) { y = x + this->down(n); }
    void add_up(long n) { y = x + this->sum(n); }
    void divide(long n) { y = x + this->part(n); }
    void read(long n) { y = x + this->get(n); }
    void mix(long n) { y = x + this->bits(n); }
    void hurry(long n) { y = x + this->eager(n); }
    void wait(long n) { y = x + this->lazy(n); }
    void compare(long n) { y = n + 3; z = n + 3 < 10; } };
    int main() { }";

/// A value method 100,000 deep, a loop of 100,000 turns, a step too many, traps, and an own field, 5 in the object and 0 in the heap,
/// that the operation alone reads in the object.
const ROWS: &str = "0 0 100000 1000000 | 0.0=5 | done 100002 | 1.0=100005 | -
0 1 100000 1000000 | 0.0=5 | done 100002 | 1.0=4999950005 | -
0 0 10 12 | 0.0=5 | done 12 | 1.0=15 | -
0 0 10 11 | 0.0=5 | spent | 0.0=5 1.0=0 | -
0 2 0 11 | 0.0=5 | divided 4 | 0.0=5 1.0=0 | -
0 3 1 11 | 0.0=5 | done 2 | 1.0=6 | -
0 4 9 11 | 0.0=5 | done 2 | 1.0=13 | -
0 4 -7 11 | 0.0=5 | done 2 | 1.0=8 | -
0 5 0 11 | 0.0=5 | divided 7 | 1.0=0 | -
0 6 0 11 | 0.0=5 | done 2 | 1.0=7 | -
0 7 7 11 | 0.0=5 2.0=t | done 1 | 1.0=10 2.0=f | -
0 7 6 11 | 0.0=5 | done 1 | 1.0=9 2.0=t | -";

#[test]
fn finds_values(rt: HostRuntime) {
    tell(&rt, TEXT, ROWS);
}
