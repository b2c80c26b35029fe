//! From numbers in any order to a list that rises: `Rises` of `ca_parallel/specs/ExtentsOf.antt`.

ghost use Rattle.std.specs.Prelude.{ℕ, Contains};
ghost use Rattle.std.specs.List.Sorted.{IsStrictlyIncreasing};
ghost use Rattle.ca_parallel.specs.ExtentsOf.{Rises};
ghost use Rattle.ca_extent.specs.clauses.Rising.{PairBefore};

/// Puts numbers in order, each once.
pub(crate) fn rise(numbers: &mut Vec<u32>)
    ensures rises { IsStrictlyIncreasing numbers.new.items }
    ensures keeps { (n : ℕ) → Contains numbers.old.items n → Contains numbers.new.items n }
    ensures adds_none { (n : ℕ) → Contains numbers.new.items n → Contains numbers.old.items n }
{
    numbers.sort_unstable();
    numbers.dedup();
}

/// Puts pairs in order, by the first part and then by the second, each once.
pub(crate) fn rise_pairs(pairs: &mut Vec<(u32, u32)>)
    ensures rises { Rises PairBefore pairs.new.items }
    ensures keeps { (p : ℕ × ℕ) → Contains pairs.old.items p → Contains pairs.new.items p }
    ensures adds_none { (p : ℕ × ℕ) → Contains pairs.new.items p → Contains pairs.old.items p }
{
    pairs.sort_unstable();
    pairs.dedup();
}
