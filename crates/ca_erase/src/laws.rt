//! Laws of texts without their marks.

ghost use Rattle.std.specs.Prelude.{◌≡◌, ℕ, List};
ghost use Rattle.ca_tree.specs.declared.name.Place.{Place};
ghost use Rattle.ca_canonical.specs.Erased.{Erased};
ghost use Rattle.ca_erase.specs.BadMarks.{FirstBadMark};

/// A text is one text without its marks, and where it is one, none of its comments is a bad mark. So `erase` gives that
/// text, or memory runs out. A first bad mark stands at one place, which is the one that `erase` tells.
pub fn one_erased_text()
    ensures text { (text one other : List ℕ) → Erased text one → Erased text other → one ≡ other }
    ensures marks { (text one : List ℕ) (p : Place) → Erased text one → ¬ FirstBadMark text p }
    ensures places { (text : List ℕ) (p q : Place) → FirstBadMark text p → FirstBadMark text q → p ≡ q }
{}
