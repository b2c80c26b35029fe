//! Laws of the canonical and of the annotated text.

ghost use Rattle.std.specs.Prelude.{◌≡◌, ℕ, List, [], Option};
ghost use Rattle.ca_tree.specs.declared.name.Place.{Place};
ghost use Rattle.ca_tree.specs.declared.token.Token.{Token};
ghost use Rattle.ca_tree.specs.Plain.{Statement, TextTree, empty};
ghost use Rattle.ca_lex.specs.Tokens.{Tokens};
ghost use Rattle.ca_parse.specs.Grammar.{Derives};
ghost use Rattle.ca_canonical.specs.Annotated.{annotated};
ghost use Rattle.ca_canonical.specs.Marks.{Marking, no_marks, tokens, unmarked};
ghost use Rattle.ca_canonical.specs.Erased.{Erased};
ghost use Rattle.ca_canonical.specs.Texts.{text_of, text_of_pieces};
ghost use Rattle.ca_canonical.specs.Spell.{spell};
ghost use Rattle.ca_canonical.specs.ReadsBack.{DerivesLike};

/// The canonical text of a tree that the tokens of some text derive has tokens, and they derive a
/// tree that is equal but for places.
pub fn canonical_text_reads_back()
    ensures tokens { (text : List ℕ) (ts : List Token) (t : TextTree) → Tokens text ts → Derives ts t → (us : List Token) × Tokens (text_of (spell t)) us }
    ensures tree { (text : List ℕ) (ts us : List Token) (t : TextTree) → Tokens text ts → Derives ts t → Tokens (text_of (spell t)) us → DerivesLike us t }
{}

/// Without its marks an annotated tree is its canonical tokens, and these are all of it where nothing
/// is marked.
pub fn annotated_trees_are_canonical()
    ensures marked { (m : Marking) (t : TextTree) → unmarked (annotated m t) ≡ spell t }
    ensures unmarked { (t : TextTree) → annotated no_marks t ≡ tokens (spell t) }
{}

/// The annotated text of a tree that the tokens of some text derive is, without its marks, the
/// canonical text, where no mark stands before an empty statement.
pub fn annotated_texts_are_erased()
    ensures { (text : List ℕ) (ts : List Token) (t : TextTree) (m : Marking) → Tokens text ts → Derives ts t → ((body : Option Place) (front : Option Statement) (at : Place) → m.before body front (empty at) ≡ []) → Erased (text_of_pieces (annotated m t)) (text_of (spell t)) }
{}
