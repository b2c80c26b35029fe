//! Laws of tokens: a text has one list of them (`specs/Tokens.antt`) or one first refused place (`specs/Faults.antt`), and
//! each is the longest (`specs/Pieces.antt`).

ghost use Rattle.std.specs.Prelude.{◌≡◌, ◌≤◌, ℕ, List, length, take};
ghost use Rattle.ca_tree.specs.declared.name.Place.{Place};
ghost use Rattle.ca_tree.specs.declared.token.Kind.{Kind};
ghost use Rattle.ca_tree.specs.declared.token.Token.{Token};
ghost use Rattle.ca_lex.specs.Pieces.{piece_of, token_of};
ghost use Rattle.ca_lex.specs.Tokens.{Tokens};
ghost use Rattle.ca_lex.specs.declared.TheConstants.{MOST_TOKENS};
ghost use Rattle.ca_lex.specs.Faults.{LexFault, Refusal};

/// A text has one list of tokens.
pub fn one_list_of_tokens()
    ensures { (text : List ℕ) (a b : List Token) → Tokens text a → Tokens text b → a ≡ b }
{}

/// A text has one first refused place, and what is refused there is one kind.
pub fn one_refusal()
    ensures place { (text : List ℕ) (p q : Place) (f g : Refusal) → LexFault text p f → LexFault text q g → p ≡ q }
    ensures kind { (text : List ℕ) (p q : Place) (f g : Refusal) → LexFault text p f → LexFault text q g → f ≡ g }
{}

/// A text in which something is refused has no tokens within the limit. So `lex` gives tokens
/// exactly where there are some within the limit, and a refusal exactly where it stands, unless
/// memory runs out.
pub fn refused_texts_have_no_tokens()
    ensures { (text : List ℕ) (p : Place) (f : Refusal) (ts : List Token) → LexFault text p f → Tokens text ts → length ts ≤ MOST_TOKENS → ⊥ }
{}

/// At each place the longest token is taken: its bytes are that token by themselves, and no front
/// of the bytes that is a token by itself is longer.
pub fn longest_token()
    ensures alone { (s : List ℕ) (n : ℕ) (kind : Kind) → piece_of s ≡ token_of n kind → piece_of (take n s) ≡ token_of n kind }
    ensures longest { (s : List ℕ) (n m : ℕ) (kind other : Kind) → piece_of s ≡ token_of n kind → piece_of (take m s) ≡ token_of m other → m ≤ n }
{}
