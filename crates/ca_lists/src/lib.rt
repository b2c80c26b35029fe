//! Laws of lists that std lacks, for whatever a list has: what is a member of it (`proofs/Members.antt`), and what stands at
//! a place of it (`proofs/Places.antt`). Lemmas alone; there is no code here, and no definition.
#![tactic(auto)]
