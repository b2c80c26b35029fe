//! The canonical text of a tree: every tree has one written form, and where the tokens of some text
//! derive the tree, those of its written form derive it too, but for places. The annotated text is
//! that text with marks between its tokens, and one walk writes both.
//!
//! `unparse` promises exactly the text that `specs/Spell.antt` (which tokens) and `specs/Texts.antt`
//! (which bytes) define, unless memory runs out, and `annotate` that of `specs/Annotated.antt` (which
//! tokens and marks). The walk writes the bytes as it goes over the tree, in time linear in the tree.
//!
//! Whoever reads the public clauses must believe `Annotated`, `Bare`, `Erased`, `Marks`, `ReadsBack`, `Spell` and
//! `Texts` of `specs/`; what stands in `specs/clauses/` serves clauses within the crate alone.
#![tactic(auto)]

mod classes;
mod expressions;
pub mod laws;
mod marks;
mod operators;
mod pen;
mod statements;

ghost use Rattle.std.specs.Prelude.{◌≡◌, IfOk};
ghost use Rattle.ca_tree.specs.View.{tree_view};
ghost use Rattle.ca_canonical.specs.Annotated.{annotated};
ghost use Rattle.ca_canonical.specs.Texts.{text_of, text_of_pieces};
ghost use Rattle.ca_canonical.specs.Spell.{spell};

use crate::classes::{write_classes, write_main};
use crate::pen::Pen;
use ca_base::Memory;
use ca_tree::Tree;
pub use marks::{Mark, Marks, NoMarks};
use std::alloc::Global;

/// The canonical text of the tree.
pub fn unparse(alloc: Global, tree: &Tree) -> Result<Vec<u8>, Memory>
    ensures { IfOk result (λ text. text.items ≡ text_of (spell (tree_view tree.now))) }
{
    let text = annotate(alloc, tree, &NoMarks)?;
    Ok(text)
}

/// The text of the tree with these marks.
pub fn annotate<M: Marks>(alloc: Global, tree: &Tree, marks: &M) -> Result<Vec<u8>, Memory>
    ensures { IfOk result (λ text. text.items ≡ text_of_pieces (annotated (M.marking marks.now) (tree_view tree.now))) }
{
    let mut pen = Pen::new(alloc);
    write_classes(&mut pen, marks, &tree.classes);
    write_main(&mut pen, marks, &tree.main);
    let text = pen.finish()?;
    Ok(text)
}
