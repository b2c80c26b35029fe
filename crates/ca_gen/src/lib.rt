//! A large text that anyone can make again from a number.
//!
//! `generated_text` gives the text of `specs/Generated.antt`: a table of nodes, each linked to two nodes
//! that a seed gives, and a visit of all that the first node reaches. `ca_gen_laws` says that the text is
//! accepted, and that its run ends.
//!
//! Whoever reads the public clauses must believe `Generated` of `specs/`.
#![tactic(auto)]

ghost use Rattle.std.specs.Prelude.{◌≡◌, ◌<◌, ◌≤◌, ◌++◌, decimal, IfOk};
ghost use Rattle.ca_gen.specs.Generated.{next, node_of, link_line, text_before, generated};

use ca_base::Memory;
use itoa::Buffer;
use std::alloc::{AllocError, Global};

// The parts of the text between which its numbers stand.

const NODE_CLASS: &str =
    "class Node {\npublic:\n  bool mark;\n  long value;\n  long sum;\n  Node *left;\n  Node *right;\n  void set(long v, Node *l, Node *r) {\n    value = v;\n    left = l;\n    right = r;\n  }\n  void visit(long p) {\n    sum += p;\n    if (!mark) {\n      mark = true;\n      left->visit(value);\n      right->visit(value);\n    }\n  }\n};\n";

const TABLE_BEGIN: &str = "class Table {\npublic:\n  Node *at[";

const FILL_BEGIN: &str = "];\n  void fill() {\n    for (long i = 0; i < ";

const TABLE_END: &str =
    "; i++) at[i] = new Node();\n  }\n  void link(long i, long l, long r) {\n    at[i]->set(i + 1, at[l], at[r]);\n  }\n};\n";

const MAIN_BEGIN: &str = "int main() {\n  Table *t = new Table();\n  t->fill();\n";

const MAIN_END: &str = "  t->at[0]->visit(1);\n  return 0;\n}\n";

/// The text of a seed and a size.
///
/// Errors: out of memory.
pub fn generated_text(alloc: Global, seed: u64, size: u32) -> Result<Vec<u8>, Memory>
    requires { (1 ≤ size) × (size ≤ 20000) }
    ensures { IfOk result (λ text. text.items ≡ generated seed size) }
{
    let mut text = Vec::new(alloc);
    add_classes(&mut text, size)?;
    let mut number = seed % 2_147_483_648;
    for node in 0..size {
        let left = next(number);
        let right = next(left);
        add_link(&mut text, node, node_of(size, left), node_of(size, right))?;
        number = right;
    }
    text.extend_from_slice(MAIN_END.as_bytes())?;
    Ok(text)
}

/// Adds the text up to the links.
fn add_classes(text: &mut Vec<u8>, size: u32) -> Result<(), AllocError>
    ensures { IfOk result (λ _. text.new.items ≡ text.old.items ++ text_before size) }
{
    text.extend_from_slice(NODE_CLASS.as_bytes())?;
    add_number(text, TABLE_BEGIN, size)?;
    add_number(text, FILL_BEGIN, size)?;
    text.extend_from_slice(TABLE_END.as_bytes())?;
    text.extend_from_slice(MAIN_BEGIN.as_bytes())?;
    Ok(())
}

/// The number that is drawn behind another.
fn next(number: u64) -> u64
    requires { number < 2147483648 }
    ensures next { result ≡ next number }
    ensures below { result < 2147483648 }
{
    (1_103_515_245 * number + 12_345) % 2_147_483_648
}

/// The node that a number gives, of `size` nodes.
fn node_of(size: u32, number: u64) -> u32
    requires { (1 ≤ size) × (size ≤ 20000) }
    ensures { result ≡ node_of size number }
{
    (number / 65_536 % u64::from(size)) as u32
}

/// Adds the line that links a node to two others.
fn add_link(text: &mut Vec<u8>, node: u32, left: u32, right: u32) -> Result<(), AllocError>
    ensures { IfOk result (λ _. text.new.items ≡ text.old.items ++ link_line node left right) }
{
    add_number(text, "  t->link(", node)?;
    add_number(text, ", ", left)?;
    add_number(text, ", ", right)?;
    text.extend_from_slice(b");\n")?;
    Ok(())
}

/// Adds a piece and then the digits of a number.
fn add_number(text: &mut Vec<u8>, piece: &str, number: u32) -> Result<(), AllocError>
    ensures { IfOk result (λ _. text.new.items ≡ text.old.items ++ (piece.now ++ decimal number)) }
{
    text.extend_from_slice(piece.as_bytes())?;
    let mut digits = Buffer::new();
    text.extend_from_slice(digits.format(number).as_bytes())?;
    Ok(())
}
