//! Writes a tree as its canonical text with the marks of a plan: `annotated_text` of `specs/Annotations.antt`.

ghost use Rattle.std.specs.Prelude.{◌≡◌, ◌++◌, ℕ, List, map, slice_get, IfOk};
ghost use Rattle.ca_tree.specs.declared.token.Token.{Token};
ghost use Rattle.ca_tree.specs.declared.name.Place.{Place};
ghost use Rattle.ca_tree.specs.View.{method_view as method_tree, tree_view};
ghost use Rattle.ca_program.specs.View.{method_view, program_view, statements_view};
ghost use Rattle.ca_lex.specs.Tokens.{Tokens};
ghost use Rattle.ca_meaning.specs.Functions.{body_of};
ghost use Rattle.ca_parse.specs.Grammar.{Derives};
ghost use Rattle.ca_parallel.specs.Marks.{SoundMarks};
ghost use Rattle.ca_plan.specs.Checked.{Checked};
ghost use Rattle.ca_plan.specs.Plans.{PlanOf};
ghost use Rattle.ca_canonical.specs.Erased.{Erased};
ghost use Rattle.ca_canonical.specs.Spell.{spell};
ghost use Rattle.ca_canonical.specs.Texts.{text_of};
ghost use Rattle.ca_emit.specs.Annotations.{all_sites, annotated_text, bodies_from, has_place, locked_bodies, operations_of, parallel_bodies, parallel_sites, place_if, place_in, sites_of_method};
ghost use Rattle.ca_lock_laws.specs.Resolves.{ProgramResolves};
ghost use Rattle.ca_emit.specs.Locks.{KeptText, MarkedText, NamesApart};
ghost use Rattle.ca_emit.specs.clauses.Seen.{methods_seen};

use crate::marking::Marked;
use crate::parallel::{locked_ops, operations, parallel_ops};
use crate::places::Places;
use crate::sites::add_parallel;
use ca_base::Memory;
use ca_canonical::annotate;
use ca_parallel::Marks;
use ca_plan::{Plan, is_op_in};
use ca_program::{Method, OpId, Program, Stmt};
use ca_tree::{MethodNode, Place, Tree};
use std::alloc::{AllocError, Global};

/// Adds a place, or not.
fn add_body(wanted: bool, at: Place, out: &mut Vec<Place>) -> Result<(), AllocError>
    ensures { IfOk result (λ _. out.new.items ≡ out.old.items ++ place_if wanted at) }
{
    if wanted {
        out.push(at)?;
    }
    Ok(())
}

/// The names of these operations.
fn bodies(alloc: Global, ops: &[OpId], methods: &[&MethodNode]) -> Result<Vec<Place>, Memory>
    ensures { IfOk result (λ places. places.items ≡ bodies_from ops.now 0 (methods_seen methods.now)) }
{
    let mut places = Vec::new(alloc);
    for n in 0..methods.len() {
        add_body(is_op_in(ops, n), methods[n].at, &mut places)?;
    }
    Ok(places)
}

/// The statements of the method of this number; none where there is no such method.
fn body_at(methods: &[Method], n: usize) -> &[Stmt]
    ensures { statements_view result.now ≡ body_of (slice_get (map method_view methods.now) n) }
{
    if n < methods.len() {
        methods[n].body.stmts.as_slice()
    } else {
        &[]
    }
}

/// Adds what runs in parallel in the body of an operation that isn't itself parallel.
fn add_sites_in(
    alloc: Global,
    program: &Program,
    marks: &Marks,
    parallel: &[OpId],
    n: usize,
    method: &MethodNode,
    out: &mut Vec<Place>,
) -> Result<(), AllocError>
    ensures { IfOk result (λ _. out.new.items ≡ out.old.items ++ sites_of_method (program_view program.now) marks.now parallel.now n (method_tree method.now)) }
{
    if !is_op_in(parallel, n) {
        add_parallel(alloc, marks, &method.body, body_at(&program.ops, n), out)?;
    }
    Ok(())
}

/// The calls and loops of other operations and of `main` that run in parallel.
fn sites(
    alloc: Global,
    program: &Program,
    tree: &Tree,
    marks: &Marks,
    parallel: &[OpId],
    methods: &[&MethodNode],
) -> Result<Vec<Place>, Memory>
    requires { methods_seen methods.now ≡ operations_of (tree_view tree.now).classes }
    ensures { IfOk result (λ places. places.items ≡ all_sites (program_view program.now) marks.now parallel.now (tree_view tree.now)) }
{
    let mut places = Vec::new(alloc);
    for n in 0..methods.len() {
        add_sites_in(alloc, program, marks, parallel, n, methods[n], &mut places)?;
    }
    add_parallel(alloc, marks, &tree.main, &program.main.stmts, &mut places)?;
    Ok(places)
}

/// What is marked.
fn marked(alloc: Global, program: &Program, tree: &Tree, plan: &Plan) -> Result<Marked, Memory>
    ensures locked { IfOk result (λ m. (at : Place) → has_place m.locked at ≡ place_in (locked_bodies (program_view program.now) plan.now (tree_view tree.now)) at) }
    ensures parallel { IfOk result (λ m. (at : Place) → has_place m.parallel at ≡ place_in (parallel_bodies plan.now (tree_view tree.now)) at) }
    ensures sites { IfOk result (λ m. (at : Place) → has_place m.sites at ≡ place_in (parallel_sites (program_view program.now) plan.now (tree_view tree.now)) at) }
{
    let parallel_ops = parallel_ops(alloc, plan)?;
    let locked_ops = locked_ops(alloc, program, plan)?;
    let methods = operations(alloc, tree)?;
    let named = bodies(alloc, &parallel_ops, &methods)?;
    let taking = bodies(alloc, &locked_ops, &methods)?;
    let called = sites(alloc, program, tree, plan.marks(), &parallel_ops, &methods)?;
    let locked = Places::of(alloc, &taking)?;
    let parallel = Places::of(alloc, &named)?;
    let sites = Places::of(alloc, &called)?;
    Ok(Marked {
        locked,
        parallel,
        sites,
    })
}

/// The annotated text of a tree, of its program and of the program's plan. Without its marks it is the canonical text. Where
/// the plan is the program's, with sound marks, the bodies of its operations keep the lock discipline; where the program stands
/// for the tree, each call and each loop that runs in parallel has its mark, in `main` and in each operation to which no marked
/// call or loop may lead.
pub fn emit(alloc: Global, program: &Program, tree: &Tree, plan: &Plan) -> Result<Vec<u8>, Memory>
    ensures text { IfOk result (λ out. out.items ≡ annotated_text (program_view program.now) plan.now (tree_view tree.now)) }
    ensures erased { (text : List ℕ) (tokens : List Token) → Tokens text tokens → Derives tokens (tree_view tree.now) → IfOk result (λ out. Erased out.items (text_of (spell (tree_view tree.now)))) }
    ensures locks { PlanOf (program_view program.now) plan.now → Checked (program_view program.now) → SoundMarks (program_view program.now) plan.now.marks → IfOk result (λ out. KeptText (program_view program.now) plan.now (tree_view tree.now) out.items) }
    ensures sites { ProgramResolves (tree_view tree.now) (program_view program.now) → PlanOf (program_view program.now) plan.now → NamesApart (tree_view tree.now) → IfOk result (λ out. MarkedText (program_view program.now) plan.now (tree_view tree.now) out.items) }
{
    let marked = marked(alloc, program, tree, plan)?;
    annotate(alloc, tree, &marked)
}
