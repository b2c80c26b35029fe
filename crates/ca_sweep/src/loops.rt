//! Loops that sweep, found by their form.

ghost use Rattle.std.specs.Prelude.{◌≡◌, ◌&&◌, ℕ, List, Option, true, IfSome, IfNone, Some, None};
ghost use Rattle.std.specs.List.{list_any};
ghost use Rattle.ca_tree.specs.declared.tree.AssignOp.TheVariants.{Add, Put};
ghost use Rattle.ca_tree.specs.declared.tree.BinaryOp.TheVariants.{Less, Plus};
ghost use Rattle.ca_program.specs.declared.program.FieldId.{FieldId};
ghost use Rattle.ca_program.specs.Fields.{same_field};
ghost use Rattle.ca_program.specs.Plain.{binary, put_local};
ghost use Rattle.ca_program.specs.View.{expression_view, statement_view, statements_view};
ghost use Rattle.ca_sweep.specs.Sweeps.{is_atom, is_product, is_sum};
ghost use Rattle.ca_sweep.specs.Found.{beginning, put_by, bound, counts_up, is_counter, is_its_item, of_sides, of_right, of_put, addition, addition_in, addition_alone, with_bound, with_beginning, sweep_form, is_below, known, sums_known, sweep_in, sweep_at};
ghost use Rattle.ca_sweep.specs.Seen.{sweep_view};

use ca_program::{AssignOp, BinaryOp, Expr, FieldId, FirstPart, LocalId, Stmt, StmtForm};

/// A loop that adds the same to each item of an array from one number up to but not including another, or takes it off.
#[derive(Clone, Copy)]
pub struct SweepLoop<'a> {
    pub counter: LocalId,
    pub field: FieldId,
    pub from: &'a Expr,
    pub to: &'a Expr,
    pub addend: &'a Expr,
    pub minus: bool,
}

/// A counter, and what it is put to.
#[derive(Clone, Copy)]
struct Begun<'a> {
    counter: LocalId,
    from: &'a Expr,
}

/// What is added at an item, or taken off.
#[derive(Clone, Copy)]
struct Adding<'a> {
    field: FieldId,
    addend: &'a Expr,
    minus: bool,
}

/// The local that a statement puts, without an operator.
fn put_by(s: &Stmt) -> Option<Begun<'_>>
    ensures some { IfSome result (λ b. put_by (statement_view s.now) ≡ Some (record { counter = b.counter; from = expression_view b.from.now })) }
    ensures none { IfNone result (put_by (statement_view s.now) ≡ None) }
{
    match &s.kind {
        StmtForm::PutLocal(i, AssignOp::Put, e) => Some(Begun {
            counter: *i,
            from: e,
        }),
        _ => None,
    }
}

/// The counter that the first part of a `for` declares.
fn beginning(part: FirstPart, first: &Stmt) -> Option<Begun<'_>>
    ensures some { IfSome result (λ b. beginning part (statement_view first.now) ≡ Some (record { counter = b.counter; from = expression_view b.from.now })) }
    ensures none { IfNone result (beginning part (statement_view first.now) ≡ None) }
{
    match part {
        FirstPart::Declares => put_by(first),
        FirstPart::Assigns => None,
    }
}

/// Whether it is this local.
fn is_counter(e: &Expr, i: LocalId) -> bool
    ensures { result ≡ is_counter (expression_view e.now) i }
{
    match e {
        Expr::Local(l) => l.0 == i.0,
        _ => false,
    }
}

/// What the counter is compared with, on the right side of a comparison of these.
fn right_of<'a>(a: &'a Expr, e: &'a Expr, i: LocalId) -> Option<&'a Expr>
    ensures some { IfSome result (λ b. bound (binary Less (expression_view a.now) (expression_view e.now)) i ≡ Some (expression_view b.now)) }
    ensures none { IfNone result (bound (binary Less (expression_view a.now) (expression_view e.now)) i ≡ None) }
{
    if is_counter(a, i) { Some(e) } else { None }
}

/// What the counter is compared with.
fn bound(c: &Expr, i: LocalId) -> Option<&Expr>
    ensures some { IfSome result (λ b. bound (expression_view c.now) i ≡ Some (expression_view b.now)) }
    ensures none { IfNone result (bound (expression_view c.now) i ≡ None) }
{
    match c {
        Expr::Binary(BinaryOp::Less, a, e) => right_of(a, e, i),
        _ => None,
    }
}

/// Whether `l += e` adds one to the counter.
fn adds_one(l: LocalId, e: &Expr, i: LocalId) -> bool
    ensures { (line : ℕ) → result ≡ counts_up (put_local line l Add (expression_view e.now)) i }
{
    match e {
        Expr::Number(n) => l.0 == i.0 && *n == 1,
        _ => false,
    }
}

/// Whether `l = a + b` does.
fn puts_sum(l: LocalId, a: &Expr, b: &Expr, i: LocalId) -> bool
    ensures { (line : ℕ) → result ≡ counts_up (put_local line l Put (binary Plus (expression_view a.now) (expression_view b.now))) i }
{
    match (a, b) {
        (Expr::Local(m), Expr::Number(n)) => l.0 == i.0 && (m.0 == i.0 && *n == 1),
        _ => false,
    }
}

/// Whether `l = a op b` does.
fn puts_operation(l: LocalId, op: BinaryOp, a: &Expr, b: &Expr, i: LocalId) -> bool
    ensures { (line : ℕ) → result ≡ counts_up (put_local line l Put (binary op (expression_view a.now) (expression_view b.now))) i }
{
    match op {
        BinaryOp::Plus => puts_sum(l, a, b, i),
        _ => false,
    }
}

/// Whether `l = e` does.
fn puts_one_more(l: LocalId, e: &Expr, i: LocalId) -> bool
    ensures { (line : ℕ) → result ≡ counts_up (put_local line l Put (expression_view e.now)) i }
{
    match e {
        Expr::Binary(op, a, b) => puts_operation(l, *op, a, b, i),
        _ => false,
    }
}

/// Whether a put does.
fn counts_by(l: LocalId, op: AssignOp, e: &Expr, i: LocalId) -> bool
    ensures { (line : ℕ) → result ≡ counts_up (put_local line l op (expression_view e.now)) i }
{
    match op {
        AssignOp::Add => adds_one(l, e, i),
        AssignOp::Put => puts_one_more(l, e, i),
        _ => false,
    }
}

/// Whether the last part of a `for` counts up by one.
pub fn counts_up(s: &Stmt, i: LocalId) -> bool
    ensures { result ≡ counts_up (statement_view s.now) i }
{
    match &s.kind {
        StmtForm::PutLocal(l, op, e) => counts_by(*l, *op, e, i),
        _ => false,
    }
}

/// Whether it is the item of the field at the counter.
fn is_its_item(e: &Expr, f: FieldId, i: LocalId) -> bool
    ensures { result ≡ is_its_item (expression_view e.now) f i }
{
    match e {
        Expr::OwnItem(g, index) => f.same(*g) && is_counter(index, i),
        _ => false,
    }
}

/// What `a op b` adds to the item, where a is that item.
fn of_sides<'a>(
    op: BinaryOp,
    f: FieldId,
    a: &'a Expr,
    b: &'a Expr,
    i: LocalId,
) -> Option<Adding<'a>>
    ensures some { IfSome result (λ x. of_sides op f (expression_view a.now) (expression_view b.now) i ≡ Some (record { field = x.field; addend = expression_view x.addend.now; minus = x.minus })) }
    ensures none { IfNone result (of_sides op f (expression_view a.now) (expression_view b.now) i ≡ None) }
{
    let minus = match op {
        BinaryOp::Plus => false,
        BinaryOp::Minus => true,
        _ => return None,
    };
    if is_its_item(a, f, i) {
        Some(Adding {
            field: f,
            addend: b,
            minus,
        })
    } else {
        None
    }
}

/// What the right side of a put adds to the item.
fn of_right(f: FieldId, e: &Expr, i: LocalId) -> Option<Adding<'_>>
    ensures some { IfSome result (λ x. of_right f (expression_view e.now) i ≡ Some (record { field = x.field; addend = expression_view x.addend.now; minus = x.minus })) }
    ensures none { IfNone result (of_right f (expression_view e.now) i ≡ None) }
{
    match e {
        Expr::Binary(op, a, b) => of_sides(*op, f, a, b, i),
        _ => None,
    }
}

/// What a put of the item adds to it.
fn of_put(op: AssignOp, f: FieldId, e: &Expr, i: LocalId) -> Option<Adding<'_>>
    ensures some { IfSome result (λ x. of_put op f (expression_view e.now) i ≡ Some (record { field = x.field; addend = expression_view x.addend.now; minus = x.minus })) }
    ensures none { IfNone result (of_put op f (expression_view e.now) i ≡ None) }
{
    match op {
        AssignOp::Add => Some(Adding {
            field: f,
            addend: e,
            minus: false,
        }),
        AssignOp::Sub => Some(Adding {
            field: f,
            addend: e,
            minus: true,
        }),
        AssignOp::Put => of_right(f, e, i),
        _ => None,
    }
}

/// What a statement adds to the item at the counter.
fn addition(s: &Stmt, i: LocalId) -> Option<Adding<'_>>
    ensures some { IfSome result (λ x. addition (statement_view s.now) i ≡ Some (record { field = x.field; addend = expression_view x.addend.now; minus = x.minus })) }
    ensures none { IfNone result (addition (statement_view s.now) i ≡ None) }
{
    match &s.kind {
        StmtForm::PutItem(f, index, op, e) => {
            if is_counter(index, i) {
                of_put(*op, *f, e, i)
            } else {
                None
            }
        }
        _ => None,
    }
}

/// What statements add, if they are one.
fn addition_in(stmts: &[Stmt], i: LocalId) -> Option<Adding<'_>>
    ensures some { IfSome result (λ x. addition_in (statements_view stmts.now) i ≡ Some (record { field = x.field; addend = expression_view x.addend.now; minus = x.minus })) }
    ensures none { IfNone result (addition_in (statements_view stmts.now) i ≡ None) }
{
    if stmts.len() != 1 {
        return None;
    }
    addition(&stmts[0], i)
}

/// What the body of a loop adds, alone or in a block of its own.
fn addition_alone(s: &Stmt, i: LocalId) -> Option<Adding<'_>>
    ensures some { IfSome result (λ x. addition_alone (statement_view s.now) i ≡ Some (record { field = x.field; addend = expression_view x.addend.now; minus = x.minus })) }
    ensures none { IfNone result (addition_alone (statement_view s.now) i ≡ None) }
{
    match &s.kind {
        StmtForm::Block(stmts) => addition_in(stmts, i),
        _ => addition(s, i),
    }
}

/// What the loop sweeps, whose counter begins so, where it counts up.
fn with_addition<'a>(
    b: Begun<'a>,
    to: &'a Expr,
    next: &Stmt,
    body: &'a Stmt,
) -> Option<SweepLoop<'a>>
    ensures some { IfSome result (λ s. with_bound (record { counter = b.entry.counter; from = expression_view b.entry.from.now }) (Some (expression_view to.now)) (statement_view next.now) (statement_view body.now) ≡ Some (sweep_view s)) }
    ensures none { IfNone result (with_bound (record { counter = b.entry.counter; from = expression_view b.entry.from.now }) (Some (expression_view to.now)) (statement_view next.now) (statement_view body.now) ≡ None) }
{
    if !counts_up(next, b.counter) {
        return None;
    }
    match addition_alone(body, b.counter) {
        Some(a) => Some(SweepLoop {
            counter: b.counter,
            field: a.field,
            from: b.from,
            to,
            addend: a.addend,
            minus: a.minus,
        }),
        None => None,
    }
}

/// The same, from its parts.
fn of_parts<'a>(
    part: FirstPart,
    first: &'a Stmt,
    c: &'a Expr,
    next: &Stmt,
    body: &'a Stmt,
) -> Option<SweepLoop<'a>>
    ensures some { IfSome result (λ s. with_beginning (beginning part (statement_view first.now)) (expression_view c.now) (statement_view next.now) (statement_view body.now) ≡ Some (sweep_view s)) }
    ensures none { IfNone result (with_beginning (beginning part (statement_view first.now)) (expression_view c.now) (statement_view next.now) (statement_view body.now) ≡ None) }
{
    let Some(b) = beginning(part, first) else {
        return None;
    };
    let Some(to) = bound(c, b.counter) else {
        return None;
    };
    with_addition(b, to, next, body)
}

/// The sweep that a statement is by its form, whatever its bounds and its addend are.
pub fn sweep_form(s: &Stmt) -> Option<SweepLoop<'_>>
    ensures some { IfSome result (λ x. sweep_form (statement_view s.now) ≡ Some (sweep_view x)) }
    ensures none { IfNone result (sweep_form (statement_view s.now) ≡ None) }
{
    match &s.kind {
        StmtForm::For(_, part, first, c, next, body) => of_parts(*part, first, c, next, body),
        _ => None,
    }
}

/// Whether a number is below another, if there is one.
fn is_below(n: u32, below: Option<u32>) -> bool
    ensures { result ≡ is_below n below }
{
    match below {
        Some(most) => n < most,
        None => true,
    }
}

/// Whether a local may stand in a sum.
fn may_name(l: LocalId, counter: LocalId, below: Option<u32>) -> bool
    ensures { (written : List FieldId) → result ≡ (known counter.0 below written).local l.0 }
{
    counter.0 != l.0 && is_below(l.0, below)
}

/// Whether the field is one of these.
fn is_written(f: FieldId, written: &[FieldId]) -> bool
    ensures { result ≡ list_any (same_field f) written.now }
{
    for g in written {
        if f.same(*g) {
            return true;
        }
    }
    false
}

/// Whether a field may.
fn may_read(f: FieldId, written: &[FieldId]) -> bool
    ensures { (counter : ℕ) (below : Option ℕ) → result ≡ (known counter below written.now).field f }
{
    !is_written(f, written)
}

/// Whether an expression is a number, a local or an own field that a sum may name.
fn is_atom(e: &Expr, counter: LocalId, below: Option<u32>, written: &[FieldId]) -> bool
    ensures { result ≡ is_atom (known counter.0 below written.now) (expression_view e.now) }
{
    match e {
        Expr::Number(_) => true,
        Expr::Local(l) => may_name(*l, counter, below),
        Expr::Own(f) => may_read(*f, written),
        _ => false,
    }
}

/// Whether an expression is a product of such.
#[cycle(product)]
fn is_product(e: &Expr, counter: LocalId, below: Option<u32>, written: &[FieldId]) -> bool
    ensures { result ≡ is_product (known counter.0 below written.now) (expression_view e.now) }
{
    match e {
        Expr::Binary(BinaryOp::Times, a, b) => {
            is_product(a, counter, below, written) && is_product(b, counter, below, written)
        }
        _ => is_atom(e, counter, below, written),
    }
}

/// Whether an expression is a sum of such products.
#[cycle(sum)]
fn is_sum(e: &Expr, counter: LocalId, below: Option<u32>, written: &[FieldId]) -> bool
    ensures { result ≡ is_sum (known counter.0 below written.now) (expression_view e.now) }
{
    match e {
        Expr::Binary(BinaryOp::Plus, a, b) => {
            is_sum(a, counter, below, written) && is_sum(b, counter, below, written)
        }
        _ => is_product(e, counter, below, written),
    }
}

impl SweepLoop<'_> {
    /// Whether its bounds and its addend are sums of products of numbers, of locals but its counter, below a number if there
    /// is one, and of own fields that aren't written.
    pub fn sums_known(self, below: Option<u32>, written: &[FieldId]) -> bool
        ensures { result ≡ sums_known (sweep_view self.entry) below written.now }
    {
        is_sum(self.from, self.counter, below, written)
            && (is_sum(self.to, self.counter, below, written)
                && is_sum(self.addend, self.counter, below, written))
    }
}

/// The sweep that a statement is, in a method with so many parameters, of an extent that writes these fields. It takes no
/// memory.
pub fn sweep_in<'a>(params: u32, written: &[FieldId], s: &'a Stmt) -> Option<SweepLoop<'a>>
    ensures some { IfSome result (λ x. sweep_in params written.now (statement_view s.now) ≡ Some (sweep_view x)) }
    ensures none { IfNone result (sweep_in params written.now (statement_view s.now) ≡ None) }
{
    match sweep_form(s) {
        Some(x) => {
            if x.sums_known(Some(params), written) {
                Some(x)
            } else {
                None
            }
        }
        None => None,
    }
}

/// The sweep that a statement is by its form, whatever locals and own fields it names. It takes no memory.
pub fn sweep_at<'a>(s: &'a Stmt) -> Option<SweepLoop<'a>>
    ensures some { IfSome result (λ x. sweep_at (statement_view s.now) ≡ Some (sweep_view x)) }
    ensures none { IfNone result (sweep_at (statement_view s.now) ≡ None) }
{
    match sweep_form(s) {
        Some(x) => {
            if x.sums_known(None, &[]) {
                Some(x)
            } else {
                None
            }
        }
        None => None,
    }
}
