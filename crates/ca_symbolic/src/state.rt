//! What symbolic execution keeps: a term for each field and each local.

ghost use Rattle.std.specs.Prelude.{◌≡◌, ◌≤◌, ◌^◌, ◌++◌, length, false, slice_set, Some, IfOk, OnOk};
ghost use Rattle.ca_program.specs.View.{method_view};
ghost use Rattle.ca_shared_terms.specs.Starts.{starts};
ghost use Rattle.ca_symbolic.specs.States.{State, term_at, receiver, start_term, parameters, first_locals};
ghost use Rattle.ca_symbolic.specs.Execution.{with_field, with_local};
ghost use Rattle.ca_symbolic.specs.Runs.{fresh, with_locals};
ghost use Rattle.ca_norm.specs.Terms.{atom};
ghost use Rattle.ca_shared_terms.specs.Heavy.{is_heavy};

use ca_forms::parts::{add, both};
use ca_norm::Sort;
use ca_program::{FieldInfo, Method, ValueType};
use ca_shared_terms::{FIELDS, LightTerm, sort_of_slot, sort_of_type};
use std::alloc::{AllocError, Global};
use std::marker::Model;

/// The terms of the fields and of the locals.
#[derive(Drop)]
pub struct SymState {
    fields: Vec<LightTerm>,
    locals: Vec<LightTerm>,
}

impl Model for SymState {
    ghost use Rattle.ca_symbolic.specs.States.{State};

    ghost Value = { State };

    ghost use Rattle.ca_symbolic.specs.StateCodes.{coded_state};

    ghost coded = { coded_state };

    ghost view = { λ s. record { fields = s.fields.items; locals = s.locals.items } };
}

/// The term at a place, null where there is none.
fn shared_at(alloc: Global, terms: &[LightTerm], place: u32) -> Result<LightTerm, AllocError>
    ensures same { IfOk result (λ t. t ≡ term_at terms.now place) }
    ensures light { IfOk result (λ _. is_heavy (term_at terms.now place) ≡ false) }
{
    let place = place as usize;
    if place < terms.len() {
        let term = &terms[place];
        term.share()
    } else {
        LightTerm::null(alloc)
    }
}

/// The receiver.
pub fn receiver(alloc: Global) -> Result<LightTerm, AllocError>
    ensures { IfOk result (λ t. t ≡ receiver) }
{
    LightTerm::atom(alloc, Sort::Pointer, 0, 0)
}

fn put_at(terms: &mut Vec<LightTerm>, place: u32, term: LightTerm)
    ensures { terms.new.items ≡ slice_set terms.old.items place term }
{
    let place = place as usize;
    if place < terms.len() {
        terms[place] = term;
    }
}

/// These terms, and those once more behind them.
pub fn shared_behind(
    first: Vec<LightTerm>,
    others: &[LightTerm],
) -> Result<Vec<LightTerm>, AllocError>
    ensures { IfOk result (λ v. v.items ≡ first.items ++ others.now) }
{
    let mut terms = first;
    for term in others {
        add(&mut terms, term.share())?;
    }
    Ok(terms)
}

/// What a local holds before it is put.
fn start_term(alloc: Global, ty: ValueType) -> Result<LightTerm, AllocError>
    ensures { IfOk result (λ t. t ≡ start_term ty) }
{
    match ty {
        ValueType::Long => LightTerm::number(alloc, 0),
        ValueType::Bool => LightTerm::truth(alloc, false),
        ValueType::Pointer(_) => LightTerm::null(alloc),
    }
}

/// The atom of a group at a place, if a u32 numbers it.
fn atom_at(alloc: Global, sort: Sort, group: u32, place: usize) -> Result<LightTerm, AllocError>
    ensures { IfOk result (λ t. t ≡ atom sort group place) }
{
    let Ok(number) = u32::try_from(place) else {
        return Err(AllocError);
    };
    LightTerm::atom(alloc, sort, group, number)
}

/// The parameters as atoms of a group. There is no room for more than a u32 numbers.
fn parameters(alloc: Global, group: u32, types: &[ValueType]) -> Result<Vec<LightTerm>, AllocError>
    ensures { IfOk result (λ v. v.items ≡ parameters group 0 types.now) }
{
    let mut terms = Vec::new(alloc);
    for ty in types {
        let term = atom_at(alloc, sort_of_type(*ty), group, terms.len());
        add(&mut terms, term)?;
    }
    Ok(terms)
}

/// The locals that an operation begins with, whose parameters are the atoms of the group.
fn first_locals(alloc: Global, group: u32, method: &Method) -> Result<Vec<LightTerm>, AllocError>
    ensures { IfOk result (λ v. v.items ≡ first_locals group (Some (method_view method.now))) }
{
    let types = method.body.locals.as_slice();
    let count = (method.params as usize).min(types.len());
    let mut terms = parameters(alloc, group, &types[..count])?;
    let others = &types[count..];
    for ty in others {
        add(&mut terms, start_term(alloc, *ty))?;
    }
    Ok(terms)
}

impl SymState {
    /// The fields as they are at the start, and no locals. There is no room for more fields than a u32 numbers.
    pub fn starting(alloc: Global, fields: &[FieldInfo]) -> Result<SymState, AllocError>
        ensures { IfOk result (λ s. s ≡ fresh (starts 0 fields.now)) }
    {
        let mut terms = Vec::new(alloc);
        for field in fields {
            let term = atom_at(alloc, sort_of_slot(field), FIELDS, terms.len());
            add(&mut terms, term)?;
        }
        Ok(SymState {
            fields: terms,
            locals: Vec::new(alloc),
        })
    }

    /// These fields and these locals.
    pub fn of(fields: Vec<LightTerm>, locals: Vec<LightTerm>) -> SymState
        ensures { result ≡ record { fields = fields.items; locals = locals.items } }
    {
        SymState { fields, locals }
    }

    /// The terms of the fields.
    pub fn fields(&self) -> &[LightTerm]
        ensures { result.now ≡ self.now.fields }
    {
        self.fields.as_slice()
    }

    /// The terms of the locals.
    pub fn locals(&self) -> &[LightTerm]
        ensures { result.now ≡ self.now.locals }
    {
        self.locals.as_slice()
    }

    /// An operation begins, whose parameters are the atoms of the group.
    pub fn begin(&mut self, alloc: Global, group: u32, method: &Method) -> Result<(), AllocError>
        ensures { OnOk result (self.new ≡ with_locals self.old (first_locals group (Some (method_view method.now)))) }
    {
        self.locals = first_locals(alloc, group, method)?;
        Ok(())
    }

    /// The term of a field.
    pub fn field(&self, alloc: Global, place: u32) -> Result<LightTerm, AllocError>
        ensures same { IfOk result (λ t. t ≡ term_at self.now.fields place) }
        ensures light { IfOk result (λ _. is_heavy (term_at self.now.fields place) ≡ false) }
    {
        shared_at(alloc, &self.fields, place)
    }

    /// The term of a local.
    pub fn local(&self, alloc: Global, place: u32) -> Result<LightTerm, AllocError>
        ensures same { IfOk result (λ t. t ≡ term_at self.now.locals place) }
        ensures light { IfOk result (λ _. is_heavy (term_at self.now.locals place) ≡ false) }
    {
        shared_at(alloc, &self.locals, place)
    }

    /// The field holds this from here on.
    pub fn put_field(&mut self, place: u32, term: LightTerm)
        ensures { self.new ≡ with_field self.old place term }
    {
        put_at(&mut self.fields, place, term);
    }

    /// The local holds this from here on.
    pub fn put_local(&mut self, place: u32, term: LightTerm)
        ensures { self.new ≡ with_local self.old place term }
    {
        put_at(&mut self.locals, place, term);
    }

    /// The same state once more.
    pub fn copy(&self, alloc: Global) -> Result<SymState, AllocError>
        ensures { IfOk result (λ s. s ≡ self.now) }
    {
        let fields = shared_behind(Vec::new(alloc), &self.fields);
        let locals = shared_behind(Vec::new(alloc), &self.locals);
        let (fields, locals) = both(fields, locals)?;
        Ok(SymState { fields, locals })
    }
}
