//! From a demand to its key, by which demands are compared: `key_of` of `specs/Keys.antt`.

ghost use Rattle.std.specs.Prelude.{◌≡◌, IfOk};
ghost use Rattle.std.specs.Ordering.{is_eq, as_partial_cmp};
ghost use Rattle.std.specs.Cmp.{partial_equiv_from_equiv, partial_order_from_agreeing_total};
ghost use Rattle.std.proofs.lemmas.Cmp.{eq_by_cmp_equiv};
ghost use Rattle.std.proofs.Common.{refl};
ghost use Rattle.ca_forms.specs.Lists.{scalars_of};
ghost use Rattle.ca_forms.specs.Trees.{tree_cmp};
ghost use Rattle.ca_norm.specs.Terms.{terms_of};
ghost use Rattle.ca_norm.specs.Forms.{arguments_of};
ghost use Rattle.ca_symbolic.specs.Demanded.{kind_of};
ghost use Rattle.ca_verdicts.specs.Keys.{numbers, kind_code, key_cmp, key_total};
ghost use Rattle.ca_verdicts.specs.clauses.Marks.{key_at};

use crate::sums::forms::LastForms;
use ca_forms::compare_scalars;
use ca_forms::parts::{both, longer};
use ca_forms::polynomial::Scalar;
use ca_shared_terms::LightTerm;
use ca_symbolic::{Demand, DemandKind};
use std::alloc::{AllocError, Global};
use std::cmp::Ordering;
use std::marker::Model;

/// What is demanded: its kind, and the normal forms of its parts.
#[derive(Drop)]
pub struct Key {
    pub kind: DemandKind,
    pub parts: Vec<Scalar>,
}

impl Model for Key {
    ghost use Rattle.ca_symbolic.specs.Demanded.{kind_of};
    ghost use Rattle.ca_verdicts.specs.Keys.{Key as PlainKey, coded_key};

    ghost Value = { PlainKey };

    ghost coded = { coded_key };

    ghost use Rattle.ca_forms.specs.Lists.{scalars_of};

    ghost view = { λ k. record { kind = kind_of k.kind; parts = scalars_of k.parts.items } };
}

/// The number of a kind, and the numbers of what it names.
fn numbers_of(kind: DemandKind) -> (u32, u32, u32)
    ensures { numbers result.0 result.1 result.2 ≡ kind_code (kind_of kind) }
{
    match kind {
        DemandKind::NotNull => (0, 0, 0),
        DemandKind::InRange(field) => (1, field.class.0, field.field),
        DemandKind::Calls(method) => (2, method.0, 0),
        DemandKind::Invokes(op) => (3, op.0, 0),
        DemandKind::Loops(site) => (4, site.0, 0),
        DemandKind::Sweeps(field) => (5, field.class.0, field.field),
    }
}

/// By the number of the kind, and then by the numbers of what it names.
fn compare_kinds(a: DemandKind, b: DemandKind) -> Ordering
    ensures { result ≡ tree_cmp (kind_code (kind_of a)) (kind_code (kind_of b)) }
{
    let (k, m, n) = numbers_of(a);
    let (l, i, j) = numbers_of(b);
    match k.cmp(&l) {
        Ordering::Equal => match m.cmp(&i) {
            Ordering::Equal => n.cmp(&j),
            order => order,
        },
        order => order,
    }
}

/// The normal forms of the parts of a demand.
fn forms_of(
    alloc: Global,
    forms: &mut LastForms,
    parts: &[LightTerm],
) -> Result<Vec<Scalar>, AllocError>
    ensures { IfOk result (λ v. scalars_of v.items ≡ arguments_of (terms_of parts.now)) }
{
    let mut items = Vec::new(alloc);
    for part in parts {
        let (so_far, item) = both(Ok(items), forms.scalar(alloc, part))?;
        items = longer(so_far, item)?;
    }
    Ok(items)
}

impl Key {
    /// The key of a demand.
    pub fn of(alloc: Global, forms: &mut LastForms, demand: &Demand) -> Result<Key, AllocError>
        ensures { IfOk result (λ k. k ≡ key_at demand.now) }
    {
        let parts = forms_of(alloc, forms, demand.parts.as_slice())?;
        Ok(Key {
            kind: demand.kind,
            parts,
        })
    }

    /// Whether they are one.
    pub fn is(&self, other: &Key) -> bool
        ensures { result ≡ is_eq (key_cmp self.now other.now) }
    {
        self.compare(other).is_eq()
    }

    /// By the kind, and then by the forms.
    fn compare(&self, other: &Key) -> Ordering
        ensures { result ≡ key_cmp self.now other.now }
    {
        match compare_kinds(self.kind, other.kind) {
            Ordering::Equal => compare_scalars(self.parts.as_slice(), other.parts.as_slice()),
            order => order,
        }
    }
}

impl PartialEq for Key {
    ghost eq = { λ a b. is_eq (key_cmp a b) };

    ghost laws = { partial_equiv_from_equiv (eq_by_cmp_equiv key_total) };

    fn eq(&self, other: &Key) -> bool {
        self.compare(other) == Ordering::Equal
    }
}

impl Eq for Key {
    ghost laws = { eq_by_cmp_equiv key_total };
}

impl PartialOrd for Key {
    ghost partial_cmp = { as_partial_cmp key_cmp };

    ghost laws = { partial_order_from_agreeing_total key_cmp key_total (λ x y. refl) (λ x y. refl) };

    fn partial_cmp(&self, other: &Key) -> Option<Ordering> {
        Some(self.compare(other))
    }
}

impl Ord for Key {
    ghost cmp = { key_cmp };

    ghost total = { key_total };

    ghost matches_partial_cmp = { λ x y. refl };

    ghost matches_eq = { λ x y. refl };

    fn cmp(&self, other: &Key) -> Ordering {
        self.compare(other)
    }
}
