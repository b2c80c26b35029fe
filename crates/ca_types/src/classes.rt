//! From the classes of a tree to those of the program: `judge_class` of `specs/Classes.antt`.

ghost use Rattle.std.specs.Prelude.{◌≡◌, ◌+◌, ℕ, List, Option, IfOk, IfErr, OnOk, map};
ghost use Rattle.ca_tree.specs.Plain.{field_member, method_member};
ghost use Rattle.ca_tree.specs.View.{class_view, member_view, method_view as tree_method};
ghost use Rattle.ca_program.specs.View.{method_view};
ghost use Rattle.ca_program.specs.Plain.{PlainMethod};
ghost use Rattle.ca_program.specs.declared.program.FieldInfo.{FieldInfo as PlainField};
ghost use Rattle.ca_resolve.specs.View.{classes_view};
ghost use Rattle.ca_resolve.specs.Judged.{Answers, Finds, Judged, Violation, fine, both, within, beside, unless};
ghost use Rattle.ca_resolve.specs.Scopes.{member_name, after_method};
ghost use Rattle.ca_resolve.specs.declared.errors.CheckError.TheVariants.{Memory};
ghost use Rattle.ca_types.specs.Rules.{listed, class_once};
ghost use Rattle.ca_types.specs.Classes.{behind_member, behind_members, judge_field_member, judge_method, judge_members, class_begin, behind_class, behind_classes, judge_class, judge_classes, first_class, Members as PlainMembers, Parts as PlainParts};
ghost use Rattle.ca_types.specs.clauses.Adding.{add_member, with_field, with_method, with_class};
ghost use Rattle.ca_types.specs.clauses.View.{member_env, class_env, counts_view, members_view, parts_view};

use crate::carried::{add, together, with_room};
use crate::limits::{MOST_CLASSES, bound};
use crate::members::{Counts, MemberWalk, check_field, check_method};
use crate::rules::{Answer, rule};
use ca_program::{Class, ClassId, FieldInfo, Method};
use ca_resolve::codes::{CLASS_TWICE, TOO_MANY_CLASSES};
use ca_resolve::{CheckError, ClassTable, Names, both, let_go, member_name, one_more};
use ca_tree::{ClassNode, FieldNode, Member, MethodNode, Name, TypeNode};
use std::alloc::{AllocError, Global};

/// What the members of a class resolve to.
#[derive(Drop)]
pub(crate) struct Members {
    pub(crate) fields: Vec<FieldInfo>,
    pub(crate) ops: Vec<Method>,
    pub(crate) functions: Vec<Method>,
}

/// What classes resolve to.
#[derive(Drop)]
pub(crate) struct Parts {
    pub(crate) classes: Vec<Class>,
    pub(crate) ops: Vec<Method>,
    pub(crate) functions: Vec<Method>,
}

/// Where a class stands.
#[derive(Drop)]
pub(crate) struct ClassWalk<'s, 'a> {
    pub(crate) classes: &'s ClassTable<'a>,
    pub(crate) number: u32,
    pub(crate) counts: Counts,
    pub(crate) loops: u32,
}

/// The names of the members of a class in order.
fn names_of<'a>(alloc: Global, members: &'a [Member]) -> Result<Names<'a>, AllocError>
    ensures { IfOk result (λ names. names ≡ map member_name (map member_view members.now)) }
{
    let mut all = Vec::new(alloc);
    for member in members {
        add(&mut all, member_name(member))?;
    }
    Names::new(alloc, all)
}

/// The members so far and a field.
fn with_field(front: Answer<Members>, field: Answer<FieldInfo>) -> Answer<Members>
    ensures { (j : Judged PlainMembers) (k : Judged PlainField) → Answers members_view front j → Answers (λ f. f) field k → Answers members_view result (within (both j k) (λ p. fine (with_field p.0 p.1))) }
{
    let (mut members, field) = both(front, field)?;
    let room = add(&mut members.fields, field);
    with_room(members, room)
}

/// The members so far and a method.
fn with_method(front: Answer<Members>, method: Answer<Method>) -> Answer<Members>
    ensures { (j : Judged PlainMembers) (k : Judged PlainMethod) → Answers members_view front j → Answers method_view method k → Answers members_view result (within (both j k) (λ p. fine (with_method p.0 p.1.result p.1))) }
{
    let (mut members, method) = both(front, method)?;
    if method.result.is_some() {
        let room = add(&mut members.functions, method);
        with_room(members, room)
    } else {
        let room = add(&mut members.ops, method);
        with_room(members, room)
    }
}

/// The counts behind a method of this result.
fn behind_method(counts: Counts, returned: &Option<TypeNode>) -> Result<Counts, AllocError>
    ensures { IfOk result (λ n. counts_view n ≡ after_method (counts_view counts) returned.now) }
{
    let mut behind = counts;
    match returned {
        None => behind.operations = one_more(counts.operations)?,
        Some(_) => behind.functions = one_more(counts.functions)?,
    }
    Ok(behind)
}

/// A field behind other members.
fn next_field<'a>(
    alloc: Global,
    standing: &mut MemberWalk<'_, 'a>,
    field: &'a FieldNode,
) -> Result<Answer<FieldInfo>, AllocError>
    ensures judged { IfOk result (λ a. Answers (λ f. f) a (judge_field_member (member_env standing.old) field.now)) }
    ensures behind { OnOk result (member_env standing.new ≡ behind_member (member_env standing.old) (field_member field.now)) }
{
    let number = one_more(standing.number)?;
    let fields = one_more(standing.counts.fields)?;
    let answer = check_field(alloc, standing, field);
    standing.number = number;
    standing.counts.fields = fields;
    Ok(answer)
}

/// A method behind other members.
fn next_method<'a>(
    alloc: Global,
    standing: &mut MemberWalk<'_, 'a>,
    method: &'a MethodNode,
) -> Result<Answer<Method>, AllocError>
    ensures judged { IfOk result (λ a. Answers method_view a (judge_method (member_env standing.old) (tree_method method.now))) }
    ensures behind { OnOk result (member_env standing.new ≡ behind_member (member_env standing.old) (method_member (tree_method method.now))) }
{
    let number = one_more(standing.number)?;
    let counts = behind_method(standing.counts, &method.result)?;
    let (answer, loops) = check_method(alloc, standing, method)?;
    standing.number = number;
    standing.counts = counts;
    standing.loops = loops;
    Ok(answer)
}

/// A member behind others.
fn check_member<'a>(
    alloc: Global,
    standing: &mut MemberWalk<'_, 'a>,
    front: Answer<Members>,
    member: &'a Member,
) -> Result<Answer<Members>, AllocError>
    ensures judged { (j : Judged PlainMembers) → Answers members_view front j → IfOk result (λ a. Answers members_view a (add_member (member_env standing.old) j (member_view member.now))) }
    ensures behind { OnOk result (member_env standing.new ≡ behind_member (member_env standing.old) (member_view member.now)) }
{
    match member {
        Member::Field(field) => {
            let (front, field) = together(front, next_field(alloc, standing, field))?;
            Ok(with_field(front, field))
        }
        Member::Method(method) => {
            let (front, method) = together(front, next_method(alloc, standing, method))?;
            Ok(with_method(front, method))
        }
    }
}

/// The members of a class.
fn check_members<'a>(
    alloc: Global,
    standing: &mut MemberWalk<'_, 'a>,
    members: &'a [Member],
) -> Result<Answer<Members>, AllocError>
    ensures judged { IfOk result (λ a. Answers members_view a (judge_members (member_env standing.old) (map member_view members.now))) }
    ensures behind { OnOk result (member_env standing.new ≡ behind_members (member_env standing.old) (map member_view members.now)) }
{
    let mut answers = Ok(Members {
        fields: Vec::new(alloc),
        ops: Vec::new(alloc),
        functions: Vec::new(alloc),
    });
    for member in members {
        answers = check_member(alloc, standing, answers, member)?;
    }
    Ok(answers)
}

/// Whether the class of this number is the first of its name.
fn class_once(walk: &ClassWalk, class: &ClassNode) -> Answer<()>
    ensures { Finds result (listed (class_once (class_env walk.now).classes.names (class_env walk.now).number class.now.name class.now.at)) }
{
    let first = walk.classes.names().number(&class.name);
    rule(first != Some(walk.number), class.at, CLASS_TWICE)
}

/// A class.
fn check_class<'a>(
    alloc: Global,
    walk: &mut ClassWalk<'_, 'a>,
    class: &'a ClassNode,
) -> Result<Answer<Members>, AllocError>
    ensures judged { IfOk result (λ a. Answers members_view a (judge_class (class_env walk.old) (class_view class.now))) }
    ensures behind { OnOk result (class_env walk.new ≡ behind_class (class_env walk.old) (class_view class.now)) }
{
    let number = one_more(walk.number)?;
    let passed = bound(walk.number == MOST_CLASSES, class.at, TOO_MANY_CLASSES);
    let again = class_once(walk, class);
    let mut standing = MemberWalk {
        classes: walk.classes,
        class: ClassId(walk.number),
        names: names_of(alloc, &class.members)?,
        number: 0,
        counts: Counts {
            fields: 0,
            ..walk.counts
        },
        loops: walk.loops,
    };
    let members = check_members(alloc, &mut standing, &class.members)?;
    walk.number = number;
    walk.counts = standing.counts;
    walk.loops = standing.loops;
    Ok(class_of(passed, members, again))
}

/// The members of a class, where no limit is passed and the name is new.
fn class_of(passed: Answer<()>, members: Answer<Members>, again: Answer<()>) -> Answer<Members>
    ensures { (v w : Option Violation) (j : Judged PlainMembers) → Finds passed (listed v) → Answers members_view members j → Finds again (listed w) → Answers members_view result (within (beside v j) (λ p. unless w p)) }
{
    let (_, members) = both(passed, members)?;
    again?;
    Ok(members)
}

/// The parts of one more class, put behind the others.
fn put_class(mut parts: Parts, name: Name, mut members: Members) -> Answer<Parts>
    ensures parts { IfOk result (λ r. parts_view r ≡ with_class (parts_view parts) name (members_view members)) }
    ensures memory { IfErr result (λ e. e ≡ Memory) }
{
    let fields = members.fields;
    let class = Class { name, fields };
    let room = add(&mut parts.classes, class)
        .and(parts.ops.append(&mut members.ops))
        .and(parts.functions.append(&mut members.functions));
    with_room(parts, room)
}

/// The classes so far and one more.
fn with_class(
    alloc: Global,
    front: Answer<Parts>,
    name: &Name,
    members: Answer<Members>,
) -> Answer<Parts>
    ensures { (j : Judged PlainParts) (k : Judged PlainMembers) → Answers parts_view front j → Answers members_view members k → Answers parts_view result (within (both j k) (λ p. fine (with_class p.0 name.now p.1))) }
{
    let (parts, members) = both(front, members)?;
    match name.copy(alloc) {
        Ok(name) => put_class(parts, name, members),
        Err(_) => {
            let_go((parts, members));
            Err(CheckError::Memory)
        }
    }
}

/// All classes, and how many `for` statements they have.
pub(crate) fn check_classes<'a>(
    alloc: Global,
    table: &ClassTable<'a>,
    classes: &'a [ClassNode],
) -> Result<(Answer<Parts>, u32), AllocError>
    ensures judged { IfOk result (λ p. Answers parts_view p.0 (judge_classes (first_class (classes_view table.now)) (map class_view classes.now))) }
    ensures loops { IfOk result (λ p. p.1 ≡ (behind_classes (first_class (classes_view table.now)) (map class_view classes.now)).loops) }
{
    let mut walk = ClassWalk {
        classes: table,
        number: 0,
        counts: Counts {
            fields: 0,
            operations: 0,
            functions: 0,
        },
        loops: 0,
    };
    let mut answers = Ok(Parts {
        classes: Vec::new(alloc),
        ops: Vec::new(alloc),
        functions: Vec::new(alloc),
    });
    for class in classes {
        let answer = check_class(alloc, &mut walk, class)?;
        answers = with_class(alloc, answers, &class.name, answer);
    }
    Ok((answers, walk.loops))
}
