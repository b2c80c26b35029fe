//! Writes classes, their members and `main`: the tokens of `specs/Spell.antt`, with marks as `specs/Annotated.antt` has
//! them.

ghost use Rattle.std.specs.Prelude.{◌≡◌, ◌∷◌, ◌++◌, map, false};
ghost use Rattle.ca_tree.specs.declared.token.Kind.TheVariants.{Word};
ghost use Rattle.ca_tree.specs.View.{class_view, member_view, method_view, statement_view, statements_view};
ghost use Rattle.ca_canonical.specs.Annotated.{marked_class, marked_classes, marked_main, marked_member, marked_members, marked_method};
ghost use Rattle.ca_canonical.specs.Spell.{ends_in_zero, in_parentheses, returns_zero, spell_end, spell_field, spell_length, spell_params, spell_result};
ghost use Rattle.ca_canonical.specs.clauses.Pens.{Writes, WritesPieces};

use crate::marks::Marks;
use crate::pen::Pen;
use crate::statements::{write_statements, write_type};
use ca_tree::{
    ClassNode, ExprKind, FieldNode, Keyword, Member, MethodNode, ParamNode, Sign, StmtKind,
    StmtNode, TypeNode,
};

/// Writes a field.
fn write_field(pen: &mut Pen, field: &FieldNode)
    ensures { Writes pen.old pen.new (spell_field field.now) }
{
    write_type(pen, &field.ty);
    pen.name(&field.name);
    write_length(pen, field.length);
    pen.sign(Sign::Semicolon);
}

/// Writes the length of an array field.
fn write_length(pen: &mut Pen, length: Option<i64>)
    ensures { Writes pen.old pen.new (spell_length length) }
{
    if let Some(n) = length {
        pen.sign(Sign::OpenBracket);
        pen.number(n);
        pen.sign(Sign::CloseBracket);
    }
}

/// Writes parameters in round brackets, with commas between them.
fn write_params(pen: &mut Pen, params: &[ParamNode])
    ensures { Writes pen.old pen.new (in_parentheses (spell_params params.now)) }
{
    pen.sign(Sign::OpenParenthesis);
    let mut begun = false;
    'params: for param in params {
        if begun {
            pen.sign(Sign::Comma);
        }
        write_type(pen, &param.ty);
        pen.name(&param.name);
        begun = true;
    }
    pen.sign(Sign::CloseParenthesis);
}

/// Writes the type of a result, or `void`.
fn write_result(pen: &mut Pen, ty: &Option<TypeNode>)
    ensures { Writes pen.old pen.new (spell_result ty.now) }
{
    match ty {
        None => pen.key(Keyword::Void),
        Some(ty) => write_type(pen, ty),
    }
}

/// Writes what stands before the body of a method.
fn write_signature(pen: &mut Pen, method: &MethodNode)
    ensures { Writes pen.old pen.new (spell_result method.now.result ++ (Word method.now.name ∷ in_parentheses (spell_params method.now.params.items))) }
{
    write_result(pen, &method.result);
    pen.name(&method.name);
    write_params(pen, &method.params);
}

/// Writes a method, with the marks in its body.
fn write_method<M: Marks>(pen: &mut Pen, marks: &M, method: &MethodNode)
    ensures { WritesPieces pen.old pen.new (marked_method (M.marking marks.now) (method_view method.now)) }
{
    write_signature(pen, method);
    pen.sign(Sign::OpenBrace);
    pen.marks(marks.opening(method.at));
    write_statements(pen, marks, Some(method.at), &method.body);
    pen.marks(marks.closing(method.at));
    pen.sign(Sign::CloseBrace);
}

/// Writes a member.
fn write_member<M: Marks>(pen: &mut Pen, marks: &M, member: &Member)
    ensures { WritesPieces pen.old pen.new (marked_member (M.marking marks.now) (member_view member.now)) }
{
    match member {
        Member::Field(field) => write_field(pen, field),
        Member::Method(method) => write_method(pen, marks, method),
    }
}

/// Writes a class.
fn write_class<M: Marks>(pen: &mut Pen, marks: &M, class: &ClassNode)
    ensures { WritesPieces pen.old pen.new (marked_class (M.marking marks.now) (class_view class.now)) }
{
    pen.key(Keyword::Class);
    pen.name(&class.name);
    pen.sign(Sign::OpenBrace);
    pen.key(Keyword::Public);
    pen.sign(Sign::Colon);
    write_members(pen, marks, &class.members);
    pen.sign(Sign::CloseBrace);
    pen.sign(Sign::Semicolon);
}

/// Writes members, one behind the other.
fn write_members<M: Marks>(pen: &mut Pen, marks: &M, members: &[Member])
    ensures { WritesPieces pen.old pen.new (marked_members (M.marking marks.now) (map member_view members.now)) }
{
    'members: for member in members {
        write_member(pen, marks, member);
    }
}

/// Writes classes, one behind the other.
pub(crate) fn write_classes<M: Marks>(pen: &mut Pen, marks: &M, classes: &[ClassNode])
    ensures { WritesPieces pen.old pen.new (marked_classes (M.marking marks.now) (map class_view classes.now)) }
{
    'classes: for class in classes {
        write_class(pen, marks, class);
    }
}

/// Whether the statement is `return` of the number 0.
fn returns_zero(s: &StmtNode) -> bool
    ensures { result ≡ returns_zero (statement_view s.now) }
{
    match &s.kind {
        StmtKind::Return(e) => match &e.kind {
            ExprKind::Number(n) => *n == 0,
            _ => false,
        },
        _ => false,
    }
}

/// Whether the last of the statements is.
fn ends_in_zero(items: &[StmtNode]) -> bool
    ensures { result ≡ ends_in_zero (statements_view items.now) }
{
    let mut last = false;
    for s in items {
        last = returns_zero(s);
    }
    last
}

/// Writes `main`, with its optional end where its last statement is `return` of the number 0.
pub(crate) fn write_main<M: Marks>(pen: &mut Pen, marks: &M, items: &[StmtNode])
    ensures { WritesPieces pen.old pen.new (marked_main (M.marking marks.now) (statements_view items.now)) }
{
    pen.key(Keyword::Int);
    pen.key(Keyword::Main);
    pen.sign(Sign::OpenParenthesis);
    pen.sign(Sign::CloseParenthesis);
    pen.sign(Sign::OpenBrace);
    write_statements(pen, marks, None, items);
    write_end(pen, ends_in_zero(items));
    pen.sign(Sign::CloseBrace);
}

/// Writes the optional end of `main`, if it is wanted.
fn write_end(pen: &mut Pen, wanted: bool)
    ensures { Writes pen.old pen.new (spell_end wanted) }
{
    if wanted {
        pen.key(Keyword::Return);
        pen.number(0);
        pen.sign(Sign::Semicolon);
    }
}
