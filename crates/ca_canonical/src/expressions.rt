//! Writes an expression: `spell_expression` of `specs/Spell.antt`.

ghost use Rattle.std.specs.Prelude.{◌≡◌, nat_lt};
ghost use Rattle.ca_tree.specs.declared.token.Kind.TheVariants.{Key};
ghost use Rattle.ca_tree.specs.View.{expression_view, expressions_view};
ghost use Rattle.ca_canonical.specs.Spell.{binds, bracketed, in_parentheses, spell_expression, spell_list, spell_truth};
ghost use Rattle.ca_canonical.specs.clauses.Pens.{Writes};

use crate::operators::{TAIL_LEVEL, binds};
use crate::pen::Pen;
use ca_tree::{ExprKind, ExprNode, Keyword, Sign, Writing};

/// Writes an expression.
#[cycle(expression)]
pub(crate) fn write_expression(pen: &mut Pen, e: &ExprNode)
    ensures { Writes pen.old pen.new (spell_expression (expression_view e.now)) }
{
    match &e.kind {
        ExprKind::Number(n) => pen.number(*n),
        ExprKind::Truth(truth) => pen.key(truth_key(*truth)),
        ExprKind::Null => pen.key(Keyword::Nullptr),
        ExprKind::This => pen.key(Keyword::This),
        ExprKind::Named(name) => pen.name(name),
        ExprKind::Call(name, arguments) => {
            pen.name(name);
            write_arguments(pen, arguments);
        }
        ExprKind::Field(object, name) => {
            write_operand(pen, object, TAIL_LEVEL);
            pen.sign(Sign::Arrow);
            pen.name(name);
        }
        ExprKind::Method(object, name, arguments) => {
            write_operand(pen, object, TAIL_LEVEL);
            pen.sign(Sign::Arrow);
            pen.name(name);
            write_arguments(pen, arguments);
        }
        ExprKind::Index(array, index) => {
            write_operand(pen, array, TAIL_LEVEL);
            pen.sign(Sign::OpenBracket);
            write_expression(pen, index);
            pen.sign(Sign::CloseBracket);
        }
        ExprKind::Unary(op, operand) => {
            pen.sign(op.sign());
            write_operand(pen, operand, op.level());
        }
        ExprKind::Binary(op, left, right) => {
            let level = op.level();
            match op.writing() {
                Writing::Between(sign) => {
                    write_operand(pen, left, level);
                    pen.sign(sign);
                    write_operand(pen, right, level + 1);
                }
                Writing::Before(word) => {
                    pen.key(word);
                    pen.sign(Sign::OpenParenthesis);
                    write_expression(pen, left);
                    pen.sign(Sign::Comma);
                    write_expression(pen, right);
                    pen.sign(Sign::CloseParenthesis);
                }
            }
        }
    }
}

/// The key word of a truth value.
fn truth_key(truth: bool) -> Keyword
    ensures { Key result ≡ spell_truth truth }
{
    if truth { Keyword::True } else { Keyword::False }
}

/// Writes an operand, in round brackets where its operator binds less tightly than `least`.
#[cycle(expression)]
fn write_operand(pen: &mut Pen, e: &ExprNode, least: usize)
    ensures { Writes pen.old pen.new (bracketed (nat_lt (binds (expression_view e.now)) least) (spell_expression (expression_view e.now))) }
{
    if binds(e) < least {
        pen.sign(Sign::OpenParenthesis);
        write_expression(pen, e);
        pen.sign(Sign::CloseParenthesis);
    } else {
        write_expression(pen, e);
    }
}

/// Writes arguments in round brackets, with commas between them.
#[cycle(expression)]
fn write_arguments(pen: &mut Pen, arguments: &[ExprNode])
    ensures { Writes pen.old pen.new (in_parentheses (spell_list (expressions_view arguments.now))) }
{
    pen.sign(Sign::OpenParenthesis);
    let mut begun = false;
    'arguments: for e in arguments {
        if begun {
            pen.sign(Sign::Comma);
        }
        write_expression(pen, e);
        begun = true;
    }
    pen.sign(Sign::CloseParenthesis);
}
