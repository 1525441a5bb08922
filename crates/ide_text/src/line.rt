//! Lines: the spelling of one line alone, whatever stands around it.
ghost use Rattle.std.specs.Prelude.{ℕ, ◌≡◌, ◌≢◌, List, ◌∷◌, ◌++◌, MatchOption, IfSome, IfNone, IfOk, IfErr, OnOk};
ghost use Rattle.ide_text.specs.Flaw.{IsNoLine};
ghost use Rattle.ide_text.specs.Grammar.{IsLine};
ghost use Rattle.ide_text.specs.Spelled.{AreCallees, AreNoCall, Spell, SpellNone};
ghost use Rattle.ide_text.specs.Text.{line_text};
ghost use Rattle.ide_text.specs.Token.{HasCalleeOnLine, IsStep, Tokenizes, expression_tokens, line_tokens, name_tokens, statement_tokens, target_tokens};

use crate::cut::cut;
use crate::flaw::Flaw;
use crate::name::Name;
use crate::program::{Expression, Statement};
use crate::token::Token;
use ide_wire::Fault;
use std::alloc::{AllocError, Global};

/// A line of the grammar.
#[derive(Drop)]
pub(crate) enum Line {
    /// `global g`
    Global(Name),
    /// `proc p a b`
    Procedure { name: Name, parameters: Vec<Name> },
    /// `var x`
    Local(Name),
    /// `end`
    End,
    /// Any other.
    Statement(Statement),
}

impl Line {
    /// The line that these bytes, without the LF, spell. The one fault is [`Fault::NoSuchLine`].
    ///
    /// Its tokens are put into the list, in place of what stood there: one list serves for all the
    /// lines of a text, so that a line takes memory for nothing but what it keeps.
    pub(crate) fn read(alloc: Global, tokens: &mut Vec<Token>, text: &[u8]) -> Result<Line, Flaw>
        ensures found { IfOk result (λ line. (line_text line ≡ text.now) × IsLine line) }
        ensures none { IfErr result (IsNoLine ((line : Line) → IsLine line → line_text line ≢ text.now)) }
    {
        split(text, tokens)?;
        line_of(alloc, tokens)
    }
}

/// Makes the list the tokens between the single spaces of the line. What stood in it is gone, and
/// its room is used again. The time grows with the length of the line.
fn split(text: &[u8], tokens: &mut Vec<Token>) -> Result<(), Flaw>
    ensures found { OnOk result (Tokenizes text.now tokens.new.items) }
    ensures none { IfErr result (IsNoLine ((tokens : List Token) → ¬ (Tokenizes text.now tokens))) }
{
    tokens.clear();
    let mut rest = text;
    while let Some((word, after)) = cut(rest, b' ') {
        let token = Token::of(word).ok_or(Fault::NoSuchLine)?;
        tokens.push(token)?;
        rest = after;
    }
    let last = Token::of(rest).ok_or(Fault::NoSuchLine)?;
    tokens.push(last)?;
    Ok(())
}

/// The line of these tokens.
fn line_of(alloc: Global, tokens: &[Token]) -> Result<Line, Flaw>
    ensures found { IfOk result (λ line. (line_tokens line ≡ tokens.now) × HasCalleeOnLine line) }
    ensures none { IfErr result (IsNoLine ((line : Line) → HasCalleeOnLine line → line_tokens line ≢ tokens.now)) }
{
    match tokens {
        [Token::Global, Token::Name(name)] => Ok(Line::Global(name.copy())),
        [Token::Proc, Token::Name(name), parameters @ ..] => Ok(Line::Procedure {
            name: name.copy(),
            parameters: names(alloc, parameters)?,
        }),
        [Token::Var, Token::Name(name)] => Ok(Line::Local(name.copy())),
        [Token::End] => Ok(Line::End),
        tokens => Ok(Line::Statement(statement(alloc, tokens)?)),
    }
}

/// The names that these tokens are, each of them.
fn names(alloc: Global, tokens: &[Token]) -> Result<Vec<Name>, Flaw>
    ensures found { IfOk result (λ names. name_tokens names.items ≡ tokens.now) }
    ensures none { IfErr result (IsNoLine ((names : List (List ℕ)) → name_tokens names ≢ tokens.now)) }
{
    let mut names = Vec::with_capacity(alloc, tokens.len())?;
    for token in tokens {
        let Token::Name(name) = token else {
            return Err(Flaw::Faulty(Fault::NoSuchLine));
        };
        names.push(name.copy())?;
    }
    Ok(names)
}

/// The statement of these tokens.
fn statement(alloc: Global, tokens: &[Token]) -> Result<Statement, Flaw>
    ensures found { IfOk result (Spell tokens.now) }
    ensures none { IfErr result (SpellNone tokens.now) }
{
    match tokens {
        [Token::Call, called @ ..] => call(alloc, None, called),
        [Token::Name(target), Token::Equals, value @ ..] => assignment(alloc, target, value),
        _ => Ok(step(tokens).ok_or(Fault::NoSuchLine)?),
    }
}

/// The statement that gives this variable a value, which these tokens spell.
fn assignment(alloc: Global, target: &Name, value: &[Token]) -> Result<Statement, Flaw>
    ensures found { IfOk result (Spell (Token.Name target.now ∷ Token.Equals ∷ value.now)) }
    ensures none { IfErr result (SpellNone (Token.Name target.now ∷ Token.Equals ∷ value.now)) }
{
    match value {
        [Token::Call, called @ ..] => call(alloc, Some(target.copy()), called),
        _ => {
            let expression = expression(value).ok_or(Fault::NoSuchLine)?;
            Ok(Statement::Assign(target.copy(), expression))
        }
    }
}

/// The call of these tokens, which stand after the word `call`.
fn call(alloc: Global, target: Option<Name>, called: &[Token]) -> Result<Statement, Flaw>
    ensures found { IfOk result (Spell (target_tokens target ++ Token.Call ∷ called.now)) }
    ensures none { IfErr result (SpellNone (target_tokens target ++ Token.Call ∷ called.now)) }
{
    let (callees, rest) = callees(alloc, called)?;
    let arguments = names(alloc, rest)?;
    Ok(Statement::Call {
        target,
        callees,
        arguments,
    })
}

/// The callees in front of these tokens of a call, parted by `|`, and what stands behind them.
fn callees(alloc: Global, tokens: &[Token]) -> Result<(Vec<Name>, &[Token]), Flaw>
    ensures found { IfOk result (λ found. AreCallees tokens.now found.0.items found.1.now) }
    ensures none { IfErr result (IsNoLine (AreNoCall tokens.now)) }
{
    let (first, mut rest) = callee(tokens).ok_or(Fault::NoSuchLine)?;
    let mut callees = Vec::with_capacity(alloc, 1)?;
    callees.push(first.copy())?;
    while let Some(after) = behind_bar(rest) {
        let (next, behind) = callee(after).ok_or(Fault::NoSuchLine)?;
        callees.push(next.copy())?;
        rest = behind;
    }
    Ok((callees, rest))
}

/// The callee in front of these tokens, if a name stands there, and what stands behind it.
fn callee(tokens: &[Token]) -> Option<(&Name, &[Token])>
    ensures found { IfSome result (λ found. tokens.now ≡ Token.Name found.0.now ∷ found.1.now) }
    ensures none { IfNone result ((n : List ℕ) (rest : List Token) → tokens.now ≢ Token.Name n ∷ rest) }
{
    match tokens {
        [Token::Name(name), rest @ ..] => Some((name, rest)),
        _ => None,
    }
}

/// What stands behind the `|` in front of these tokens, if one stands there.
fn behind_bar(tokens: &[Token]) -> Option<&[Token]>
    ensures found { IfSome result (λ rest. tokens.now ≡ Token.Bar ∷ rest.now) }
    ensures none { IfNone result ((rest : List Token) → tokens.now ≢ Token.Bar ∷ rest) }
{
    match tokens {
        [Token::Bar, rest @ ..] => Some(rest),
        _ => None,
    }
}

/// The statement of these tokens where it is neither an assignment nor a call.
fn step(tokens: &[Token]) -> Option<Statement>
    ensures found { IfSome result (Spell tokens.now) }
    ensures none { IfNone result ((step : Statement) → IsStep step → statement_tokens step ≢ tokens.now) }
{
    match tokens {
        [Token::Skip] => Some(Statement::Skip),
        [Token::At, Token::Name(label)] => Some(Statement::At(label.copy())),
        [Token::Goto, Token::Name(label)] => Some(Statement::Goto(label.copy())),
        [Token::Branch, Token::Name(label)] => Some(Statement::Branch(label.copy())),
        [Token::Return] => Some(Statement::Return(None)),
        [Token::Return, Token::Name(value)] => Some(Statement::Return(Some(value.copy()))),
        _ => None,
    }
}

/// What these tokens after a `=` give, where they are no call.
fn expression(tokens: &[Token]) -> Option<Expression>
    ensures { MatchOption result ((e : Expression) → expression_tokens e ≢ tokens.now) (λ e. expression_tokens e ≡ tokens.now) }
{
    match tokens {
        [Token::Number(number)] => Some(Expression::Number(*number)),
        [Token::Name(name)] => Some(Expression::Copy(name.copy())),
        [Token::Name(name), Token::Plus, Token::Number(number)] => {
            Some(Expression::Sum(name.copy(), *number))
        }
        [Token::Name(name), Token::Minus, Token::Number(number)] => {
            Some(Expression::Difference(name.copy(), *number))
        }
        [Token::Question] => Some(Expression::Unknown),
        [Token::Mix, Token::Name(first), Token::Name(second)] => {
            Some(Expression::Mix(first.copy(), second.copy()))
        }
        _ => None,
    }
}
