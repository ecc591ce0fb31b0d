//! A function for each rule of expressions. Each reads from the next token on, and stops in front of the first token that
//! doesn't fit.
ghost use Rattle.std.specs.Prelude.{◌≡◌, ◌<◌, ◌∷◌, ◌++◌, [], length, drop, OnOk, IfOk, IfErr};
ghost use Rattle.ax_tokens.specs.Stopping.{Reads, One, Closed, IsNotFirst};
ghost use Rattle.ax_tokens.specs.declared.stopped.Stopped.TheVariants.{Bad};
ghost use Rattle.ax_expressions.specs.Words.{op_text, keyword_text, path_word, int_text, IsPath, IsInt, IsPathText, IsIntText, IsOpText, IsKeyword};
ghost use Rattle.ax_expressions.specs.Tree.{expr_tree};
ghost use Rattle.ax_expressions.specs.Spelling.{opening, closing, expr_texts, AreInForm, InForm, texts_of_all, IsExpr};
ghost use Rattle.ax_expressions.specs.Parts.{comparison_texts, IsBraced, IsClosed, IsNegated, IsOpAndInt, IsComparison, Gives};

use crate::expr::{Expr, Exprs, FullPath, Op};
use crate::numbers::int_of;
use crate::paths::path_of;
use crate::words::{FilterKeyword, keyword_in, op_in};
use ax_tokens::{Reader, Stopped};
use std::alloc::Global;

/// A path.
#[tactic(auto, using(crate::proofs::Tokens::path_steps))]
fn path(alloc: Global, reader: &mut Reader<'_, '_>) -> Result<FullPath, Stopped>
    ensures gives { Gives IsPath (λ path. path_word path ∷ []) (One IsPathText) result reader.old reader.new }
    ensures moves { OnOk result (length reader.new < length reader.old) }
{
    let token = reader.peek()?;
    let Some(path) = path_of(alloc, token.text)? else {
        return Err(Stopped::Bad);
    };
    reader.skip();
    Ok(path)
}

/// A whole number.
#[tactic(auto, using(crate::proofs::Tokens::int_steps))]
fn int(reader: &mut Reader<'_, '_>) -> Result<i128, Stopped>
    ensures gives { Gives IsInt (λ number. int_text number ∷ []) (One IsIntText) result reader.old reader.new }
    ensures moves { OnOk result (length reader.new < length reader.old) }
{
    let token = reader.peek()?;
    let Some(number) = int_of(token.text) else {
        return Err(Stopped::Bad);
    };
    reader.skip();
    Ok(number)
}

/// A comparison.
#[tactic(auto, using(crate::proofs::Tokens::op_steps))]
fn op(reader: &mut Reader<'_, '_>) -> Result<Op, Stopped>
    ensures reads { Reads (λ op. op_text op ∷ []) (One IsOpText) result reader.old reader.new }
    ensures moves { OnOk result (length reader.new < length reader.old) }
{
    let token = reader.peek()?;
    let Some(op) = op_in(token.text) else {
        return Err(Stopped::Bad);
    };
    reader.skip();
    Ok(op)
}

/// The first word of an expression. It isn't read yet.
#[tactic(auto, using(crate::proofs::Tokens::keyword_steps))]
fn first_word(reader: &Reader<'_, '_>) -> Result<FilterKeyword, Stopped>
    ensures word { IfOk result (λ word. reader.now ≡ keyword_text word ∷ drop 1 reader.now) }
    ensures none { IfErr result (λ stopped. (stopped ≡ Bad) × IsNotFirst IsKeyword reader.now) }
{
    let token = reader.peek()?;
    match keyword_in(token.text) {
        Some(word) => Ok(word),
        None => Err(Stopped::Bad),
    }
}

/// A comparison and a number.
#[tactic(auto, using(crate::proofs::Ways::op_and_int_ways))]
fn op_and_int(reader: &mut Reader<'_, '_>) -> Result<(Op, i128), Stopped>
    ensures gives { Gives (λ is. IsInt is.1) (λ is. op_text is.0 ∷ int_text is.1 ∷ []) IsOpAndInt result reader.old reader.new }
    ensures moves { OnOk result (length reader.new < length reader.old) }
{
    let op = op(reader)?;
    let number = int(reader)?;
    Ok((op, number))
}

/// A path, a comparison and a number.
#[tactic(auto, using(crate::proofs::Ways::comparison_ways))]
fn comparison(alloc: Global, reader: &mut Reader<'_, '_>) -> Result<(FullPath, Op, i128), Stopped>
    ensures gives { Gives (λ is. IsPath is.0 × IsInt is.2) comparison_texts IsComparison result reader.old reader.new }
    ensures moves { OnOk result (length reader.new < length reader.old) }
{
    let path = path(alloc, reader)?;
    let (op, number) = op_and_int(reader)?;
    Ok((path, op, number))
}

/// Expressions up to the brace that closes them.
#[cycle(read_expr)]
fn exprs(alloc: Global, reader: &mut Reader<'_, '_>) -> Result<Exprs, Stopped>
    requires { length reader.old < 4294967296 }
    ensures gives { Gives AreInForm (λ es. texts_of_all es ++ closing ∷ []) (Closed IsExpr closing) result reader.old reader.new }
    ensures moves { OnOk result (length reader.new < length reader.old) }
{
    let mut made = Exprs::new(alloc);
    while !reader.takes(b"}")? {
        let one = expr(alloc, reader)?;
        made.push(one)?;
    }
    Ok(made)
}

/// Expressions in braces.
#[cycle(read_expr)]
fn braced(alloc: Global, reader: &mut Reader<'_, '_>) -> Result<Exprs, Stopped>
    ensures gives { Gives AreInForm (λ es. opening ∷ (texts_of_all es ++ closing ∷ [])) IsBraced result reader.old reader.new }
    ensures moves { OnOk result (length reader.new < length reader.old) }
{
    reader.expect(b"{")?;
    exprs(alloc, reader)
}

/// An expression and the brace after it.
#[cycle(read_expr)]
fn closed(alloc: Global, reader: &mut Reader<'_, '_>) -> Result<Expr, Stopped>
    ensures gives { Gives (λ e. InForm (expr_tree e)) (λ e. expr_texts (expr_tree e) ++ closing ∷ []) IsClosed result reader.old reader.new }
    ensures moves { OnOk result (length reader.new < length reader.old) }
{
    let inner = expr(alloc, reader)?;
    reader.expect(b"}")?;
    Ok(inner)
}

/// An expression in braces.
#[cycle(read_expr)]
fn negated(alloc: Global, reader: &mut Reader<'_, '_>) -> Result<Expr, Stopped>
    ensures gives { Gives (λ e. InForm (expr_tree e)) (λ e. opening ∷ (expr_texts (expr_tree e) ++ closing ∷ [])) IsNegated result reader.old reader.new }
    ensures moves { OnOk result (length reader.new < length reader.old) }
{
    reader.expect(b"{")?;
    closed(alloc, reader)
}

/// An expression. Tokens may follow it.
#[cycle(read_expr)]
pub fn expr(alloc: Global, reader: &mut Reader<'_, '_>) -> Result<Expr, Stopped>
    ensures gives { Gives (λ e. InForm (expr_tree e)) (λ e. expr_texts (expr_tree e)) IsExpr result reader.old reader.new }
    ensures moves { OnOk result (length reader.new < length reader.old) }
{
    match first_word(reader)? {
        FilterKeyword::All => {
            reader.skip();
            let inner = braced(alloc, reader)?;
            Ok(Expr::All(inner))
        }
        FilterKeyword::Any => {
            reader.skip();
            let inner = braced(alloc, reader)?;
            Ok(Expr::Any(inner))
        }
        FilterKeyword::Not => {
            reader.skip();
            let inner = negated(alloc, reader)?;
            let inner = Box::new(alloc, inner)?;
            Ok(Expr::Not(inner))
        }
        FilterKeyword::Present => {
            reader.skip();
            let path = path(alloc, reader)?;
            Ok(Expr::Present { path })
        }
        FilterKeyword::Is => {
            reader.skip();
            let (path, op, number) = comparison(alloc, reader)?;
            Ok(Expr::Is { path, op, number })
        }
    }
}
