//! From tokens to the expression that they spell.
ghost use Rattle.std.specs.Prelude.{◌≡◌, ◌≤◌, length, IfOk, IfErr};
ghost use Rattle.ax_expressions.specs.Tree.{expr_tree};
ghost use Rattle.ax_expressions.specs.Answers.{Spells, IsBad};

use crate::expr::Expr;
use crate::expressions::expr;
use ax_tokens::{Reader, Stopped, Tokens};
use std::alloc::Global;

/// Why tokens spell no expression.
#[derive(Drop)]
pub enum ExprSyntaxError {
    /// The first token through which no expression begins, from 0, or the count of the tokens.
    BadToken { token: u32 },
    OutOfMemory,
}

/// The expression that the tokens spell. Where they spell none, BadToken names the first token through which none
/// begins.
pub fn read_expr(alloc: Global, tokens: &Tokens<'_>) -> Result<Expr, ExprSyntaxError>
    ensures spells { IfOk result (λ e. Spells tokens.now (expr_tree e)) }
    ensures bad { IfErr result (IsBad tokens.now) }
{
    let mut reader = Reader::new(tokens);
    match expr(alloc, &mut reader) {
        Ok(e) => {
            if reader.count() > 0 {
                return Err(ExprSyntaxError::BadToken {
                    token: tokens.count() - reader.count(),
                });
            }
            Ok(e)
        }
        Err(Stopped::Bad) => Err(ExprSyntaxError::BadToken {
            token: tokens.count() - reader.count(),
        }),
        Err(Stopped::OutOfMemory) => Err(ExprSyntaxError::OutOfMemory),
    }
}
