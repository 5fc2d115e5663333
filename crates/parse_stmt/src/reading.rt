ghost use Rattle.std.specs.Prelude.{◌≡◌, ◌≤◌, length, IfOk, IfErr};
ghost use Rattle.parse_expr.specs.Expr.{Answers};
ghost use Rattle.parse_stmt.specs.Module.{tree_of};
ghost use Rattle.parse_stmt.specs.Texts.{IsText};
ghost use Rattle.parse_stmt.specs.Faults.{Fails};

use crate::module::module_;
use fb_ast::Tree;
use fb_lexer::Tokens;
use parse_expr::{Cursor, ParseErr, error_of};
use std::alloc::Global;

// What the reading function answers.
fn read(alloc: Global, tokens: &Tokens) -> Result<Tree, ParseErr>
    ensures { Answers (tree_of tokens.now) result }
{
    let mut cursor = Cursor::new(tokens, 0);
    match module_(alloc, &mut cursor) {
        Ok(found) => Ok(Tree {
            items: found.items,
            tokens: found.tokens,
            last_line: tokens.last_line(),
        }),
        Err(stop) => Err(error_of(tokens, stop, &cursor)),
    }
}

/// The tree of a whole text's tokens (FreeBASIC Manual, Statements, Procedures, User Defined Types). Each expression, each
/// statement and each procedure is at most 200 deep.
///
/// The fault is the first by the grammar: it stands at the first token up to which no text agrees with the tokens. Where the
/// tokens end too early it is `Expected` at the last one, or at 1:1 where there is none.
#[tactic(auto, using(crate::proofs::Answered::text_if, crate::proofs::Answered::fails_if))]
pub fn parse(alloc: Global, tokens: &Tokens) -> Result<Tree, ParseErr>
    ensures reads { Answers (tree_of tokens.now) result }
    ensures tree { IfOk result (λ tree. IsText tokens.now.items tokens.now.last_line tree) }
    ensures first { IfErr result (λ e. Fails tokens.now e) }
{
    read(alloc, tokens)
}
