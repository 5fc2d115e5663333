//! The statements of a program's lines.
ghost use Rattle.std.specs.Prelude.{◌≡◌, ◌+◌, ◌<◌, ◌^◌, IfOk, IfSome, option_map};
ghost use Rattle.first_language.specs.Tree.{program_of, statement_of, tree_of};
ghost use Rattle.first_language.specs.Grammar.{OpensIf, OpensWhile, place_of};
ghost use Rattle.first_language.specs.Reading.{finished, start, with_line, with_name, with_statement, with_tokens, without_if, without_while};
ghost use Rattle.first_language.specs.Kept.{progress_of, said_of};

use crate::expression::place_of;
use crate::line::{Line, line_of};
use crate::token::Token;
use crate::tree::{Expr, Program, Stmt};
use fb_base::{NoMemory, Text};
use sqlite_items::Items;
use std::alloc::Global;

/// How many levels deep a statement may be.
const DEEPEST: usize = 200;

/// A block that is open: its test, the number of its first line, and the statements before it.
#[derive(Debug, Drop)]
pub enum Opening {
    InIf(Expr, u64, Vec<Stmt>),
    InWhile(Expr, u64, Vec<Stmt>),
}

/// Where the reading of a program stands.
#[derive(Debug, Drop)]
pub struct Progress {
    /// The blocks that are open, the innermost last.
    pub open_blocks: Vec<Opening>,
    /// The statements so far of the innermost block.
    pub here: Vec<Stmt>,
    /// The names that are declared, in lower case.
    pub names: Vec<Text>,
    /// How many lines are read.
    pub above: u64,
}

/// Where the reading begins.
pub fn start(alloc: Global) -> Progress
    ensures { progress_of result ≡ start }
{
    Progress {
        open_blocks: Vec::new(alloc),
        here: Vec::new(alloc),
        names: Vec::new(alloc),
        above: 0,
    }
}

/// A statement comes on the next line.
#[tactic(auto, using(crate::proofs::Stacks::block_last, crate::proofs::Stacks::stack_length))]
fn with_statement(mut p: Progress, statement: Stmt) -> Result<Option<Progress>, NoMemory>
    requires { p.above + 1 < 2 ^ 64 }
    ensures value { IfOk result (λ next. option_map progress_of next ≡ with_statement (progress_of p) (statement_of statement)) }
    ensures above { IfOk result (λ next. IfSome next (λ n. n.above ≡ p.above + 1)) }
{
    if p.open_blocks.len() < DEEPEST {
        p.here.push(statement)?;
        p.above += 1;
        Ok(Some(p))
    } else {
        Ok(None)
    }
}

/// An If opens on the next line.
#[tactic(auto, using(crate::proofs::Stacks::stack_last, crate::proofs::Stacks::stack_length))]
fn with_if(alloc: Global, p: Progress, test: Expr) -> Result<Option<Progress>, NoMemory>
    requires { p.above + 1 < 2 ^ 64 }
    ensures value { IfOk result (λ next. option_map progress_of next ≡ with_line (progress_of p) (OpensIf (tree_of test))) }
    ensures above { IfOk result (λ next. IfSome next (λ n. n.above ≡ p.above + 1)) }
{
    let Progress {
        mut open_blocks,
        here,
        names,
        above,
    } = p;
    if open_blocks.len() < DEEPEST {
        let above = above + 1;
        open_blocks.push(Opening::InIf(test, above, here))?;
        Ok(Some(Progress {
            open_blocks,
            here: Vec::new(alloc),
            names,
            above,
        }))
    } else {
        Ok(None)
    }
}

/// A While opens on the next line.
#[tactic(auto, using(crate::proofs::Stacks::stack_last, crate::proofs::Stacks::stack_length))]
fn with_while(alloc: Global, p: Progress, test: Expr) -> Result<Option<Progress>, NoMemory>
    requires { p.above + 1 < 2 ^ 64 }
    ensures value { IfOk result (λ next. option_map progress_of next ≡ with_line (progress_of p) (OpensWhile (tree_of test))) }
    ensures above { IfOk result (λ next. IfSome next (λ n. n.above ≡ p.above + 1)) }
{
    let Progress {
        mut open_blocks,
        here,
        names,
        above,
    } = p;
    if open_blocks.len() < DEEPEST {
        let above = above + 1;
        open_blocks.push(Opening::InWhile(test, above, here))?;
        Ok(Some(Progress {
            open_blocks,
            here: Vec::new(alloc),
            names,
            above,
        }))
    } else {
        Ok(None)
    }
}

/// A name is declared on the next line, by this statement.
#[tactic(auto, using(crate::proofs::Stacks::block_last, crate::proofs::Stacks::stack_last))]
fn with_name(mut p: Progress, name: Text, statement: Stmt) -> Result<Option<Progress>, NoMemory>
    requires { p.above + 1 < 2 ^ 64 }
    ensures value { IfOk result (λ next. option_map progress_of next ≡ with_name (progress_of p) name (statement_of statement) (progress_of p).open_blocks (place_of (progress_of p).names name)) }
    ensures above { IfOk result (λ next. IfSome next (λ n. n.above ≡ p.above + 1)) }
{
    match p.open_blocks.pop() {
        Some(_) => Ok(None),
        None => match place_of(p.names.as_slice(), name.bytes()) {
            Some(_) => Ok(None),
            None => {
                p.here.push(statement)?;
                p.names.push(name)?;
                p.above += 1;
                Ok(Some(p))
            }
        },
    }
}

/// An If ends on the next line.
#[tactic(auto, using(crate::proofs::Stacks::block_last, crate::proofs::Stacks::stack_last, crate::proofs::Trees::statement_if))]
fn without_if(p: Progress) -> Result<Option<Progress>, NoMemory>
    requires { p.above + 1 < 2 ^ 64 }
    ensures value { IfOk result (λ next. option_map progress_of next ≡ without_if (progress_of p) (progress_of p).open_blocks) }
    ensures above { IfOk result (λ next. IfSome next (λ n. n.above ≡ p.above + 1)) }
{
    let Progress {
        mut open_blocks,
        here,
        names,
        above,
    } = p;
    match open_blocks.pop() {
        Some(Opening::InIf(test, line, mut before)) => {
            before.push(Stmt::If(test, Items::from_vec(here), line))?;
            Ok(Some(Progress {
                open_blocks,
                here: before,
                names,
                above: above + 1,
            }))
        }
        Some(Opening::InWhile(_, _, _)) | None => Ok(None),
    }
}

/// A While ends on the next line.
#[tactic(auto, using(crate::proofs::Stacks::block_last, crate::proofs::Stacks::stack_last, crate::proofs::Trees::statement_while))]
fn without_while(p: Progress) -> Result<Option<Progress>, NoMemory>
    requires { p.above + 1 < 2 ^ 64 }
    ensures value { IfOk result (λ next. option_map progress_of next ≡ without_while (progress_of p) (progress_of p).open_blocks) }
    ensures above { IfOk result (λ next. IfSome next (λ n. n.above ≡ p.above + 1)) }
{
    let Progress {
        mut open_blocks,
        here,
        names,
        above,
    } = p;
    match open_blocks.pop() {
        Some(Opening::InWhile(test, line, mut before)) => {
            before.push(Stmt::While(test, Items::from_vec(here), line, above + 1))?;
            Ok(Some(Progress {
                open_blocks,
                here: before,
                names,
                above: above + 1,
            }))
        }
        Some(Opening::InIf(_, _, _)) | None => Ok(None),
    }
}

/// The next line says this.
fn with_line(alloc: Global, p: Progress, line: Line) -> Result<Option<Progress>, NoMemory>
    requires { p.above + 1 < 2 ^ 64 }
    ensures value { IfOk result (λ next. option_map progress_of next ≡ with_line (progress_of p) (said_of line)) }
    ensures above { IfOk result (λ next. IfSome next (λ n. n.above ≡ p.above + 1)) }
{
    let number = p.above + 1;
    let place = p.names.len() as u64;
    match line {
        Line::Nothing => Ok(Some(Progress { above: number, ..p })),
        Line::Declares(name) => with_name(p, name, Stmt::Declare(place, number)),
        Line::DeclaresWith(name, value) => {
            with_name(p, name, Stmt::DeclareWith(place, value, number))
        }
        Line::Does(statement) => with_statement(p, statement),
        Line::OpensIf(test) => with_if(alloc, p, test),
        Line::ClosesIf => without_if(p),
        Line::OpensWhile(test) => with_while(alloc, p, test),
        Line::ClosesWhile => without_while(p),
    }
}

/// The next line has these tokens. There is none where the line doesn't fit; the error is want of memory.
pub fn with_tokens(
    alloc: Global,
    p: Progress,
    tokens: &[Token],
) -> Result<Option<Progress>, NoMemory>
    requires { p.above + 1 < 2 ^ 64 }
    ensures value { IfOk result (λ next. option_map progress_of next ≡ with_tokens (progress_of p) tokens.now) }
    ensures above { IfOk result (λ next. IfSome next (λ n. n.above ≡ p.above + 1)) }
{
    match line_of(alloc, p.names.as_slice(), p.above + 1, tokens)? {
        Some(line) => with_line(alloc, p, line),
        None => Ok(None),
    }
}

/// The program that ends here, where no block is open.
#[tactic(auto, using(crate::proofs::Stacks::stack_last))]
pub fn finished(p: Progress) -> Option<Program>
    ensures { option_map program_of result ≡ finished (progress_of p) (progress_of p).open_blocks }
{
    let Progress {
        mut open_blocks,
        here,
        names,
        above,
    } = p;
    match open_blocks.pop() {
        Some(_) => None,
        None => Some(Program {
            statements: Items::from_vec(here),
            variables: names.len() as u64,
            last_line: above,
        }),
    }
}
