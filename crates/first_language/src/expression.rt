//! The expressions of a line.
ghost use Rattle.std.specs.Prelude.{◌≡◌, ◌+◌, ◌∷◌, [], map, max, nat_lt, if◌then◌else◌, IfOk, option_map, Some, None};
ghost use Rattle.first_language.specs.Tree.{Apply, Parenthesised, Variable, tree_of};
ghost use Rattle.first_language.specs.Grammar.{looseness, place_of};
ghost use Rattle.first_language.specs.Reading.{above, closed, ended, enclosed, expression_of, further, having, joined, leaf, reduced, sign_waits, wanting, whole};
ghost use Rattle.first_language.specs.Kept.{part_of, pile_of, standing_of};

use crate::token::Token;
use crate::tree::{Expr, Operator};
use fb_base::{NoMemory, Text};
use sqlite_items::Boxed;
use std::alloc::Global;

/// How many levels deep an expression may be.
const DEEPEST: u64 = 200;

/// The looseness of the loosest operators.
const LOOSEST: u64 = 4;

/// A part of an expression, with its depth.
#[derive(Debug, Drop)]
pub struct Part {
    pub tree: Expr,
    pub deep: u64,
}

/// What waits for its end.
#[derive(Debug, Drop)]
pub enum Waiting {
    /// A parenthesis that is open.
    Opened,
    /// An operator with its left side.
    Waits(Part, Operator),
}

/// Where the reading of an expression stands, with what waits, the last at the end.
#[derive(Debug, Drop)]
pub enum Standing {
    /// An operand has to come.
    Wants(Vec<Waiting>),
    /// An operand has come.
    Has(Part, Vec<Waiting>),
}

/// How loosely an operator binds.
fn looseness(op: Operator) -> u64
    ensures { result ≡ looseness op }
{
    match op {
        Operator::Times => 0,
        Operator::Quotient => 1,
        Operator::Remainder => 2,
        Operator::Plus | Operator::Minus => 3,
        Operator::Same
        | Operator::Other
        | Operator::Less
        | Operator::AtMost
        | Operator::More
        | Operator::AtLeast => 4,
    }
}

/// How many names are declared before the one that is spelt so.
pub fn place_of(names: &[Text], name: &[u8]) -> Option<usize>
    ensures { result ≡ place_of names.now name.now }
{
    names.iter().position(|other| other.bytes() == name)
}

/// A part without parts.
fn leaf(tree: Expr) -> Part
    ensures { part_of result ≡ leaf (tree_of tree) }
{
    Part { tree, deep: 1 }
}

/// Two parts with an operator between them, where that isn't too deep.
fn joined(alloc: Global, left: Part, op: Operator, right: Part) -> Result<Option<Part>, NoMemory>
    ensures { IfOk result (λ part. option_map part_of part ≡ joined (part_of left) op (part_of right)) }
{
    let deep = left.deep.max(right.deep);
    if deep < DEEPEST {
        let left = Boxed::new(alloc, left.tree)?;
        let right = Boxed::new(alloc, right.tree)?;
        Ok(Some(Part {
            tree: Expr::Apply(op, left, right),
            deep: 1 + deep,
        }))
    } else {
        Ok(None)
    }
}

/// A part in parentheses, where that isn't too deep.
fn enclosed(alloc: Global, inside: Part) -> Result<Option<Part>, NoMemory>
    ensures { IfOk result (λ part. option_map part_of part ≡ enclosed (part_of inside)) }
{
    if inside.deep < DEEPEST {
        Ok(Some(Part {
            tree: Expr::Parenthesised(Boxed::new(alloc, inside.tree)?),
            deep: 1 + inside.deep,
        }))
    } else {
        Ok(None)
    }
}

/// A part takes in what waits for it, up to this looseness.
#[tactic(auto, using(crate::proofs::Parts::pile_last))]
fn reduced(
    alloc: Global,
    bound: u64,
    part: Part,
    waiting: &mut Vec<Waiting>,
) -> Result<Option<Part>, NoMemory>
    ensures { IfOk result (λ r. option_map (λ p. (part_of p, pile_of waiting.new.items)) r ≡ reduced bound (part_of part) (pile_of waiting.old.items)) }
{
    let mut part = part;
    while let Some(last) = waiting.pop() {
        match last {
            Waiting::Waits(left, op) if looseness(op) <= bound => {
                match joined(alloc, left, op, part)? {
                    Some(whole) => part = whole,
                    None => return Ok(None),
                }
            }
            last => {
                waiting.push(last)?;
                return Ok(Some(part));
            }
        }
    }
    Ok(Some(part))
}

/// A parenthesis is closed behind a part.
#[tactic(auto, using(crate::proofs::Parts::pile_last))]
fn closed(
    alloc: Global,
    part: Part,
    mut waiting: Vec<Waiting>,
) -> Result<Option<Standing>, NoMemory>
    ensures { IfOk result (λ next. option_map standing_of next ≡ closed (part_of part) (pile_of waiting.items)) }
{
    match waiting.pop() {
        Some(Waiting::Opened) => match enclosed(alloc, part)? {
            Some(whole) => Ok(Some(Standing::Has(whole, waiting))),
            None => Ok(None),
        },
        Some(Waiting::Waits(_, _)) | None => Ok(None),
    }
}

/// A token further, where an operand has to come.
#[tactic(auto, using(crate::proofs::Parts::pile_last))]
fn wanting(
    names: &[Text],
    mut waiting: Vec<Waiting>,
    token: &Token,
) -> Result<Option<Standing>, NoMemory>
    ensures { IfOk result (λ next. option_map standing_of next ≡ wanting names.now (pile_of waiting.items) token.now) }
{
    match token {
        Token::Number(value) => {
            if *value < 1 << 63 {
                Ok(Some(Standing::Has(leaf(Expr::Literal(*value)), waiting)))
            } else {
                Ok(None)
            }
        }
        Token::Name(name) => match place_of(names, name.bytes()) {
            Some(place) => Ok(Some(Standing::Has(leaf(Expr::Variable(place as u64)), waiting))),
            None => Ok(None),
        },
        Token::Open => {
            waiting.push(Waiting::Opened)?;
            Ok(Some(Standing::Wants(waiting)))
        }
        _ => Ok(None),
    }
}

/// An operator comes behind a part.
#[tactic(auto, using(crate::proofs::Parts::pile_last))]
fn with_sign(
    alloc: Global,
    part: Part,
    mut waiting: Vec<Waiting>,
    op: Operator,
) -> Result<Option<Standing>, NoMemory>
    ensures { IfOk result (λ next. option_map standing_of next ≡ option_map (sign_waits op) (reduced (looseness op) (part_of part) (pile_of waiting.items))) }
{
    match reduced(alloc, looseness(op), part, &mut waiting)? {
        Some(left) => {
            waiting.push(Waiting::Waits(left, op))?;
            Ok(Some(Standing::Wants(waiting)))
        }
        None => Ok(None),
    }
}

/// A token further, where an operand has come.
fn having(
    alloc: Global,
    part: Part,
    mut waiting: Vec<Waiting>,
    token: &Token,
) -> Result<Option<Standing>, NoMemory>
    ensures { IfOk result (λ next. option_map standing_of next ≡ having (part_of part) (pile_of waiting.items) token.now) }
{
    match token {
        Token::Sign(op) => with_sign(alloc, part, waiting, *op),
        Token::Close => match reduced(alloc, LOOSEST, part, &mut waiting)? {
            Some(inside) => closed(alloc, inside, waiting),
            None => Ok(None),
        },
        _ => Ok(None),
    }
}

/// A token further.
fn further(
    alloc: Global,
    names: &[Text],
    standing: Standing,
    token: &Token,
) -> Result<Option<Standing>, NoMemory>
    ensures { IfOk result (λ next. option_map standing_of next ≡ further names.now (standing_of standing) token.now) }
{
    match standing {
        Standing::Wants(waiting) => wanting(names, waiting, token),
        Standing::Has(part, waiting) => having(alloc, part, waiting, token),
    }
}

/// An expression that ends, where nothing waits.
#[tactic(auto, using(crate::proofs::Parts::pile_last))]
fn whole(part: Part, mut waiting: Vec<Waiting>) -> Option<Expr>
    ensures { option_map tree_of result ≡ whole (part_of part) (pile_of waiting.items) }
{
    match waiting.pop() {
        None => Some(part.tree),
        Some(_) => None,
    }
}

/// An expression that ends here.
fn ended(alloc: Global, standing: Standing) -> Result<Option<Expr>, NoMemory>
    ensures { IfOk result (λ tree. option_map tree_of tree ≡ ended (standing_of standing)) }
{
    match standing {
        Standing::Wants(_) => Ok(None),
        Standing::Has(part, mut waiting) => match reduced(alloc, LOOSEST, part, &mut waiting)? {
            Some(part) => Ok(whole(part, waiting)),
            None => Ok(None),
        },
    }
}

/// The expression of these tokens, where these names are declared; none where they are no expression of at most 200
/// levels.
///
/// The error is want of memory.
pub fn expression_of(
    alloc: Global,
    names: &[Text],
    tokens: &[Token],
) -> Result<Option<Expr>, NoMemory>
    ensures { IfOk result (λ tree. option_map tree_of tree ≡ expression_of names.now tokens.now) }
{
    let mut standing = Standing::Wants(Vec::new(alloc));
    for token in tokens {
        match further(alloc, names, standing, token)? {
            Some(next) => standing = next,
            None => return Ok(None),
        }
    }
    ended(alloc, standing)
}
