//! What the reading of expressions has to do with their grammar.
ghost use Rattle.std.specs.Prelude.{◌≡◌, ◌≤◌, ◌+◌, ◌++◌, ℕ, List, Ok, Err, length, drop};
ghost use Rattle.fb_lexer.specs.declared.token.Token.{Token};
ghost use Rattle.fb_base.specs.declared.fault.Fault.{Fault};
ghost use Rattle.fb_ast.specs.declared.expr.Expr.{Expr};
ghost use Rattle.parse_expr.specs.declared.error.ParseErr.TheVariants as errors;
ghost use Rattle.parse_expr.specs.Expr.{expr_at};
ghost use Rattle.parse_expr.specs.Faults.{FirstFault};
ghost use Rattle.parse_expr.specs.Grammar.{EndsAt, EndsBefore, IsExpression, Stands};

/// What is read from a place on is an expression by the grammar, at most 200 deep, and stands there.
pub fn trees_read()
    ensures { (tokens : List Token) (at end : ℕ) (tree : Expr) → at ≤ length tokens → expr_at tokens at ≡ Ok (tree, end) → Stands tokens at end tree }
{}

/// Each expression by the grammar that is at most 200 deep is read, where nothing goes on with it.
pub fn trees_found()
    ensures { (tokens : List Token) (at : ℕ) (front rest : List Token) (tree : Expr) → at ≤ length tokens → drop at tokens ≡ front ++ rest → IsExpression front tree → EndsBefore rest → expr_at tokens at ≡ Ok (tree, at + length front) }
{}

/// Tokens are one expression at most.
pub fn one_tree()
    ensures { (ts : List Token) (one other : Expr) → IsExpression ts one → IsExpression ts other → one ≡ other }
{}

/// No expression at most 200 deep that stands at a place is longer than the one that is read from there.
pub fn longest_tree()
    ensures { (tokens : List Token) (at end other : ℕ) (tree another : Expr) → at ≤ length tokens → expr_at tokens at ≡ Ok (tree, end) → Stands tokens at other another → other ≤ end }
{}

/// No expression at most 200 deep agrees with the tokens up to and with the one at which a fault stands, and where they
/// end too early they are no expression: a fault is never told too early.
pub fn no_early_fault()
    ensures { (tokens : List Token) (at : ℕ) (fault : Fault) → expr_at tokens at ≡ Err (errors.Fault fault) → EndsAt tokens at fault.at }
{}

/// The fault that is told from a place on is the first one by the grammar: some expression at most 200 deep begins with the
/// tokens before it, and none with its token too. Its kind is the one that the grammar gives.
pub fn first_fault()
    ensures { (tokens : List Token) (at : ℕ) (fault : Fault) → expr_at tokens at ≡ Err (errors.Fault fault) → FirstFault tokens at fault }
{}

/// The first fault by the grammar is told. So there is one at most, and none where an expression is read.
pub fn faults_found()
    ensures { (tokens : List Token) (at : ℕ) (fault : Fault) → FirstFault tokens at fault → expr_at tokens at ≡ Err (errors.Fault fault) }
{}
