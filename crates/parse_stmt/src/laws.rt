//! What the reading of a text has to do with its grammar.
ghost use Rattle.std.specs.Prelude.{◌≡◌, ℕ, Ok, Err};
ghost use Rattle.fb_lexer.specs.TokenList.{TokenList};
ghost use Rattle.fb_ast.specs.declared.tree.Tree.{Tree};
ghost use Rattle.parse_stmt.specs.Module.{tree_of};
ghost use Rattle.parse_stmt.specs.Texts.{IsText};
ghost use Rattle.parse_stmt.specs.Faults.{FirstAt};
ghost use Rattle.fb_base.specs.declared.fault.Fault.{Fault};
ghost use Rattle.parse_expr.specs.declared.error.ParseErr.TheVariants as errors;

/// What is read is a text by the grammar, each expression, statement and procedure at most 200 deep.
pub fn texts_read()
    ensures { (tokens : TokenList) (tree : Tree) → tree_of tokens ≡ Ok tree → IsText tokens.items tokens.last_line tree }
{}

/// Each text by the grammar is read.
pub fn texts_found()
    ensures { (tokens : TokenList) (tree : Tree) → IsText tokens.items tokens.last_line tree → tree_of tokens ≡ Ok tree }
{}

/// Tokens are one text at most.
pub fn one_text()
    ensures { (tokens : TokenList) (one other : Tree) → IsText tokens.items tokens.last_line one → IsText tokens.items tokens.last_line other → one ≡ other }
{}

/// The fault that is told is the first one by the grammar: it stands at the first token up to which no text agrees with the
/// tokens, or at the last one where they end too early. Its kind is the one that the grammar gives: OutOfProfile at a word
/// that this profile doesn't have, where a statement, a type, a field or an operand may begin; or else DeepNesting where only
/// the depth forbids the token; or else ExtraText where an end would do in its place; or else Expected.
pub fn first_fault()
    ensures { (tokens : TokenList) (fault : Fault) → tree_of tokens ≡ Err (errors.Fault fault) → FirstAt tokens.items fault }
{}

/// The first fault by the grammar is told. So there is one at most, and none where a text is read.
pub fn faults_found()
    ensures { (tokens : TokenList) (fault : Fault) → FirstAt tokens.items fault → tree_of tokens ≡ Err (errors.Fault fault) }
{}
