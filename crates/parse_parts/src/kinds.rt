//! What words and marks are in statements.
ghost use Rattle.std.specs.Prelude.{◌≡◌};
ghost use Rattle.parse_parts.specs.Words as spec;

use fb_ast::{Assignment, Binary, CallWord, Comparison, End, Until};
use fb_base::FaultKind;
use fb_lexer::{Mark, TokenKind, Word};
use parse_expr::{OperandWord, operand_word};

/// Where a statement stands in the module.
#[derive(Clone, Copy, Debug, PartialEq, Eq)]
pub enum Level {
    /// Outside of procedures and blocks.
    Module,
    /// In a block outside of procedures.
    Main,
    /// In a procedure.
    Procedure,
}

/// Where a statement stands in its line.
#[derive(Clone, Copy, Debug, PartialEq, Eq)]
pub enum InLine {
    /// It is no part of a one-line If.
    Free,
    /// It is a statement of a one-line If itself.
    Series,
    /// It stands in a block that is part of a one-line If.
    Inner,
}

/// Where a statement stands, and what is wrong there with a token that begins none.
#[derive(Clone, Copy, Debug, PartialEq, Eq)]
pub struct Spot {
    pub level: Level,
    pub line: InLine,
    pub other: FaultKind,
}

/// What a statement begins with.
#[derive(Clone, Copy, Debug, PartialEq, Eq)]
pub enum Lead {
    Dim,
    Static,
    Const,
    Function,
    Print,
    Line,
    If,
    For,
    While,
    Do,
    Select,
    Scope,
    Exit,
    Continue,
    Return,
    Delete,
    End,
    /// A word that is called and gives nothing.
    Call(CallWord),
    /// An operand.
    Value,
    /// No statement begins so.
    Nothing,
}

/// What ends a block.
#[derive(Clone, Copy, Debug, PartialEq, Eq)]
pub enum Closer {
    Next,
    Wend,
    Loop,
    /// `End Scope`
    Scope,
    /// Case or `End Select`
    Cases,
    /// ElseIf, Else or `End If`
    Branches,
    /// `End If`
    Else,
    /// `End Sub`
    Sub,
    /// `End Function`
    Function,
    /// `End Constructor`
    Constructor,
    /// `End Destructor`
    Destructor,
    /// `End Operator`
    Operator,
}

/// Where the statements of a block stand that begins here.
pub fn level_within(level: Level) -> Level
    ensures { result ≡ spec.level_within level }
{
    match level {
        Level::Procedure => Level::Procedure,
        Level::Main | Level::Module => Level::Main,
    }
}

/// Where the statements of a block stand in their line that begins here.
pub fn line_within(line: InLine) -> InLine
    ensures { result ≡ spec.line_within line }
{
    match line {
        InLine::Free => InLine::Free,
        InLine::Series | InLine::Inner => InLine::Inner,
    }
}

/// Whether a word that is called gives nothing.
pub fn gives_nothing(word: CallWord) -> bool
    ensures { result ≡ spec.gives_nothing word }
{
    match word {
        CallWord::Sleep => true,
        CallWord::ThreadWait => true,
        CallWord::ThreadDetach => true,
        CallWord::MutexLock => true,
        CallWord::MutexUnlock => true,
        CallWord::MutexDestroy => true,
        CallWord::CondWait => true,
        CallWord::CondSignal => true,
        CallWord::CondBroadcast => true,
        CallWord::CondDestroy => true,
        _ => false,
    }
}

fn operand_lead(word: OperandWord) -> Lead
    ensures { result ≡ spec.operand_lead word }
{
    match word {
        OperandWord::Call(word) => {
            if gives_nothing(word) {
                Lead::Call(word)
            } else {
                Lead::Value
            }
        }
        OperandWord::Nothing => Lead::Nothing,
        _ => Lead::Value,
    }
}

fn word_lead(word: Word) -> Lead
    ensures { result ≡ spec.word_lead word }
{
    match word {
        Word::KwDim => Lead::Dim,
        Word::KwStatic => Lead::Static,
        Word::KwConst => Lead::Const,
        Word::KwFunction => Lead::Function,
        Word::KwPrint => Lead::Print,
        Word::KwLine => Lead::Line,
        Word::KwIf => Lead::If,
        Word::KwFor => Lead::For,
        Word::KwWhile => Lead::While,
        Word::KwDo => Lead::Do,
        Word::KwSelect => Lead::Select,
        Word::KwScope => Lead::Scope,
        Word::KwExit => Lead::Exit,
        Word::KwContinue => Lead::Continue,
        Word::KwReturn => Lead::Return,
        Word::KwDelete => Lead::Delete,
        Word::KwEnd => Lead::End,
        _ => operand_lead(operand_word(word)),
    }
}

fn mark_lead(mark: Mark) -> Lead
    ensures { result ≡ spec.mark_lead mark }
{
    match mark {
        Mark::Open => Lead::Value,
        Mark::Star => Lead::Value,
        _ => Lead::Nothing,
    }
}

// Static stands in procedures alone.
fn allowed(level: Level, lead: Lead) -> Lead
    ensures { result ≡ spec.allowed level lead }
{
    match lead {
        Lead::Static => match level {
            Level::Procedure => Lead::Static,
            Level::Main | Level::Module => Lead::Nothing,
        },
        other => other,
    }
}

/// What a token of this kind begins at this level.
pub fn lead_of(level: Level, kind: &TokenKind) -> Lead
    ensures { result ≡ spec.lead_of level kind.now }
{
    match kind {
        TokenKind::Name(_) | TokenKind::Number(_) | TokenKind::Str(_) => Lead::Value,
        TokenKind::Mark(mark) => mark_lead(*mark),
        TokenKind::Word(word) => allowed(level, word_lead(*word)),
        TokenKind::Colon | TokenKind::LineEnd => Lead::Nothing,
    }
}

/// Whether a token of this kind ends a statement: a colon, or a line end where none is forbidden.
pub fn is_sep(line: InLine, kind: &TokenKind) -> bool
    ensures { result ≡ spec.is_sep line kind.now }
{
    match kind {
        TokenKind::Colon => true,
        TokenKind::LineEnd => match line {
            InLine::Free => true,
            InLine::Series | InLine::Inner => false,
        },
        _ => false,
    }
}

/// Whether a block may be ended by End and a word.
pub fn ends_with_end(closer: Closer) -> bool
    ensures { result ≡ spec.ends_with_end closer }
{
    match closer {
        Closer::Next => false,
        Closer::Wend => false,
        Closer::Loop => false,
        _ => true,
    }
}

fn mark_assignment(mark: Mark) -> Option<Assignment>
    ensures { result ≡ spec.mark_assignment mark }
{
    match mark {
        Mark::Equal => Some(Assignment::Set),
        Mark::PlusEqual => Some(Assignment::Add),
        Mark::MinusEqual => Some(Assignment::Subtract),
        Mark::StarEqual => Some(Assignment::Multiply),
        Mark::BackslashEqual => Some(Assignment::Divide),
        Mark::AmpersandEqual => Some(Assignment::Join),
        _ => None,
    }
}

/// The mark of an assignment.
pub fn assignment_of(kind: &TokenKind) -> Option<Assignment>
    ensures { result ≡ spec.assignment_of kind.now }
{
    match kind {
        TokenKind::Mark(mark) => mark_assignment(*mark),
        _ => None,
    }
}

fn mark_comparison(mark: Mark) -> Option<Comparison>
    ensures { result ≡ spec.mark_comparison mark }
{
    match mark {
        Mark::Equal => Some(Comparison::Equal),
        Mark::NotEqual => Some(Comparison::NotEqual),
        Mark::Less => Some(Comparison::Less),
        Mark::LessEqual => Some(Comparison::LessEqual),
        Mark::Greater => Some(Comparison::Greater),
        Mark::GreaterEqual => Some(Comparison::GreaterEqual),
        _ => None,
    }
}

/// The mark of a comparison.
pub fn comparison_of(kind: &TokenKind) -> Option<Comparison>
    ensures { result ≡ spec.comparison_of kind.now }
{
    match kind {
        TokenKind::Mark(mark) => mark_comparison(*mark),
        _ => None,
    }
}

fn mark_operator(mark: Mark) -> Option<Binary>
    ensures { result ≡ spec.mark_operator mark }
{
    match mark {
        Mark::Plus => Some(Binary::Add),
        Mark::Minus => Some(Binary::Subtract),
        Mark::Star => Some(Binary::Multiply),
        Mark::Ampersand => Some(Binary::Join),
        Mark::Equal => Some(Binary::Equal),
        Mark::NotEqual => Some(Binary::NotEqual),
        Mark::Less => Some(Binary::Less),
        Mark::LessEqual => Some(Binary::LessEqual),
        Mark::Greater => Some(Binary::Greater),
        Mark::GreaterEqual => Some(Binary::GreaterEqual),
        _ => None,
    }
}

/// An operator that a text may declare.
pub fn operator_of(kind: &TokenKind) -> Option<Binary>
    ensures { result ≡ spec.operator_of kind.now }
{
    match kind {
        TokenKind::Mark(mark) => mark_operator(*mark),
        _ => None,
    }
}

/// What may be left by Exit.
pub fn exit_of(kind: &TokenKind) -> Option<End>
    ensures { result ≡ spec.exit_of kind.now }
{
    match kind {
        TokenKind::Word(Word::KwFor) => Some(End::For),
        TokenKind::Word(Word::KwWhile) => Some(End::While),
        TokenKind::Word(Word::KwDo) => Some(End::Do),
        TokenKind::Word(Word::KwSelect) => Some(End::Select),
        TokenKind::Word(Word::KwSub) => Some(End::Sub),
        TokenKind::Word(Word::KwFunction) => Some(End::Function),
        _ => None,
    }
}

/// What may be gone on with by Continue.
pub fn continue_of(kind: &TokenKind) -> Option<End>
    ensures { result ≡ spec.continue_of kind.now }
{
    match kind {
        TokenKind::Word(Word::KwFor) => Some(End::For),
        TokenKind::Word(Word::KwWhile) => Some(End::While),
        TokenKind::Word(Word::KwDo) => Some(End::Do),
        _ => None,
    }
}

/// The word before the condition of a Do.
pub fn until_of(kind: &TokenKind) -> Option<Until>
    ensures { result ≡ spec.until_of kind.now }
{
    match kind {
        TokenKind::Word(Word::KwWhile) => Some(Until::While),
        TokenKind::Word(Word::KwUntil) => Some(Until::Until),
        _ => None,
    }
}

/// The word that a procedure begins with.
#[derive(Clone, Copy, Debug, PartialEq, Eq)]
pub enum ProcedureWord {
    Sub,
    Function,
    Constructor,
    Destructor,
    Operator,
}
