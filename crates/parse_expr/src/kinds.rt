//! What words and marks are in expressions and types.
ghost use Rattle.std.specs.Prelude.{◌≡◌};
ghost use Rattle.parse_expr.specs.Words as spec;

use fb_ast::{Base, Binary, CallWord, Unary};
use fb_base::Span;
use fb_lexer::{Mark, TokenKind, Word};
use word64::Kind;

/// A reserved word as the beginning of an operand.
#[derive(Clone, Copy, Debug, PartialEq, Eq)]
pub enum OperandWord {
    True,
    False,
    This,
    New,
    Cast,
    CPtr,
    SizeOf,
    IIf,
    Call(CallWord),
    /// No operand begins with the word.
    Nothing,
}

/// What goes on with an expression.
#[derive(Clone, Copy, Debug, PartialEq, Eq)]
pub enum Suffix {
    /// Parentheses with arguments.
    Call,
    /// Brackets with an index.
    Index,
    /// `.` and a name.
    Field,
    /// `->` and a name.
    Arrow,
}

/// An operator between its operands, its level, and its place.
#[derive(Clone, Copy, Debug, PartialEq, Eq)]
pub struct Operator {
    pub which: Binary,
    pub level: u8,
    pub at: Span,
}

pub fn is_refused(word: Word) -> bool
    ensures { result ≡ spec.is_refused word }
{
    match word {
        Word::KwSingle => true,
        Word::KwDouble => true,
        Word::KwZString => true,
        Word::KwWString => true,
        Word::KwReDim => true,
        Word::KwErase => true,
        Word::KwPreserve => true,
        Word::KwExtends => true,
        Word::KwVirtual => true,
        Word::KwAbstract => true,
        Word::KwProperty => true,
        Word::KwUnion => true,
        Word::KwNamespace => true,
        Word::KwEnum => true,
        Word::KwWith => true,
        Word::KwGoTo => true,
        Word::KwGoSub => true,
        Word::KwOn => true,
        Word::KwVar => true,
        Word::KwPublic => true,
        Word::KwPrivate => true,
        Word::KwProtected => true,
        Word::KwOpen => true,
        Word::KwClose => true,
        Word::KwVal => true,
        Word::KwRnd => true,
        Word::KwTimer => true,
        Word::KwStrPtr => true,
        Word::KwCommand => true,
        Word::KwAsm => true,
        Word::KwExtern => true,
        _ => false,
    }
}

/// An operator before its operand, and the operand's level.
pub fn prefix_of(kind: &TokenKind) -> Option<(Unary, u8)>
    ensures { result ≡ spec.prefix_of kind.now }
{
    match kind {
        TokenKind::Mark(Mark::At) => Some((Unary::Address, 14)),
        TokenKind::Mark(Mark::Star) => Some((Unary::Deref, 14)),
        TokenKind::Mark(Mark::Minus) => Some((Unary::Minus, 14)),
        TokenKind::Word(Word::KwNot) => Some((Unary::Not, 6)),
        _ => None,
    }
}

fn binary_mark(mark: Mark) -> Option<(Binary, u8)>
    ensures { result ≡ spec.binary_mark mark }
{
    match mark {
        Mark::Star => Some((Binary::Multiply, 13)),
        Mark::Backslash => Some((Binary::Divide, 12)),
        Mark::Plus => Some((Binary::Add, 9)),
        Mark::Minus => Some((Binary::Subtract, 9)),
        Mark::Ampersand => Some((Binary::Join, 8)),
        Mark::Equal => Some((Binary::Equal, 7)),
        Mark::NotEqual => Some((Binary::NotEqual, 7)),
        Mark::Less => Some((Binary::Less, 7)),
        Mark::LessEqual => Some((Binary::LessEqual, 7)),
        Mark::Greater => Some((Binary::Greater, 7)),
        Mark::GreaterEqual => Some((Binary::GreaterEqual, 7)),
        _ => None,
    }
}

fn binary_word(word: Word) -> Option<(Binary, u8)>
    ensures { result ≡ spec.binary_word word }
{
    match word {
        Word::KwMod => Some((Binary::Mod, 11)),
        Word::KwShl => Some((Binary::Shl, 10)),
        Word::KwShr => Some((Binary::Shr, 10)),
        Word::KwAnd => Some((Binary::And, 5)),
        Word::KwOr => Some((Binary::Or, 4)),
        Word::KwXor => Some((Binary::Xor, 3)),
        Word::KwAndAlso => Some((Binary::AndAlso, 2)),
        Word::KwOrElse => Some((Binary::OrElse, 1)),
        _ => None,
    }
}

/// An operator between its operands, and its level: that of a higher level binds tighter.
pub fn binary_of(kind: &TokenKind) -> Option<(Binary, u8)>
    ensures { result ≡ spec.binary_of kind.now }
{
    match kind {
        TokenKind::Mark(mark) => binary_mark(*mark),
        TokenKind::Word(word) => binary_word(*word),
        _ => None,
    }
}

fn suffix_mark(mark: Mark) -> Option<Suffix>
    ensures { result ≡ spec.suffix_mark mark }
{
    match mark {
        Mark::Open => Some(Suffix::Call),
        Mark::OpenBracket => Some(Suffix::Index),
        Mark::Dot => Some(Suffix::Field),
        Mark::Arrow => Some(Suffix::Arrow),
        _ => None,
    }
}

/// What a token goes on with behind an expression.
pub fn suffix_of(kind: &TokenKind) -> Option<Suffix>
    ensures { result ≡ spec.suffix_of kind.now }
{
    match kind {
        TokenKind::Mark(mark) => suffix_mark(*mark),
        _ => None,
    }
}

pub fn base_word(word: Word) -> Option<Base>
    ensures { result ≡ spec.base_word word }
{
    match word {
        Word::KwByte => Some(Base::Num(Kind::Byte)),
        Word::KwUByte => Some(Base::Num(Kind::UByte)),
        Word::KwShort => Some(Base::Num(Kind::Short)),
        Word::KwUShort => Some(Base::Num(Kind::UShort)),
        Word::KwLong => Some(Base::Num(Kind::Long)),
        Word::KwULong => Some(Base::Num(Kind::ULong)),
        Word::KwInteger => Some(Base::Num(Kind::Integer)),
        Word::KwUInteger => Some(Base::Num(Kind::UInteger)),
        Word::KwLongInt => Some(Base::Num(Kind::LongInt)),
        Word::KwULongInt => Some(Base::Num(Kind::ULongInt)),
        Word::KwBoolean => Some(Base::Num(Kind::Boolean)),
        Word::KwString => Some(Base::Str),
        Word::KwAny => Some(Base::Any),
        _ => None,
    }
}

pub fn is_pointer(kind: &TokenKind) -> bool
    ensures { result ≡ spec.is_pointer kind.now }
{
    match kind {
        TokenKind::Word(Word::KwPtr) => true,
        TokenKind::Word(Word::KwPointer) => true,
        _ => false,
    }
}

pub fn operand_word(word: Word) -> OperandWord
    ensures { result ≡ spec.operand_word word }
{
    match word {
        Word::KwTrue => OperandWord::True,
        Word::KwFalse => OperandWord::False,
        Word::KwThis => OperandWord::This,
        Word::KwNew => OperandWord::New,
        Word::KwCast => OperandWord::Cast,
        Word::KwCPtr => OperandWord::CPtr,
        Word::KwSizeOf => OperandWord::SizeOf,
        Word::KwIIf => OperandWord::IIf,
        Word::KwLen => OperandWord::Call(CallWord::Len),
        Word::KwLeft => OperandWord::Call(CallWord::Left),
        Word::KwRight => OperandWord::Call(CallWord::Right),
        Word::KwMid => OperandWord::Call(CallWord::Mid),
        Word::KwChr => OperandWord::Call(CallWord::Chr),
        Word::KwAsc => OperandWord::Call(CallWord::Asc),
        Word::KwStr => OperandWord::Call(CallWord::Str),
        Word::KwValLng => OperandWord::Call(CallWord::ValLng),
        Word::KwInStr => OperandWord::Call(CallWord::InStr),
        Word::KwUCase => OperandWord::Call(CallWord::UCase),
        Word::KwLCase => OperandWord::Call(CallWord::LCase),
        Word::KwSpace => OperandWord::Call(CallWord::Space),
        Word::KwLTrim => OperandWord::Call(CallWord::LTrim),
        Word::KwRTrim => OperandWord::Call(CallWord::RTrim),
        Word::KwSleep => OperandWord::Call(CallWord::Sleep),
        Word::KwThreadCreate => OperandWord::Call(CallWord::ThreadCreate),
        Word::KwThreadWait => OperandWord::Call(CallWord::ThreadWait),
        Word::KwThreadDetach => OperandWord::Call(CallWord::ThreadDetach),
        Word::KwMutexCreate => OperandWord::Call(CallWord::MutexCreate),
        Word::KwMutexLock => OperandWord::Call(CallWord::MutexLock),
        Word::KwMutexUnlock => OperandWord::Call(CallWord::MutexUnlock),
        Word::KwMutexDestroy => OperandWord::Call(CallWord::MutexDestroy),
        Word::KwCondCreate => OperandWord::Call(CallWord::CondCreate),
        Word::KwCondWait => OperandWord::Call(CallWord::CondWait),
        Word::KwCondSignal => OperandWord::Call(CallWord::CondSignal),
        Word::KwCondBroadcast => OperandWord::Call(CallWord::CondBroadcast),
        Word::KwCondDestroy => OperandWord::Call(CallWord::CondDestroy),
        Word::KwCByte => OperandWord::Call(CallWord::Convert(Kind::Byte)),
        Word::KwCUByte => OperandWord::Call(CallWord::Convert(Kind::UByte)),
        Word::KwCShort => OperandWord::Call(CallWord::Convert(Kind::Short)),
        Word::KwCUShort => OperandWord::Call(CallWord::Convert(Kind::UShort)),
        Word::KwCLng => OperandWord::Call(CallWord::Convert(Kind::Long)),
        Word::KwCULng => OperandWord::Call(CallWord::Convert(Kind::ULong)),
        Word::KwCInt => OperandWord::Call(CallWord::Convert(Kind::Integer)),
        Word::KwCUInt => OperandWord::Call(CallWord::Convert(Kind::UInteger)),
        Word::KwCLngInt => OperandWord::Call(CallWord::Convert(Kind::LongInt)),
        Word::KwCULngInt => OperandWord::Call(CallWord::Convert(Kind::ULongInt)),
        Word::KwCBool => OperandWord::Call(CallWord::Convert(Kind::Boolean)),
        _ => OperandWord::Nothing,
    }
}
