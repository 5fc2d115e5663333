use fb_base::{Fault, FaultKind, Span};
use fb_lexer::{LexErr, Tokens, lex};
use std::alloc::{AllocError, Global};
use std::test::Fail;

// Every reserved word but Rem, and what each is.
const WORDS: &str = "\
    Byte UByte Short UShort Long ULong Integer UInteger LongInt ULongInt Boolean String Any Ptr \
    Pointer AndAlso And As ByRef ByVal Case CPtr Cast Const Constructor Continue Declare Delete \
    Destructor Dim Do Else ElseIf End Exit False For Function If IIf Input Is Let Line Loop Mod New \
    Next Not Operator Or OrElse Overload Print Return Scope Select Shared Shl Shr SizeOf Static Step \
    Sub Then This To True Type Until Wend While Xor Len Left Right Mid Chr Asc Str ValLng InStr \
    UCase LCase Space LTrim RTrim Sleep ThreadCreate ThreadWait ThreadDetach MutexCreate MutexLock \
    MutexUnlock MutexDestroy CondCreate CondWait CondSignal CondBroadcast CondDestroy CByte CUByte \
    CShort CUShort CLng CULng CInt CUInt CLngInt CULngInt CBool Single Double ZString WString ReDim \
    Erase Preserve Extends Virtual Abstract Property Union Namespace Enum With GoTo GoSub On Var \
    Public Private Protected Open Close Val Rnd Timer StrPtr Command Asm Extern";

const WORDS_SHOWN: &str = "\
    Word(KwByte) Word(KwUByte) Word(KwShort) Word(KwUShort) Word(KwLong) Word(KwULong) \
    Word(KwInteger) Word(KwUInteger) Word(KwLongInt) Word(KwULongInt) Word(KwBoolean) Word(KwString) \
    Word(KwAny) Word(KwPtr) Word(KwPointer) Word(KwAndAlso) Word(KwAnd) Word(KwAs) Word(KwByRef) \
    Word(KwByVal) Word(KwCase) Word(KwCPtr) Word(KwCast) Word(KwConst) Word(KwConstructor) \
    Word(KwContinue) Word(KwDeclare) Word(KwDelete) Word(KwDestructor) Word(KwDim) Word(KwDo) \
    Word(KwElse) Word(KwElseIf) Word(KwEnd) Word(KwExit) Word(KwFalse) Word(KwFor) Word(KwFunction) \
    Word(KwIf) Word(KwIIf) Word(KwInput) Word(KwIs) Word(KwLet) Word(KwLine) Word(KwLoop) \
    Word(KwMod) Word(KwNew) Word(KwNext) Word(KwNot) Word(KwOperator) Word(KwOr) Word(KwOrElse) \
    Word(KwOverload) Word(KwPrint) Word(KwReturn) Word(KwScope) Word(KwSelect) Word(KwShared) \
    Word(KwShl) Word(KwShr) Word(KwSizeOf) Word(KwStatic) Word(KwStep) Word(KwSub) Word(KwThen) \
    Word(KwThis) Word(KwTo) Word(KwTrue) Word(KwType) Word(KwUntil) Word(KwWend) Word(KwWhile) \
    Word(KwXor) Word(KwLen) Word(KwLeft) Word(KwRight) Word(KwMid) Word(KwChr) Word(KwAsc) \
    Word(KwStr) Word(KwValLng) Word(KwInStr) Word(KwUCase) Word(KwLCase) Word(KwSpace) Word(KwLTrim) \
    Word(KwRTrim) Word(KwSleep) Word(KwThreadCreate) Word(KwThreadWait) Word(KwThreadDetach) \
    Word(KwMutexCreate) Word(KwMutexLock) Word(KwMutexUnlock) Word(KwMutexDestroy) \
    Word(KwCondCreate) Word(KwCondWait) Word(KwCondSignal) Word(KwCondBroadcast) Word(KwCondDestroy) \
    Word(KwCByte) Word(KwCUByte) Word(KwCShort) Word(KwCUShort) Word(KwCLng) Word(KwCULng) \
    Word(KwCInt) Word(KwCUInt) Word(KwCLngInt) Word(KwCULngInt) Word(KwCBool) Word(KwSingle) \
    Word(KwDouble) Word(KwZString) Word(KwWString) Word(KwReDim) Word(KwErase) Word(KwPreserve) \
    Word(KwExtends) Word(KwVirtual) Word(KwAbstract) Word(KwProperty) Word(KwUnion) \
    Word(KwNamespace) Word(KwEnum) Word(KwWith) Word(KwGoTo) Word(KwGoSub) Word(KwOn) Word(KwVar) \
    Word(KwPublic) Word(KwPrivate) Word(KwProtected) Word(KwOpen) Word(KwClose) Word(KwVal) \
    Word(KwRnd) Word(KwTimer) Word(KwStrPtr) Word(KwCommand) Word(KwAsm) Word(KwExtern)";

// Every mark, and what each is.
const MARKS: &str = r"+ - * \ & = <> < <= > >= ( ) [ ] , ; . -> @ += -= *= \= &=";

const MARKS_SHOWN: &str = "\
    Mark(Plus) Mark(Minus) Mark(Star) Mark(Backslash) Mark(Ampersand) Mark(Equal) Mark(NotEqual) \
    Mark(Less) Mark(LessEqual) Mark(Greater) Mark(GreaterEqual) Mark(Open) Mark(Close) \
    Mark(OpenBracket) Mark(CloseBracket) Mark(Comma) Mark(Semicolon) Mark(Dot) Mark(Arrow) Mark(At) \
    Mark(PlusEqual) Mark(MinusEqual) Mark(StarEqual) Mark(BackslashEqual) Mark(AmpersandEqual)";

// The kinds of the tokens, with a space between.
fn kinds(alloc: Global, tokens: &Tokens) -> Result<String, AllocError> {
    let mut shown = String::new(alloc);
    for i in 0..tokens.len() {
        let kind = &tokens.at(i).kind;
        let piece = format!(in alloc; "{kind:?}")?;
        if i > 0 {
            shown.push_str(" ")?;
        }
        shown.push_str(piece.as_str())?;
    }
    Ok(shown)
}

// The places of the tokens, with a space behind each.
fn places(alloc: Global, tokens: &Tokens) -> Result<String, AllocError> {
    let mut shown = String::new(alloc);
    for i in 0..tokens.len() {
        let Span { line, col } = tokens.at(i).at;
        let piece = format!(in alloc; "{line}:{col} ")?;
        shown.push_str(piece.as_str())?;
    }
    Ok(shown)
}

#[test]
fn tokens_of_every_kind(rt: HostRuntime) -> Result<(), Fail> {
    for (text, shown, at, last_line) in [
        (WORDS, WORDS_SHOWN, "", 1),
        (MARKS, MARKS_SHOWN, "", 1),
        (
            "Print 1 + _\n 2",
            "Word(KwPrint) Number(1) Mark(Plus) Number(2)",
            "1:1 1:7 1:9 2:2 ",
            2,
        ),
        (
            "A_1:REM x\n\t \n' y\n _ /' \n '/ ' z",
            "Name(Text { bytes: [97, 95, 49] }) Colon LineEnd",
            "1:1 1:4 1:10 ",
            5,
        ),
        (
            "&hFf&O17&b102&hg + 18446744073709551615",
            "Number(255) Number(15) Number(2) Number(2) Mark(Ampersand) Name(Text { bytes: [104, 103] }) Mark(Plus) Number(18446744073709551615)",
            "",
            1,
        ),
        (
            "\"a\"\"b\"\n\n1.5",
            "Str(Text { bytes: [97, 34, 98] }) LineEnd Number(1) Mark(Dot) Number(5)",
            "1:1 1:7 3:1 3:2 3:3 ",
            3,
        ),
    ] {
        assert!(rt; text.len() < 10_000);
        match lex(rt.alloc(), text.as_bytes()) {
            Ok(tokens) => {
                assert_eq!(rt; tokens.last_line(), last_line, "{text}");
                assert_eq!(rt; kinds(rt.alloc(), &tokens)?.as_str(), shown, "{text}");
                if !at.is_empty() {
                    assert_eq!(rt; places(rt.alloc(), &tokens)?.as_str(), at, "{text}");
                }
            }
            Err(error) => assert!(rt; false, "{text}: {error:?}"),
        }
    }
    Ok(())
}

#[test]
fn faults_at_their_places(rt: HostRuntime) -> Result<(), Fail> {
    for (text, kind, line, col) in [
        ("a$", FaultKind::BadByte, 1, 2),
        ("\"ab", FaultKind::OpenText, 1, 1),
        ("\n \"ab\n\"", FaultKind::OpenText, 2, 2),
        ("/' /' '/", FaultKind::OpenComment, 1, 1),
        ("\n_ /' \n", FaultKind::OpenComment, 2, 3),
        ("18446744073709551616", FaultKind::BigNumber, 1, 1),
        ("a = _ 1", FaultKind::BadByte, 1, 7),
        ("1_", FaultKind::BadByte, 1, 2),
        ("/' '/_", FaultKind::BadByte, 1, 6),
    ] {
        assert!(rt; text.len() < 10_000);
        let fault = LexErr::Fault(Fault {
            kind,
            at: Span { line, col },
        });
        match lex(rt.alloc(), text.as_bytes()) {
            Ok(_) => assert!(rt; false, "{text}"),
            Err(error) => assert_eq!(rt; error, fault, "{text}"),
        }
    }
    Ok(())
}

#[test]
fn long_texts(rt: HostRuntime) -> Result<(), Fail> {
    for (byte, length, count) in [
        (b'a', 1_048_576, 1),
        (b';', 65_536, 65_536),
        (b';', 65_537, 0),
    ] {
        let text = vec![in rt.alloc(); byte; length]?;
        assert!(rt; text.len() < 2_000_000);
        match lex(rt.alloc(), text.as_slice()) {
            Ok(tokens) => assert_eq!(rt; tokens.len(), count),
            Err(error) => {
                let at = Span {
                    line: 1,
                    col: 65_537,
                };
                let kind = FaultKind::TooManyTokens;
                assert_eq!(rt; count, 0);
                assert_eq!(rt; error, LexErr::Fault(Fault { kind, at }));
            }
        }
    }
    Ok(())
}
