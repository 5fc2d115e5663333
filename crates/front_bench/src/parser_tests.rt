use fb_base::{Fault, FaultKind, Span};
use fb_lexer::lex;
use parse_expr::ParseErr;
use parse_stmt::parse;
use std::alloc::{AllocError, Global};
use std::test::Fail;

// The fault of a text, None where it has a tree, want of memory where it has no tokens.
fn fault_of(alloc: Global, text: &str) -> Result<Option<Fault>, ParseErr> {
    if text.len() > 1_000_000 {
        return Err(ParseErr::NoMemory);
    }
    let Ok(tokens) = lex(alloc, text.as_bytes()) else {
        return Err(ParseErr::NoMemory);
    };
    match parse(alloc, &tokens) {
        Ok(_) => Ok(None),
        Err(ParseErr::Fault(fault)) => Ok(Some(fault)),
        Err(ParseErr::NoMemory) => Err(ParseErr::NoMemory),
    }
}

fn fault(kind: FaultKind, line: u32, col: u32) -> Option<Fault> {
    let at = Span { line, col };
    Some(Fault { kind, at })
}

#[test]
fn faults_at_their_places(rt: HostRuntime) -> Result<(), Fail> {
    for (text, kind, line, col) in [
        ("Print 1 2", FaultKind::ExtraText, 1, 9),
        ("Print 1 GoTo", FaultKind::ExtraText, 1, 9),
        ("Print GoTo", FaultKind::OutOfProfile, 1, 7),
        ("GoTo x", FaultKind::OutOfProfile, 1, 1),
        ("f GoTo", FaultKind::OutOfProfile, 1, 3),
        ("Return GoTo", FaultKind::OutOfProfile, 1, 8),
        ("If a Then b Else GoTo", FaultKind::OutOfProfile, 1, 18),
        ("Type T : Union", FaultKind::OutOfProfile, 1, 10),
        ("Dim a As Single", FaultKind::OutOfProfile, 1, 10),
        ("Dim GoTo As Long", FaultKind::Expected, 1, 5),
        ("x =", FaultKind::Expected, 1, 3),
        ("x = 1 y", FaultKind::ExtraText, 1, 7),
        ("2\n", FaultKind::Expected, 1, 2),
        (")", FaultKind::ExtraText, 1, 1),
        ("Next", FaultKind::ExtraText, 1, 1),
        ("f (1) + 2", FaultKind::ExtraText, 1, 7),
        ("Len s", FaultKind::Expected, 1, 5),
        ("MutexLock(m) 1", FaultKind::ExtraText, 1, 14),
        ("Delete [1] p", FaultKind::Expected, 1, 9),
        ("Line x", FaultKind::Expected, 1, 6),
        ("Const a", FaultKind::Expected, 1, 7),
        ("@a = 1", FaultKind::ExtraText, 1, 1),
        ("Exit Scope", FaultKind::Expected, 1, 6),
        ("Continue Select", FaultKind::Expected, 1, 10),
        ("Scope : Dim Shared a As Long", FaultKind::Expected, 1, 13),
        ("Static a As Long", FaultKind::ExtraText, 1, 1),
        ("Dim a(1 To) As Long", FaultKind::Expected, 1, 11),
        ("Dim a = 1", FaultKind::Expected, 1, 7),
    ] {
        assert_eq!(rt;
            fault_of(rt.alloc(), text)?,
            fault(kind, line, col),
            "{text}"
        );
    }
    Ok(())
}

#[test]
fn faults_in_blocks(rt: HostRuntime) -> Result<(), Fail> {
    for (text, kind, line, col) in [
        ("If 1 Else", FaultKind::Expected, 1, 6),
        ("If 1 Then\nElse\nElse", FaultKind::ExtraText, 3, 1),
        ("If 1 Then Print 1 :\nPrint 2", FaultKind::Expected, 1, 20),
        (
            "If 1 Then For i = 1 To 2 :\nNext",
            FaultKind::ExtraText,
            1,
            27,
        ),
        (
            "If 1 Then While 1 : If 2 Then Print 1 : Wend",
            FaultKind::ExtraText,
            1,
            31,
        ),
        ("For i = 1 : Next", FaultKind::Expected, 1, 11),
        ("While 1 : Sub f", FaultKind::ExtraText, 1, 11),
        ("Do : Declare Sub f", FaultKind::ExtraText, 1, 6),
        ("Do While 1 : Loop Until 1", FaultKind::ExtraText, 1, 19),
        ("Select Case 1 : : Case 2", FaultKind::Expected, 1, 17),
        ("Select Case 1 : Case Is 2", FaultKind::Expected, 1, 25),
        ("Scope : End If", FaultKind::ExtraText, 1, 13),
    ] {
        assert_eq!(rt;
            fault_of(rt.alloc(), text)?,
            fault(kind, line, col),
            "{text}"
        );
    }
    Ok(())
}

#[test]
fn faults_in_procedures(rt: HostRuntime) -> Result<(), Fail> {
    for (text, kind, line, col) in [
        ("Sub f : End Function", FaultKind::ExtraText, 1, 13),
        ("Sub f\nEnd", FaultKind::Expected, 2, 1),
        ("Sub f(ByVal As Long)", FaultKind::Expected, 1, 13),
        ("Destructor T(a As Long)", FaultKind::Expected, 1, 14),
        ("Operator + (a As T) As T", FaultKind::Expected, 1, 19),
        (
            "Operator Mod (a As T, b As T) As T",
            FaultKind::Expected,
            1,
            10,
        ),
        ("Type T : End Type", FaultKind::Expected, 1, 10),
        (
            "Type T : Declare Sub f : End Type",
            FaultKind::Expected,
            1,
            26,
        ),
        ("Type T :\n x As Long : End Type", FaultKind::Expected, 1, 9),
    ] {
        assert_eq!(rt;
            fault_of(rt.alloc(), text)?,
            fault(kind, line, col),
            "{text}"
        );
    }
    Ok(())
}

#[test]
fn texts_with_a_tree(rt: HostRuntime) -> Result<(), Fail> {
    for text in [
        "",
        ":\n:",
        "Print 1;2,,\"a\";\nPrint",
        "Dim Shared a As Long\nDim As Long a = 1, b(2)\nDim c(-1 To 1) As T Ptr = d",
        "5 = 1 : f : f 1, 2 : f(1) : Len(s) : MutexLock m : MutexLock(m)",
        "*p += 1 : p->q[1](2).r \\= 3 : Line Input s : Delete [] p : End 1",
        "If 1 Then If 2 Then Print 1 Else Print 2 Else Print 3",
        "If 1 Then Print 1 : Do : If 2 Then : Print 3 : End If : Loop",
        "If 1 Then\nElseIf 2 Then\nElse\nEnd If",
        "For i As Long = 1 To 2 Step 3 : Continue For : Next j",
        "Do Until 1\nExit Do\nLoop\nDo : Loop While 2\nWhile 1 : Wend",
        "Select Case a\nCase 1, 2 To 3, Is > 4\nCase Else : Case Else\nEnd Select",
        "Declare Sub f(ByVal As Long, ByRef a As T)\nDeclare Operator - (a As T) As T",
        "Sub f Overload\nStatic a As Long\nScope : Return : End Scope\nEnd Sub",
        "Function f() As Long : Function = 1 : Return 1 : End Function : Function = 1",
        "Sub T.f As Long : End Sub : Function T.f : End Function",
        "Constructor T(a As Long) : End Constructor : Destructor T() : End Destructor",
        "Operator T.Let(a As Long) : End Operator",
        "Operator + (a As T, b As T) As T : End Operator",
        "Type T\nx(1 To 2) As Long\nDeclare Constructor\nDeclare Operator Let(As T)\nEnd Type",
    ] {
        assert_eq!(rt; fault_of(rt.alloc(), text)?, None, "{text}");
    }
    Ok(())
}

// So many pieces, a middle, and as many ends.
fn nested(
    alloc: Global,
    piece: &str,
    count: usize,
    middle: &str,
    end: &str,
) -> Result<String, AllocError> {
    let mut text = String::new(alloc);
    for _ in 0..count {
        text.push_str(piece)?;
    }
    text.push_str(middle)?;
    for _ in 0..count {
        text.push_str(end)?;
    }
    Ok(text)
}

#[test]
fn depths(rt: HostRuntime) -> Result<(), Fail> {
    let alloc = rt.alloc();
    for (front, piece, count, middle, end, back, col) in [
        ("", "Scope:", 199, "Print", ":End Scope", "", 0),
        ("", "Scope:", 200, "Print", ":End Scope", "", 1201),
        ("", "Scope:", 200, "", "End Scope:", "", 0),
        ("", "Scope:", 200, "End:", "", "", 1204),
        ("", "Scope:", 200, "End 1", "", "", 1205),
        ("", "If a Then ", 199, "b", "", "", 0),
        ("", "If a Then ", 200, "b", "", "", 2001),
        ("Sub f:", "Do:", 198, "g", ":Loop", ":End Sub", 0),
        ("Sub f:", "Do:", 199, "g", ":Loop", ":End Sub", 604),
        ("Print ", "(", 199, "1", ")", "", 0),
        ("Print ", "(", 200, "1", ")", "", 206),
        ("f ", "1+", 199, "1", "", "", 0),
        ("f ", "1+", 200, "1", "", "", 402),
        ("", "a=1:", 16384, "", "", "", 0),
    ] {
        let inside = nested(alloc, piece, count, middle, end)?;
        let text = format!(in alloc; "{front}{inside}{back}")?;
        let wanted = if col == 0 {
            None
        } else {
            Some(Fault {
                kind: FaultKind::DeepNesting,
                at: Span { line: 1, col },
            })
        };
        assert_eq!(rt;
            fault_of(alloc, text.as_str())?,
            wanted,
            "{front}{piece}{middle}"
        );
    }
    Ok(())
}

#[test]
fn trees(rt: HostRuntime) -> Result<(), Fail> {
    let alloc = rt.alloc();
    for (text, wanted) in [
        (
            "Print 1 + _\n 2 + _\n 3",
            "Tree { items: Items { items: [Stmt(Print(Span { line: 1, col: 1 }, Items { items: [Expr(Binary(Span { line: 1, col: 7 }, Boxed { inner: Binary(Span { line: 1, col: 7 }, Boxed { inner: Number(Span { line: 1, col: 7 }, 1) }, Add, Span { line: 1, col: 9 }, Boxed { inner: Number(Span { line: 2, col: 2 }, 2) }) }, Add, Span { line: 2, col: 4 }, Boxed { inner: Number(Span { line: 3, col: 2 }, 3) }))] }))] }, tokens: 6, last_line: 3 }",
        ),
        (
            "If a Then b Else c",
            "Tree { items: Items { items: [Stmt(IfLine(Span { line: 1, col: 1 }, Name(Span { line: 1, col: 4 }, Text { bytes: [97] }), Block { stmts: Items { items: [CallName(Span { line: 1, col: 11 }, Name { at: Span { line: 1, col: 11 }, text: Text { bytes: [98] } }, Items { items: [] })] }, end: Span { line: 1, col: 13 } }, Some((Span { line: 1, col: 13 }, Block { stmts: Items { items: [CallName(Span { line: 1, col: 18 }, Name { at: Span { line: 1, col: 18 }, text: Text { bytes: [99] } }, Items { items: [] })] }, end: Span { line: 1, col: 18 } }))))] }, tokens: 6, last_line: 1 }",
        ),
    ] {
        assert!(rt; text.len() < 1000);
        let tokens = lex(alloc, text.as_bytes())?;
        let tree = parse(alloc, &tokens)?;
        let shown = format!(in alloc; "{tree:?}")?;
        assert_eq!(rt; shown.as_str(), wanted, "{text}");
    }
    Ok(())
}
