use fb_ast::{Base, Expr, TypeName};
use fb_base::{Fault, FaultKind, Span};
use fb_lexer::lex;
use parse_expr::{ParseErr, expr};
use std::alloc::{AllocError, Global};
use std::test::Fail;

fn show_type(alloc: Global, ty: &TypeName) -> Result<String, AllocError> {
    let pointers = ty.pointers;
    match &ty.base {
        Base::Num(kind) => format!(in alloc; "{kind:?}{pointers}"),
        Base::Str => format!(in alloc; "String{pointers}"),
        Base::Any => format!(in alloc; "Any{pointers}"),
        Base::Name(text) => {
            let name = str::from_utf8(text.bytes()).unwrap_or("?");
            format!(in alloc; "{name}{pointers}")
        }
    }
}

#[cycle(shown)]
fn show_all(alloc: Global, all: &[Expr]) -> Result<String, AllocError> {
    let mut shown = String::new(alloc);
    for e in all {
        let one = show(alloc, e)?;
        shown.push_str(" ")?;
        shown.push_str(one.as_str())?;
    }
    Ok(shown)
}

// A tree with each part in parentheses.
#[cycle(shown)]
fn show(alloc: Global, e: &Expr) -> Result<String, AllocError> {
    match e {
        Expr::Number(_, value) => format!(in alloc; "{value}"),
        Expr::Str(_, text) => {
            let text = str::from_utf8(text.bytes()).unwrap_or("?");
            format!(in alloc; "'{text}'")
        }
        Expr::True(_) => format!(in alloc; "true"),
        Expr::False(_) => format!(in alloc; "false"),
        Expr::Name(_, text) => {
            let name = str::from_utf8(text.bytes()).unwrap_or("?");
            format!(in alloc; "{name}")
        }
        Expr::This(_) => format!(in alloc; "this"),
        Expr::Paren(_, a) => {
            let a = show(alloc, a.get())?;
            format!(in alloc; "[{a}]")
        }
        Expr::New(_, ty) => {
            let ty = show_type(alloc, ty)?;
            format!(in alloc; "(new {ty})")
        }
        Expr::NewWith(_, ty, all) => {
            let ty = show_type(alloc, ty)?;
            let all = show_all(alloc, all.as_slice())?;
            format!(in alloc; "(new-with {ty}{all})")
        }
        Expr::NewArray(_, ty, a) => {
            let ty = show_type(alloc, ty)?;
            let a = show(alloc, a.get())?;
            format!(in alloc; "(new-array {ty} {a})")
        }
        Expr::Cast(_, ty, a) => {
            let ty = show_type(alloc, ty)?;
            let a = show(alloc, a.get())?;
            format!(in alloc; "(cast {ty} {a})")
        }
        Expr::CPtr(_, ty, a) => {
            let ty = show_type(alloc, ty)?;
            let a = show(alloc, a.get())?;
            format!(in alloc; "(cptr {ty} {a})")
        }
        Expr::SizeOf(_, ty) => {
            let ty = show_type(alloc, ty)?;
            format!(in alloc; "(sizeof {ty})")
        }
        Expr::IIf(_, a, b, c) => {
            let a = show(alloc, a.get())?;
            let b = show(alloc, b.get())?;
            let c = show(alloc, c.get())?;
            format!(in alloc; "(iif {a} {b} {c})")
        }
        Expr::CallWord(_, word, all) => {
            let all = show_all(alloc, all.as_slice())?;
            format!(in alloc; "({word:?}{all})")
        }
        Expr::Call(_, a, all) => {
            let a = show(alloc, a.get())?;
            let all = show_all(alloc, all.as_slice())?;
            format!(in alloc; "(call {a}{all})")
        }
        Expr::Index(_, a, b) => {
            let a = show(alloc, a.get())?;
            let b = show(alloc, b.get())?;
            format!(in alloc; "(index {a} {b})")
        }
        Expr::Field(_, a, name) => {
            let a = show(alloc, a.get())?;
            let name = str::from_utf8(name.text.bytes()).unwrap_or("?");
            format!(in alloc; "(. {a} {name})")
        }
        Expr::Arrow(_, a, name) => {
            let a = show(alloc, a.get())?;
            let name = str::from_utf8(name.text.bytes()).unwrap_or("?");
            format!(in alloc; "(-> {a} {name})")
        }
        Expr::Unary(_, operator, a) => {
            let a = show(alloc, a.get())?;
            format!(in alloc; "({operator:?} {a})")
        }
        Expr::Binary(_, a, operator, at, b) => {
            let a = show(alloc, a.get())?;
            let b = show(alloc, b.get())?;
            let Span { line, col } = at;
            format!(in alloc; "({operator:?} {line}:{col} {a} {b})")
        }
    }
}

// The tree of the text's longest expression and the place behind it, or the fault.
fn answer(alloc: Global, text: &str) -> Result<String, AllocError> {
    if text.len() > 1_000_000 {
        return format!(in alloc; "too long");
    }
    let Ok(tokens) = lex(alloc, text.as_bytes()) else {
        return format!(in alloc; "no tokens");
    };
    match expr(alloc, &tokens, 0) {
        Ok((tree, end)) => {
            let tree = show(alloc, &tree)?;
            format!(in alloc; "{tree} {end}")
        }
        Err(ParseErr::Fault(Fault { kind, at })) => {
            let Span { line, col } = at;
            format!(in alloc; "{kind:?} {line}:{col}")
        }
        Err(ParseErr::NoMemory) => format!(in alloc; "no memory"),
    }
}

#[test]
fn trees_and_faults(rt: HostRuntime) -> Result<(), Fail> {
    for (text, wanted) in [
        ("1 + _\n 2 + _\n 3", "(Add 2:4 (Add 1:3 1 2) 3) 5"),
        (
            "a * b \\ c Mod d",
            "(Mod 1:11 (Divide 1:7 (Multiply 1:3 a b) c) d) 7",
        ),
        ("a Mod b \\ c", "(Mod 1:3 a (Divide 1:9 b c)) 5"),
        ("a = b <> c", "(NotEqual 1:7 (Equal 1:3 a b) c) 5"),
        ("-a * b", "(Multiply 1:4 (Minus a) b) 4"),
        ("- - a.b", "(Minus (Minus (. a b))) 5"),
        ("Not a = b And c", "(And 1:11 (Not (Equal 1:7 a b)) c) 6"),
        ("a = Not b", "Expected 1:5"),
        (
            "a OrElse b AndAlso c",
            "(OrElse 1:3 a (AndAlso 1:12 b c)) 5",
        ),
        ("a Xor b Or c", "(Xor 1:3 a (Or 1:9 b c)) 5"),
        (
            "a & b + c Shl 1",
            "(Join 1:3 a (Add 1:7 b (Shl 1:11 c 1))) 7",
        ),
        ("New T(1)(2)", "(call (new-with t0 1) 2) 8"),
        ("New T Ptr Pointer[n].x", "(. (new-array t2 n) x) 9"),
        ("New Integer", "(new Integer0) 2"),
        (
            "@p->q[1](2, 3)",
            "(Address (call (index (-> p q) 1) 2 3)) 12",
        ),
        ("*This.f()", "(Deref (call (. this f))) 6"),
        (
            "Cast(Long, CPtr(Any Ptr, p))",
            "(cast Long0 (cptr Any1 p)) 12",
        ),
        (
            "SizeOf(String) + IIf(True, \"a\"\"\", False)",
            "(Add 1:16 (sizeof String0) (iif true 'a\"' false)) 13",
        ),
        ("Len(s) : x", "(Len s) 4"),
        ("CondCreate() CUInt(1)", "(CondCreate) 3"),
        ("(a))", "[a] 3"),
        ("1 2", "1 1"),
        ("f(Single)", "OutOfProfile 1:3"),
        ("New Single", "OutOfProfile 1:5"),
        ("1 GoTo", "1 1"),
        ("a.Single", "Expected 1:3"),
        ("Len + 1", "Expected 1:5"),
        ("f(1", "Expected 1:3"),
        ("f(1,)", "Expected 1:5"),
        ("New Ptr", "Expected 1:5"),
        ("", "Expected 1:1"),
        (")", "Expected 1:1"),
    ] {
        let found = answer(rt.alloc(), text)?;
        assert_eq!(rt; found.as_str(), wanted, "{text}");
    }
    Ok(())
}

// So many pieces, and what stands behind them.
fn row(alloc: Global, piece: &str, count: usize, back: &str) -> Result<String, AllocError> {
    let mut text = String::new(alloc);
    for _ in 0..count {
        text.push_str(piece)?;
    }
    text.push_str(back)?;
    Ok(text)
}

#[test]
fn depths(rt: HostRuntime) -> Result<(), Fail> {
    let alloc = rt.alloc();
    for (piece, count, back, wanted) in [
        ("1+", 199, "1", ""),
        ("1+", 200, "1", "DeepNesting 1:400"),
        ("1+1*", 198, "1", ""),
        ("1+1*", 199, "1", "DeepNesting 1:794"),
        ("(", 199, "1", "Expected 1:200"),
        ("(", 200, "1", "DeepNesting 1:200"),
        ("-", 200, "1", "DeepNesting 1:200"),
        ("(", 199, "CondCreate(", "Expected 1:210"),
        ("(", 199, "Len(a", "DeepNesting 1:204"),
        ("(", 199, "Cast(", "DeepNesting 1:200"),
        ("(", 199, "New T(", "Expected 1:205"),
        ("(", 199, "New T(+", "Expected 1:206"),
        ("(", 199, "New T(a", "DeepNesting 1:206"),
        ("(", 199, "New T[a", "DeepNesting 1:205"),
        ("(", 199, "Len(Single", "OutOfProfile 1:204"),
        ("(", 199, "a+", "DeepNesting 1:201"),
        ("(", 60_000, "1", "DeepNesting 1:200"),
        ("1 ", 60_000, "1", "1 1"),
    ] {
        let text = row(alloc, piece, count, back)?;
        let found = answer(alloc, text.as_str())?;
        if wanted.is_empty() {
            assert!(rt; !found.as_str().starts_with("DeepNesting"), "{piece}");
        } else {
            assert_eq!(rt; found.as_str(), wanted, "{piece}{back}");
        }
    }
    Ok(())
}
