use name_scope::{AddErr, Scopes, Sym};
use std::alloc::Global;
use std::test::Fail;

// A call, and what it has to answer.
#[derive(Clone, Copy)]
enum Act {
    Enter,
    Leave,
    // added
    Add(&'static str, u32),
    // refused, since the innermost scope has the name
    Twice(&'static str, u32),
    // found as this variable
    Find(&'static str, u32),
    Absent(&'static str),
}

use Act::{Absent, Add, Enter, Find, Leave, Twice};

// Whether a call answers what it has to.
fn agrees(scopes: &mut Scopes, act: Act) -> bool {
    match act {
        Enter => scopes.enter() == Ok(()),
        Leave => {
            if scopes.depth() == 0 {
                return false;
            }
            scopes.leave();
            true
        },
        Add(name, number) => {
            scopes.depth() > 0 && scopes.add(name.as_bytes(), Sym::Var(number)) == Ok(())
        }
        Twice(name, number) => {
            scopes.depth() > 0
                && scopes.add(name.as_bytes(), Sym::Var(number)) == Err(AddErr::Twice)
        }
        Find(name, number) => scopes.find(name.as_bytes()) == Some(Sym::Var(number)),
        Absent(name) => scopes.find(name.as_bytes()) == None,
    }
}

#[test]
fn the_innermost_name_counts(rt: HostRuntime) -> Result<(), Fail> {
    let alloc: Global = rt.alloc();
    let mut scopes = Scopes::new(alloc);
    for act in [
        Absent("a"),
        Enter,
        Absent("a"),
        Add("a", 1),
        Find("a", 1),
        Twice("a", 2),
        Find("a", 1),
        Add("ab", 3),
        Enter,
        Find("a", 1),
        Add("a", 4),
        Add("b", 5),
        Find("a", 4),
        Find("ab", 3),
        Twice("a", 6),
        Enter,
        Add("a", 7),
        Leave,
        Find("a", 4),
        Enter,
        Enter,
        Find("b", 5),
        Add("b", 8),
        Leave,
        Leave,
        Find("b", 5),
        Leave,
        Find("a", 1),
        Absent("b"),
        Twice("ab", 9),
        Leave,
        Absent("a"),
        Absent("ab"),
        Enter,
        Add("a", 10),
        Find("a", 10),
    ] {
        assert!(rt; agrees(&mut scopes, act));
    }
    Ok(())
}

#[test]
fn each_kind_of_symbol_is_found(rt: HostRuntime) -> Result<(), Fail> {
    let alloc: Global = rt.alloc();
    let mut scopes = Scopes::new(alloc);
    scopes.enter()?;
    for (name, sym) in [
        ("v", Sym::Var(1)),
        ("p", Sym::Proc(1)),
        ("t", Sym::Obj(1)),
        ("c", Sym::Constant(1)),
    ] {
        assert!(rt; scopes.depth() > 0);
        scopes.add(name.as_bytes(), sym)?;
        assert!(rt; scopes.find(name.as_bytes()) == Some(sym));
    }
    Ok(())
}
