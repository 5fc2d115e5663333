//! Things one after another, each read by a turn.
ghost use Rattle.std.specs.Prelude.{◌≡◌};
ghost use Rattle.parse_expr.specs.Reading.{Reads};
ghost use Rattle.parse_parts.specs.Steps as spec;
ghost use Rattle.parse_parts.specs.Steps.{Turn, Turns};

use fb_lexer::Mark;
use parse_expr::{Cursor, ReadErr};
use sqlite_items::Items;
use std::alloc::Global;

/// What reads things one after another: what there is by now, and with each turn more.
pub trait Turning<S> {
    /// What a turn asks for.
    ghost ready: { Self → Type 0 };

    /// What a turn makes of what there is.
    ghost turned: { Self → Turn S };

    /// A turn, and whether to go on.
    fn turn(&self, alloc: Global, cursor: &mut Cursor<'_>, found: &mut S) -> Result<bool, ReadErr>
        requires { ready self.now }
        ensures { Turns (turned self.now found.old cursor.old) found.new result cursor.new };
}

/// All things that come one after another, beside what there is.
#[tactic(auto, unfolding(crate::specs::Steps::repeat))]
pub fn all_of<S: Drop, P: Turning<S>>(
    alloc: Global,
    cursor: &mut Cursor<'_>,
    turning: &P,
    found: S,
) -> Result<S, ReadErr>
    requires { P.ready turning.now }
    ensures { Reads (spec.all_of (P.turned turning.now) found cursor.old) result cursor.new }
{
    let mut found = found;
    for _turn in 0..cursor.left() + 1 {
        let more = turning.turn(alloc, cursor, &mut found)?;
        if !more {
            return Ok(found);
        }
    }
    Err(cursor.refuse())
}

/// Adds what a turn gave. Whether a comma comes next, which is taken: then it goes on.
#[tactic(auto, unfolding(crate::specs::Steps::comma_behind))]
pub fn comma_behind<T: Drop>(
    cursor: &mut Cursor<'_>,
    found: &mut Items<T>,
    one: T,
) -> Result<bool, ReadErr>
    ensures { Turns (spec.comma_behind found.old one cursor.old) found.new result cursor.new }
{
    found.push(one)?;
    if cursor.sees(Mark::Comma) {
        cursor.take();
        return Ok(true);
    }
    Ok(false)
}
