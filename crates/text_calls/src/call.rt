ghost use Rattle.std.specs.Prelude.{◌≡◌};
ghost use Rattle.text_calls.specs.Strings.{AreKept, AllUsed, strings_of};
ghost use Rattle.text_calls.specs.Rows.{outcome_of};
ghost use Rattle.text_calls.specs.Answers.{Answers};

use crate::carry::carry_out;
use crate::outcome::TextErr;
use crate::plan::plan;
use fb_image::Literals;
use places::Memory;
use str_heap::Heap;

/// A string call, by its number from 10 to 33 and its arguments, those that it doesn't have being ignored; 0 is the
/// result where it has none. Strings are those of `mem`'s alive cells, with their bytes in `heap`; each of them has a
/// descriptor of its own that is live, and it is so afterwards.
///
/// The error is want of memory or a trap, and changes nothing: BadString where a cell isn't there, or isn't as alive as
/// the call asks, in the order of the arguments; then BadCode for a literal that there isn't, StrIndex for a byte that
/// the string doesn't have, and StrLimit for more than 16,777,216 bytes. Another number is BadCode.
pub fn text_call(
    mem: &mut Memory,
    heap: &mut Heap,
    number: u8,
    args: [u64; 4],
    literals: &Literals,
) -> Result<u64, TextErr>
    requires { AreKept mem.old heap.old }
    ensures kept { AreKept mem.new heap.new }
    ensures used { AllUsed mem.old heap.old → AllUsed mem.new heap.new }
    ensures answers { Answers (outcome_of (strings_of mem.old heap.old) literals.now number args) mem.old heap.old mem.new heap.new result }
{
    let outcome = plan(mem, heap, number, args, literals)?;
    carry_out(mem, heap, outcome)
}
