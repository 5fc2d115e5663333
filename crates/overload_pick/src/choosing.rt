ghost use Rattle.overload_pick.specs.Costs.{sums_of};
ghost use Rattle.overload_pick.specs.Choice.{IsThePick};
ghost use Rattle.overload_pick.specs.Best.{Follows};

use crate::answer::Pick;
use crate::cost::sum;
use crate::sig::{Arg, Sig};

// The best candidates so far, with their sum.
#[derive(Clone, Copy, Debug)]
enum Best {
    Nobody,
    One(u64, usize),
    Tie(u64, usize, usize),
}

// The best candidates after one more, of this number.
fn better(best: Best, sum: Option<u64>, number: usize) -> Best
    ensures { Follows best sum number result }
{
    let sum = match sum {
        Some(sum) => sum,
        None => return best,
    };
    match best {
        Best::Nobody => Best::One(sum, number),
        Best::One(least, first) => {
            if sum < least {
                Best::One(sum, number)
            } else if sum == least {
                Best::Tie(least, first, number)
            } else {
                best
            }
        }
        Best::Tie(least, _, _) => {
            if sum < least {
                Best::One(sum, number)
            } else {
                best
            }
        }
    }
}

/// Picks the candidate of least cost for the arguments of a call (FreeBASIC Manual, Overload). It takes no memory.
///
/// An argument of the parameter's own type costs 0; one that a wider whole-number type of the same sign takes, and a
/// typed pointer for Any Ptr, costs 1; another implicit conversion costs 2. An argument that doesn't convert, and
/// another number of parameters, keep a candidate from fitting. Implicit conversions are those between whole numbers
/// and Boolean, between typed pointers and Any Ptr, and from the literal 0 to a pointer.
pub fn pick(cands: &[Sig], args: &[Arg]) -> Pick
    ensures { IsThePick (sums_of args.now cands.now) result }
{
    let mut best = Best::Nobody;
    for i in 0..cands.len() {
        let params = cands[i].as_slice();
        let total = sum(args, params);
        best = better(best, total, i);
    }
    match best {
        Best::Nobody => Pick::Nobody,
        Best::One(_, one) => Pick::One(one),
        Best::Tie(_, first, second) => Pick::Tie(first, second),
    }
}
