ghost use Rattle.std.specs.Prelude.{◌≡◌, ◌+◌, ◌-◌, ◌<◌, ◌≤◌, ◌^◌, [], ℕ, true, false, length, OnOk, OnErr, slice_index_or, vec_len, vec_capacity, IfSome, IfNone, None};
ghost use Rattle.std.specs.List.{HoldsAt};
ghost use Rattle.str_heap.specs.Blocks.{IsSpaced, is_free, within, before, fit_at, AreFree, Adds, Removes};

use fb_base::NoMemory;
use std::alloc::Global;
use std::marker::Model;

/// A run of free blocks: the first one, and how many.
#[derive(Clone, Copy, Debug)]
pub struct Hole {
    pub place: usize,
    pub size: usize,
}

/// The free blocks of an arena: runs in order of place, of which no two touch.
///
/// Contracts see the runs as `spans`, and as `room` how many runs stand without more memory.
#[derive(Debug, Drop)]
pub struct Holes {
    holes: Vec<Hole>,
}

impl Model for Holes {
    ghost use Rattle.std.specs.Prelude.{vec_capacity};
    ghost use Rattle.str_heap.specs.Blocks.{Spans, IsSpaced};

    ghost Value = { Spans };

    ghost view = { λ h. record { spans = h.holes.items; room = vec_capacity h.holes } };

    ghost invariant = { λ h. IsSpaced 0 h.holes.items };
}

impl Holes {
    /// No free block.
    pub fn new(alloc: Global) -> Holes
        ensures { result.spans ≡ [] }
    {
        Holes {
            holes: Vec::new(alloc),
        }
    }

    /// Makes room for so many runs in all. The error is want of memory; the runs are as before in both cases.
    pub fn reserve(&mut self, count: usize) -> Result<(), NoMemory>
        ensures ok { OnOk result (count ≤ self.new.room) }
        ensures room { self.old.room ≤ self.new.room }
        ensures spans { self.new.spans ≡ self.old.spans }
    {
        self.holes.reserve(count.saturating_sub(self.holes.len()))?;
        Ok(())
    }

    /// How many runs there are.
    pub fn len(&self) -> usize
        ensures count { result ≡ length self.now.spans }
        ensures small { result < 2 ^ 62 }
    {
        self.holes.as_slice().len()
    }

    /// Takes n blocks out of the front of the first run that has them. None where no run has them.
    pub fn take(&mut self, n: usize) -> Option<usize>
        requires { 0 < n }
        ensures taken { IfSome result (λ place. Removes n place self.old.spans self.new.spans) }
        ensures first { IfSome result (λ place. (p : ℕ) → AreFree n p self.old.spans → place ≤ p) }
        ensures none { IfNone result (fit_at n self.old.spans ≡ None) }
        ensures full { IfNone result ((p : ℕ) → AreFree n p self.old.spans → ⊥) }
        ensures same { IfNone result (self.new.spans ≡ self.old.spans) }
        ensures room { self.new.room ≡ self.old.room }
    {
        take_first(&mut self.holes, n)
    }

    /// Takes out the last run, if it ends at this place, and gives where it began; else the place itself.
    pub fn take_tail(&mut self, end: usize) -> usize
        requires { end < 2 ^ 63 }
        ensures below { result ≤ end }
        ensures taken { Removes (end - result) result self.old.spans self.new.spans }
        ensures short { (n : ℕ) → 0 < n → fit_at n self.old.spans ≡ None → end - result < n }
        ensures alone { ((b : ℕ) → is_free self.old.spans b ≡ true → b < end) → (b : ℕ) → b + 1 ≡ result → is_free self.old.spans b ≡ false }
        ensures room { self.new.room ≡ self.old.room }
    {
        take_last(&mut self.holes, end)
    }

    /// Frees n blocks from a place on, none of which is free, and joins them to the runs that they touch. There is
    /// room for one more run.
    pub fn put(&mut self, place: usize, n: usize)
        requires some { 0 < n }
        requires small { place + n < 2 ^ 63 }
        requires taken { (b : ℕ) → within place n b ≡ true → is_free self.old.spans b ≡ false }
        requires room { length self.old.spans < self.old.room }
        ensures added { Adds n place self.old.spans self.new.spans }
        ensures room { self.old.room ≤ self.new.room }
    {
        put_back(&mut self.holes, place, n);
    }
}

// The index of the first run with n blocks.
fn fit_at(holes: &[Hole], n: usize) -> Option<usize>
    ensures found { fit_at n holes.now ≡ result }
    ensures fits { IfSome result (λ i. (i < length holes.now) × HoldsAt (λ hole. n ≤ hole.size) holes.now i) }
{
    for (i, hole) in holes.iter().enumerate() {
        if n <= hole.size {
            return Some(i);
        }
    }
    None
}

// How many runs begin before a place.
fn before(holes: &[Hole], place: usize) -> usize
    requires { IsSpaced 0 holes.now }
    ensures { result ≡ before place holes.now }
{
    let mut low = 0;
    let mut high = holes.len();
    while low < high {
        let middle = low + (high - low) / 2;
        if holes[middle].place < place {
            low = middle + 1;
        } else {
            high = middle;
        }
    }
    low
}

// Takes n blocks out of the front of the first run that has them, if there is one.
fn take_first(holes: &mut Vec<Hole>, n: usize) -> Option<usize>
    requires some { 0 < n }
    requires spaced { IsSpaced 0 holes.old.items }
    ensures taken { IfSome result (λ place. Removes n place holes.old.items holes.new.items) }
    ensures first { IfSome result (λ place. (p : ℕ) → AreFree n p holes.old.items → place ≤ p) }
    ensures none { IfNone result (fit_at n holes.old.items ≡ None) }
    ensures full { IfNone result ((p : ℕ) → AreFree n p holes.old.items → ⊥) }
    ensures same { IfNone result (holes.new.items ≡ holes.old.items) }
    ensures room { vec_capacity holes.new ≡ vec_capacity holes.old }
{
    let i = fit_at(holes.as_slice(), n)?;
    let hole = holes[i];
    if hole.size == n {
        holes.remove(i);
    } else {
        holes[i] = Hole {
            place: hole.place + n,
            size: hole.size - n,
        };
    }
    Some(hole.place)
}

// Takes out the last run, if it ends at this place, and gives where it began; else the place itself.
fn take_last(holes: &mut Vec<Hole>, end: usize) -> usize
    requires small { end < 2 ^ 63 }
    requires spaced { IsSpaced 0 holes.old.items }
    ensures below { result ≤ end }
    ensures taken { Removes (end - result) result holes.old.items holes.new.items }
    ensures short { (n : ℕ) → 0 < n → fit_at n holes.old.items ≡ None → end - result < n }
    ensures alone { ((b : ℕ) → is_free holes.old.items b ≡ true → b < end) → (b : ℕ) → b + 1 ≡ result → is_free holes.old.items b ≡ false }
    ensures room { vec_capacity holes.new ≡ vec_capacity holes.old }
{
    let count = holes.len();
    if count == 0 {
        return end;
    }
    let last = holes[count - 1];
    if last.place + last.size != end {
        return end;
    }
    holes.remove(count - 1);
    last.place
}

// Frees n blocks from a place on.
fn put_back(holes: &mut Vec<Hole>, place: usize, n: usize)
    requires some { 0 < n }
    requires small { place + n < 2 ^ 63 }
    requires spaced { IsSpaced 0 holes.old.items }
    requires taken { (b : ℕ) → within place n b ≡ true → is_free holes.old.items b ≡ false }
    requires room { vec_len holes.old < vec_capacity holes.old }
    ensures added { Adds n place holes.old.items holes.new.items }
    ensures room { vec_capacity holes.old ≤ vec_capacity holes.new }
{
    let i = before(holes.as_slice(), place);
    if i > 0 {
        let left = holes[i - 1];
        if left.place + left.size == place {
            widen(holes, i - 1, left, n);
            return;
        }
    }
    if i < holes.len() {
        let right = holes[i];
        if right.place == place + n {
            holes[i] = Hole {
                place,
                size: n + right.size,
            };
            return;
        }
    }
    match holes.insert(i, Hole { place, size: n }) {
        Ok(()) => (),
        Err(_) => unreachable!(),
    }
}

// Frees n blocks behind the run at an index, which is this one, and joins it to the next where they touch then.
fn widen(holes: &mut Vec<Hole>, j: usize, left: Hole, n: usize)
    requires some { 0 < n }
    requires small { left.place + left.size + n < 2 ^ 63 }
    requires spaced { IsSpaced 0 holes.old.items }
    requires here { (j < length holes.old.items) × (left ≡ slice_index_or holes.old.items j left) }
    requires taken { (b : ℕ) → within (left.place + left.size) n b ≡ true → is_free holes.old.items b ≡ false }
    ensures added { Adds n (left.place + left.size) holes.old.items holes.new.items }
    ensures room { vec_capacity holes.old ≤ vec_capacity holes.new }
{
    if j + 1 < holes.len() {
        let right = holes[j + 1];
        if right.place == left.place + left.size + n {
            holes[j] = Hole {
                place: left.place,
                size: left.size + n + right.size,
            };
            holes.remove(j + 1);
            return;
        }
    }
    holes[j] = Hole {
        place: left.place,
        size: left.size + n,
    };
}
