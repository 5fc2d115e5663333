use crate::row::Row;
use fb_ast::Ty;
use fb_base::NoMemory;
use std::alloc::Global;

// The number at a place, and 0 where there is none.
fn at(numbers: &[usize], place: usize) -> usize {
    if place < numbers.len() {
        numbers[place]
    } else {
        0
    }
}

fn set(numbers: &mut Vec<usize>, place: usize, number: usize) {
    if place < numbers.len() {
        numbers[place] = number;
    }
}

fn lower(numbers: &mut Vec<usize>, place: usize, number: usize) {
    if number < at(numbers.as_slice(), place) {
        set(numbers, place, number);
    }
}

fn zeros(alloc: Global, count: usize) -> Result<Vec<usize>, NoMemory> {
    let mut numbers = Vec::new(alloc);
    for _turn in 0..count {
        numbers.push(0)?;
    }
    Ok(numbers)
}

// A search through Types, depth first (R. Tarjan, Depth-First Search and Linear Graph Algorithms, 1972).
#[derive(Drop)]
struct Search {
    // when each Type was found, from 1 on; 0 before
    order: Vec<usize>,
    // the first of those found that each leads back to
    back: Vec<usize>,
    labels: Vec<usize>,
    // the Types that have no label yet
    open: Vec<usize>,
    // the way that was gone, with the next field of each Type on it
    way: Vec<(usize, usize)>,
    found: usize,
    last: usize,
}

fn enter(search: &mut Search, number: usize) -> Result<(), NoMemory> {
    search.found = search.found.saturating_add(1);
    let found = search.found;
    set(&mut search.order, number, found);
    set(&mut search.back, number, found);
    search.open.push(number)?;
    search.way.push((number, 0))?;
    Ok(())
}

// Those that were found since a Type was have its label.
fn leave(search: &mut Search, number: usize) {
    if at(search.back.as_slice(), number) == at(search.order.as_slice(), number) {
        search.last = search.last.saturating_add(1);
        let label = search.last;
        while let Some(one) = search.open.pop() {
            set(&mut search.labels, one, label);
            if one == number {
                break;
            }
        }
    }
    let back = at(search.back.as_slice(), number);
    if let Some((outer, _)) = search.way.last().copied() {
        lower(&mut search.back, outer, back);
    }
}

fn go(search: &mut Search, number: usize, part: usize) -> Result<(), NoMemory> {
    if at(search.order.as_slice(), part) == 0 {
        return enter(search, part);
    }
    if at(search.labels.as_slice(), part) == 0 {
        let back = at(search.order.as_slice(), part);
        lower(&mut search.back, number, back);
    }
    Ok(())
}

// One field further, or a Type back.
fn step(search: &mut Search, rows: &[Row], number: usize, next: usize) -> Result<(), NoMemory> {
    if number >= rows.len() {
        return Ok(());
    }
    let fields = rows[number].fields.as_slice();
    if next >= fields.len() {
        leave(search, number);
        return Ok(());
    }
    search.way.push((number, next.saturating_add(1)))?;
    match &fields[next].ty {
        Ty::Obj(part) => go(search, number, *part as usize),
        Ty::Num(_) | Ty::Str | Ty::Ptr(_) | Ty::AnyPtr => Ok(()),
    }
}

fn walk(search: &mut Search, rows: &[Row], root: usize) -> Result<(), NoMemory> {
    enter(search, root)?;
    for _turn in 0..u64::MAX {
        match search.way.pop() {
            None => return Ok(()),
            Some((number, next)) => step(search, rows, number, next)?,
        }
    }
    Err(NoMemory)
}

/// A label for each Type: those that contain one another have the same, and others a greater one than the Types in them.
/// No clause says so; the labels spare searches where a test of them passes.
pub fn labels(alloc: Global, rows: &[Row]) -> Result<Vec<usize>, NoMemory> {
    let mut search = Search {
        order: zeros(alloc, rows.len())?,
        back: zeros(alloc, rows.len())?,
        labels: zeros(alloc, rows.len())?,
        open: Vec::new(alloc),
        way: Vec::new(alloc),
        found: 0,
        last: 0,
    };
    for root in 0..rows.len() {
        if at(search.order.as_slice(), root) == 0 {
            walk(&mut search, rows, root)?;
        }
    }
    let Search { labels, .. } = search;
    Ok(labels)
}
