//! Each call on the strings of a run, and the place that first fit gives.
use fb_base::Desc;
use std::test::Fail;
use str_heap::Heap;

fn desc(place: u64, length: u64, size: u64) -> Desc {
    Desc {
        place,
        length,
        size,
    }
}

#[test]
fn strings_are_stored_at_the_first_place(rt: HostRuntime) -> Result<(), Fail> {
    let mut heap = Heap::new(rt.alloc());
    let one = heap.store(b"seventeen bytes..")?;
    let two = heap.store(b"kept")?;
    assert_eq!(rt; (one, two), (desc(0, 17, 2), desc(2, 4, 1)));
    assert_eq!(rt; heap.store(b"")?, desc(0, 0, 0));
    heap.release(one);
    assert_eq!(rt; heap.bytes(two), b"kept".as_slice());
    let long = heap.store(b"more than thirty-two bytes, so behind")?;
    assert_eq!(rt; long, desc(3, 37, 3));
    assert_eq!(rt; heap.store(b"first")?, desc(0, 5, 1));
    assert_eq!(rt; heap.store(b"second")?, desc(1, 6, 1));
    assert_eq!(rt; heap.store(b"third")?, desc(6, 5, 1));
    Ok(())
}

#[test]
fn a_string_takes_the_place_of_another(rt: HostRuntime) -> Result<(), Fail> {
    let mut heap = Heap::new(rt.alloc());
    let one = heap.store(b"one")?;
    assert!(rt; 1 < one.length);
    heap.set_byte(one, 1, b'N');
    assert_eq!(rt; heap.bytes(one), b"oNe".as_slice());
    let none = heap.assign(one, b"")?;
    assert_eq!(rt; none, desc(0, 0, 0));
    let two = heap.assign(none, &[7; 32])?;
    assert_eq!(rt; two, desc(0, 32, 2));
    heap.strings_are_apart();
    let mut other = Heap::new(heap.allocator());
    assert_eq!(rt; other.store(b"two")?, desc(0, 3, 1));
    Ok(())
}

#[test]
fn neighbours_are_joined(rt: HostRuntime) -> Result<(), Fail> {
    let mut heap = Heap::new(rt.alloc());
    let one = heap.store(b"1")?;
    let two = heap.store(b"2")?;
    let three = heap.store(b"3")?;
    let four = heap.store(b"4")?;
    heap.release(one);
    heap.release(three);
    heap.release(two);
    assert_eq!(rt; heap.store(&[b'x'; 48])?, desc(0, 48, 3));
    assert_eq!(rt; heap.bytes(four), b"4".as_slice());
    Ok(())
}
