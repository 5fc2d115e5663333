//! Tests of word64: values at the edges of words and types.

use word64::{
    Kind, add, div_s, div_u, less_s, less_u, mul, narrow, rem_s, rem_u, shl, shr_s, shr_u, sub,
};

const LEAST: u64 = 0x8000_0000_0000_0000;

#[test]
fn sums_products_and_quotients(rt: HostRuntime) {
    let minus_seven = sub(0, 7);
    assert_eq!(rt; add(u64::MAX, 3), 2);
    assert_eq!(rt; minus_seven, 0xffff_ffff_ffff_fff9);
    assert_eq!(rt; mul(minus_seven, 6), sub(0, 42));
    assert_eq!(rt; div_s(minus_seven, 2), sub(0, 3));
    assert_eq!(rt; rem_s(minus_seven, 2), u64::MAX);
    assert_eq!(rt; div_s(LEAST, u64::MAX), LEAST);
    assert_eq!(rt; rem_s(LEAST, u64::MAX), 0);
    assert_eq!(rt; div_u(LEAST, 10), 922_337_203_685_477_580);
    assert_eq!(rt; rem_u(LEAST, 10), 8);
}

#[test]
fn shifts_and_comparisons(rt: HostRuntime) {
    assert_eq!(rt; shl(3, 63), LEAST);
    assert_eq!(rt; shl(5, 65), 10);
    assert_eq!(rt; shr_s(LEAST, 63), u64::MAX);
    assert_eq!(rt; shr_u(LEAST, 127), 1);
    assert!(rt; less_s(LEAST, 1));
    assert!(rt; !less_u(LEAST, 1));
}

#[test]
fn narrow_values(rt: HostRuntime) {
    let value = 0x1234_8765_9876_89ab;
    let rows = [
        (Kind::Byte, 0xffff_ffff_ffff_ffab),
        (Kind::UByte, 0xab),
        (Kind::Short, 0xffff_ffff_ffff_89ab),
        (Kind::UShort, 0x89ab),
        (Kind::Long, 0xffff_ffff_9876_89ab),
        (Kind::ULong, 0x9876_89ab),
        (Kind::Integer, value),
        (Kind::UInteger, value),
        (Kind::LongInt, value),
        (Kind::ULongInt, value),
        (Kind::Boolean, u64::MAX),
    ];
    for (kind, wanted) in rows {
        assert_eq!(rt; narrow(value, kind), wanted);
    }
    assert_eq!(rt; narrow(0, Kind::Boolean), 0);
}
