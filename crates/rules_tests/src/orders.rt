// Called scopes come before their callers.
use crate::images::image;
use image::open::open;
use image_records::record::Record;
use image_records::record::Record::{Call, Scope};
use rules::order::call_order;
use std::test::Fail;

// The first four scopes of the order.
fn order(rt: &HostRuntime, scopes: usize, calls: &[Record]) -> Result<Option<[u8; 4]>, Fail> {
    let bytes = image(rt, &[(scopes, &[Scope(1, 1)]), (1, calls)])?;
    let graph = open(bytes.as_slice())?;
    Ok(call_order(&graph).map(|o| [o[0], o[1], o[2], o[3]]))
}

#[test]
fn orders(rt: HostRuntime) -> Result<(), Fail> {
    let cases: [(usize, &[Record], Option<[u8; 4]>); 7] = [
        (4, &[], Some([0, 1, 2, 3])),
        (4, &[Call(0, 1), Call(1, 2), Call(2, 3)], Some([3, 2, 1, 0])),
        (4, &[Call(0, 3), Call(3, 1)], Some([1, 2, 3, 0])),
        (4, &[Call(2, 3), Call(2, 3), Call(1, 2)], Some([0, 3, 2, 1])),
        // a ring, and more than 16 scopes
        (4, &[Call(2, 3), Call(3, 1), Call(1, 2)], None),
        (17, &[Call(0, 1)], None),
        // a missing scope stands in no one's way
        (4, &[Call(0, 9)], Some([0, 1, 2, 3])),
    ];
    for (scopes, calls, expected) in cases {
        assert_eq!(rt; order(&rt, scopes, calls)?, expected);
    }
    Ok(())
}
