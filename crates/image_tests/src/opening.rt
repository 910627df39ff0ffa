// Each refusal of opening at its edge.
use image::open::open;
use std::test::Fail;

// The number that opening refuses the bytes with.
fn number(bytes: &[u8]) -> Option<u8> {
    open(bytes).err().map(|refusal| refusal.number())
}

// What opening says of an image of this length: a scope, some blocks, and then calls to the end.
fn long(rt: &HostRuntime, stated: u32, len: usize, blocks: usize) -> Result<Option<u8>, Fail> {
    let mut bytes = Vec::new(rt.alloc());
    bytes.push(1)?;
    bytes.extend_from_slice(&stated.to_be_bytes())?;
    bytes.extend_from_slice(&[6, 1, 0, 1, 0, 1])?;
    for _ in 0..blocks {
        bytes.extend_from_slice(&[9, 2, 0, 0, 0, 0, 0, 0, 0])?;
    }
    for _ in 0..len.saturating_sub(bytes.len()) / 4 {
        bytes.extend_from_slice(&[4, 3, 0, 0])?;
    }
    if bytes.len() != len {
        return Err(Fail::new("another length"));
    }
    Ok(number(bytes.as_slice()))
}

#[test]
fn refusals(rt: HostRuntime) {
    let cases: [(&[u8], Option<u8>); 24] = [
        (&[], Some(11)),
        (&[1, 0, 0, 0], Some(11)),
        (&[2, 0, 0, 0], Some(11)),
        // an empty image opens
        (&[1, 0, 0, 0, 5], None),
        (&[0, 0, 0, 0, 5], Some(12)),
        (&[2, 0, 0, 0, 9], Some(12)),
        (&[1, 0, 0, 0, 4], Some(13)),
        (&[1, 0, 0, 0, 6], Some(13)),
        (&[1, 5, 0, 0, 0], Some(13)),
        // one byte is left
        (&[1, 0, 0, 0, 6, 6], Some(14)),
        // kinds 0 and 8
        (&[1, 0, 0, 0, 7, 2, 0], Some(15)),
        (&[1, 0, 0, 0, 7, 2, 8], Some(15)),
        // past the end, too short, too long
        (&[1, 0, 0, 0, 10, 6, 1, 0, 1, 0], Some(14)),
        (&[1, 0, 0, 0, 11, 5, 1, 0, 1, 0, 1], Some(14)),
        (&[1, 0, 0, 0, 11, 7, 1, 0, 1, 0, 1], Some(14)),
        (&[1, 0, 0, 0, 11, 6, 1, 0, 1, 0, 1], None),
        // the kind is checked before the length, the length before the scope
        (&[1, 0, 0, 0, 7, 9, 9], Some(15)),
        (&[1, 0, 0, 0, 9, 5, 3, 9, 0], Some(14)),
        // a scope field equal to the number of earlier scope records
        (&[1, 0, 0, 0, 9, 4, 3, 0, 0], Some(16)),
        (&[1, 0, 0, 0, 15, 6, 1, 0, 1, 0, 1, 4, 3, 1, 0], Some(16)),
        (&[1, 0, 0, 0, 15, 6, 1, 0, 1, 0, 1, 4, 3, 0, 9], None),
        // the record before its scope, and the first of two faults
        (&[1, 0, 0, 0, 15, 4, 3, 0, 0, 6, 1, 0, 1, 0, 1], Some(16)),
        (&[1, 0, 0, 0, 13, 4, 3, 0, 0, 2, 8, 0, 0], Some(16)),
        (&[1, 0, 0, 0, 13, 2, 8, 0, 0, 4, 3, 0, 0], Some(15)),
    ];
    for (bytes, expected) in cases {
        assert_eq!(rt; number(bytes), expected);
    }
}

#[test]
fn lengths(rt: HostRuntime) -> Result<(), Fail> {
    assert_eq!(rt; long(&rt, 19109, 19109, 2)?, None);
    assert_eq!(rt; long(&rt, 19110, 19110, 3)?, Some(13));
    assert_eq!(rt; long(&rt, 19108, 19109, 2)?, Some(13));
    assert_eq!(rt; long(&rt, 19110, 19109, 2)?, Some(13));
    Ok(())
}
