// The analysis of graphs in images.
use crate::images::image;
use analysis::analyze::analyze;
use image::open::open;
use image_records::record::Record::{Bar, Block, Call, Edge, Scope};
use image_records::record::{AGAIN, LEAVE, Record};
use measures::cycles::Cycles;
use model::trail::Line;
use std::test::Fail;

// The bound in cycles, or the number of the refusal.
fn answer(
    rt: &HostRuntime,
    work: &mut [Cycles],
    records: &[Record],
) -> Result<Result<u64, u8>, Fail> {
    let bytes = image(rt, &[(1, records)])?;
    let graph = open(bytes.as_slice())?;
    let mut trail = [Line {
        kind: 9,
        a: 9,
        b: 9,
    }; 1324];
    Ok(
        analyze(&graph, work, &mut trail)
            .map(|bound| bound.count)
            .map_err(|refusal| refusal.number()),
    )
}

// Four scopes of 65,535 passes, nested around a block of this time.
fn nested(rt: &HostRuntime, time: u32) -> Result<Result<u64, u8>, Fail> {
    let deep = Scope(65535, 65535);
    let mut work = [Cycles { count: 0 }; 128];
    let records = [
        deep,
        deep,
        deep,
        deep,
        Call(0, 1),
        Call(1, 2),
        Call(2, 3),
        Block(3, time, 0),
        Edge(0, 0, AGAIN, 0),
        Edge(0, 0, LEAVE, 0),
        Edge(1, 0, AGAIN, 0),
        Edge(1, 0, LEAVE, 0),
        Edge(2, 0, AGAIN, 0),
        Edge(2, 0, LEAVE, 0),
        Edge(3, 0, AGAIN, 0),
        Edge(3, 0, LEAVE, 0),
    ];
    answer(rt, &mut work, &records)
}

#[test]
fn deep_loops(rt: HostRuntime) -> Result<(), Fail> {
    assert_eq!(rt; nested(&rt, 1)?, Ok(18445618199572250625));
    assert_eq!(rt; nested(&rt, 2)?, Ok(18446744073709551615));
    Ok(())
}

#[test]
fn tables(rt: HostRuntime) -> Result<(), Fail> {
    let records = [Scope(1, 1), Block(0, 7, 0), Edge(0, 0, LEAVE, -2)];
    assert_eq!(rt;
        answer(&rt, &mut [Cycles { count: 0 }; 127], &records)?,
        Err(41)
    );
    assert_eq!(rt;
        answer(&rt, &mut [Cycles { count: 0 }; 128], &records)?,
        Ok(5)
    );
    Ok(())
}

#[test]
fn no_run(rt: HostRuntime) -> Result<(), Fail> {
    let records = [
        Scope(1, 1),
        Block(0, 7, 0),
        Edge(0, 0, LEAVE, 0),
        Bar(0, 0, 1, 1),
    ];
    assert_eq!(rt;
        answer(&rt, &mut [Cycles { count: 0 }; 128], &records)?,
        Err(43)
    );
    Ok(())
}
