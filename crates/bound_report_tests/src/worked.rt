// Worked graphs, and what is said of their images.
use bound_report::text::report_image;
use image_records::build::{add_all, image};
use image_records::record::Record::{Bar, Block, Call, Edge, Must, Pair, Scope};
use image_records::record::{AGAIN, LEAVE, Record};
use std::test::Fail;

// The image of these records, one list behind the other, is said to be this.
fn check_said(
    rt: &HostRuntime,
    head: &[Record],
    body: &[Record],
    facts: &[Record],
    expected: &str,
) -> Result<(), Fail> {
    let mut records = Vec::new(rt.alloc());
    add_all(&mut records, head)?;
    add_all(&mut records, body)?;
    add_all(&mut records, facts)?;
    let bytes = image(rt.alloc(), records.as_slice())?;
    let said = report_image(rt.alloc(), bytes.as_slice())?;
    if said.is_err() != expected.starts_with("refused") {
        return Err(Fail::new("another word on the refusal"));
    }
    let text = said.unwrap_or_else(|line| line);
    if text.as_str() != expected {
        return Err(Fail::new(text.as_str()));
    }
    Ok(())
}

// A loop with two ways through it.
fn two_ways(scope: u8) -> [Record; 10] {
    [
        Block(scope, 5, 8),
        Block(scope, 10, 40),
        Block(scope, 3, 16),
        Block(scope, 2, 8),
        Edge(scope, 0, 1, -2),
        Edge(scope, 0, 2, 0),
        Edge(scope, 1, 3, -1),
        Edge(scope, 2, 3, 0),
        Edge(scope, 3, AGAIN, -1),
        Edge(scope, 3, LEAVE, 0),
    ]
}

#[test]
fn loops(rt: HostRuntime) -> Result<(), Fail> {
    let cases: [(u16, u16, &[Record], &str); 7] = [
        (1, 4, &[], "cycles 53\nstack 40\nscope 0 passes 4\n"),
        (1, 1, &[], "cycles 14\nstack 40\nscope 0 passes 1\n"),
        (
            1,
            4,
            &[Bar(0, 1, 1, 2)],
            "cycles 45\nstack 40\nscope 0 passes 4\n",
        ),
        (
            1,
            4,
            &[Must(0, 2, 1, 4)],
            "cycles 37\nstack 16\nscope 0 passes 4\n",
        ),
        (
            1,
            4,
            &[Pair(0, 1, 3, 4, 4)],
            "cycles 49\nstack 40\nscope 0 passes 4\n",
        ),
        (
            1,
            4,
            &[Bar(0, 3, 2, 4)],
            "cycles 14\nstack 40\nscope 0 passes 1\n",
        ),
        (2, 4, &[Bar(0, 3, 2, 4)], "refused 43\n"),
    ];
    let body = two_ways(0);
    for (least, most, facts, expected) in cases {
        check_said(&rt, &[Scope(least, most)], &body, facts, expected)?;
    }
    Ok(())
}

#[test]
fn others(rt: HostRuntime) -> Result<(), Fail> {
    let cases: [(&[Record], &str); 9] = [
        // leaving early is better
        (
            &[
                Scope(1, 3),
                Block(0, 1, 0),
                Block(0, 100, 0),
                Edge(0, 0, AGAIN, 0),
                Edge(0, 0, 1, 0),
                Edge(0, 1, LEAVE, 0),
                Edge(0, 0, LEAVE, 0),
                Bar(0, 1, 3, 3),
            ],
            "cycles 102\nstack 0\nscope 0 passes 2\n",
        ),
        // the longer way costs more
        (
            &[
                Scope(1, 1),
                Block(0, 1, 0),
                Block(0, 10, 0),
                Block(0, 10, 0),
                Block(0, 1, 0),
                Edge(0, 0, 3, 0),
                Edge(0, 0, 1, 0),
                Edge(0, 1, 2, 0),
                Edge(0, 2, 3, 0),
                Edge(0, 3, LEAVE, 0),
            ],
            "cycles 22\nstack 0\nscope 0 passes 1\n",
        ),
        (
            &[Scope(1, 1), Block(0, 0, 0), Edge(0, 0, LEAVE, 0)],
            "cycles 0\nstack 0\nscope 0 passes 1\n",
        ),
        (&[Scope(1, 1)], "refused 43\n"),
        (&[], "refused 21\n"),
        (
            &[
                Scope(1, 1),
                Block(0, 1000000, 0),
                Edge(0, 0, LEAVE, -1000000),
            ],
            "cycles 0\nstack 0\nscope 0 passes 1\n",
        ),
        (
            &[
                Scope(1, 1),
                Block(0, 1000000, 0),
                Edge(0, 0, LEAVE, -1000001),
            ],
            "refused 24\n",
        ),
        (
            &[Scope(1, 1), Block(0, 4, 0), Edge(0, 0, LEAVE, -5)],
            "refused 27\n",
        ),
        (
            &[Scope(1, 1), Scope(1, 1), Call(0, 1), Call(1, 0)],
            "refused 28\n",
        ),
    ];
    for (records, expected) in cases {
        check_said(&rt, records, &[], &[], expected)?;
    }
    Ok(())
}

#[test]
fn called_loop(rt: HostRuntime) -> Result<(), Fail> {
    check_said(
        &rt,
        &[
            Scope(1, 1),
            Scope(1, 4),
            Block(0, 4, 24),
            Call(0, 1),
            Edge(0, 0, 1, -1),
            Edge(0, 1, LEAVE, 2),
        ],
        &two_ways(1),
        &[],
        "cycles 58\nstack 40\nscope 0 passes 1\nscope 1 passes 4\n",
    )
}
