// Images from records, and the first rule that each breaks.
use image::open::open;
use image_records::build;
use image_records::record::Record;
use rules::judge::first_broken;
use std::test::Fail;

// An image of these records, each table as often as it says.
pub(crate) fn image(rt: &HostRuntime, parts: &[(usize, &[Record])]) -> Result<Vec<u8>, Fail> {
    let mut records = Vec::new(rt.alloc());
    for (times, part) in parts {
        for _ in 0..*times {
            build::add_all(&mut records, part)?;
        }
    }
    Ok(build::image(rt.alloc(), records.as_slice())?)
}

// The number of the first broken rule.
pub(crate) fn number(rt: &HostRuntime, parts: &[(usize, &[Record])]) -> Result<Option<u8>, Fail> {
    let bytes = image(rt, parts)?;
    let graph = open(bytes.as_slice())?;
    Ok(first_broken(&graph).map(|refusal| refusal.number()))
}

// Each case: records after those that all begin with, and the number of the first broken rule.
pub(crate) fn check_table(
    rt: &HostRuntime,
    start: &[Record],
    cases: &[(&[Record], Option<u8>)],
) -> Result<(), Fail> {
    for (records, expected) in cases {
        let found = number(rt, &[(1, start), (1, records)])?;
        if found != *expected {
            return Err(Fail::new(format_args!("{found:?}, not {expected:?}")));
        }
    }
    Ok(())
}
