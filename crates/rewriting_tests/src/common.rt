use rewriting_records::record::Record;
use std::process::Abort;
use std::test::Fail;
use triangulations::step::Step;
use walks::walk::Walk;

/// The walk whose steps have these records.
pub(crate) fn walk_of(rt: &impl Abort, records: &[[u8; 3]]) -> Result<Walk, Fail> {
    let mut walk = Walk::new();
    for record in records {
        let step = Step::read(*record, 64)?;
        assert!(rt; walk.push(step).is_ok());
    }
    Ok(walk)
}

/// The steps of the walk have just these records.
pub(crate) fn holds(rt: &impl Abort, walk: &Walk, records: &[[u8; 3]]) {
    let written = walk.steps().iter().map(|step| step.write());
    assert!(rt; written.eq(records.iter().copied()));
}

/// A record as its seven bytes stand in a file.
pub(crate) fn record_of(bytes: [u8; 7]) -> Record {
    let [rule, way, high, low, code, e, f] = bytes;
    Record {
        rule,
        way,
        place: u16::from_be_bytes([high, low]),
        code,
        e,
        f,
    }
}
