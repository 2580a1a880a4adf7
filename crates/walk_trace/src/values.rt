use crate::stop::Stop;
use case_file::cursor::Cursor;
use case_file::refusal::Refusal;
use case_file::values_section::{ValuesHead, pass_section, read_value, read_values_head};
use numbers::kind::Kind;
use std::alloc::Global;

/// Looks past the walk, the second walk and the rewritings for the values. There are none where the file ends with the walk or
/// in it: a walk that is cut short is refused when it is done.
pub(crate) fn find_values(ahead: &mut Cursor) -> Result<Option<ValuesHead>, Refusal> {
    if pass_section(3, ahead).is_err() || ahead.is_at_end() {
        return Ok(None);
    }
    pass_section(3, ahead)?;
    pass_section(7, ahead)?;
    read_values_head(ahead).map(Some)
}

/// Reads the values whose head was read: none, or one for each edge.
pub(crate) fn read_rows<K: Kind>(
    heap: Global,
    head: ValuesHead,
    edges: u8,
    from: &mut Cursor,
) -> Result<Vec<K>, Stop> {
    if head.count != 0 && head.count != edges as u16 {
        return Err(Stop::Refused(Refusal::ValueCount {
            count: head.count as usize,
        }));
    }
    let mut rows = Vec::new(heap);
    // Each turn reads on in the file and may refuse, by its index.
    for index in 0..head.count as usize {
        rows.push(read_value(index, from)?)?;
    }
    Ok(rows)
}
