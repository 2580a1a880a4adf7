ghost use Rattle.std.specs.Prelude.{◌≡◌};
ghost use Rattle.case_file.specs.Reading.{Gives, itself, position};
ghost use Rattle.case_file.specs.Sections.{passed_at, values_head_at};
ghost use Rattle.case_file.specs.Values.{ReadsValue};

use crate::cursor::Cursor;
use crate::record::{Record, next_value_record};
use crate::refusal::Refusal;
use numbers::kind::Kind;

/// How many values a case has, and the mark of their kind, with its offset. The mark is a byte, since there may be more kinds: each
/// type that is a `Kind` has its own.
#[derive(Clone, Copy, PartialEq, Eq, Debug)]
pub struct ValuesHead {
    pub count: u16,
    pub mark: u8,
    pub offset: usize,
}

/// Passes over a section of records of so many bytes, and judges nothing but that they are there.
pub fn pass_section(width: usize, from: &mut Cursor) -> Result<u16, Refusal>
    ensures { Gives itself result (position from.new) (passed_at width (position from.old)) }
{
    let count = from.count()?;
    next_value_record((count as usize).saturating_mul(width), from)?;
    Ok(count)
}

/// Reads the head of the values.
pub fn read_values_head(from: &mut Cursor) -> Result<ValuesHead, Refusal>
    ensures { Gives itself result (position from.new) (values_head_at (position from.old)) }
{
    let count = from.count()?;
    let offset = from.offset();
    let mark = from.mark()?;
    Ok(ValuesHead {
        count,
        mark,
        offset,
    })
}

/// Reads the value with this index.
pub fn read_value<K: Kind>(index: usize, from: &mut Cursor) -> Result<K, Refusal>
    ensures { ReadsValue K.numbers K.layout index (position from.old) (position from.new) result }
{
    // A rule of the project: one type serves all records. This reader gives no other case, which the check proves.
    let Record::Value { bytes, .. } = next_value_record(K::WIDTH, from)? else {
        unreachable!()
    };
    K::read(bytes).ok_or(Refusal::NotNumber { index })
}
