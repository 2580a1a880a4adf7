ghost use Rattle.std.specs.Prelude.{◌≡◌};
ghost use Rattle.case_file.specs.Reading.{Gives, position};
ghost use Rattle.case_file.specs.Records.{seen, step_record_at, value_record_at};

use crate::cursor::Cursor;
use crate::refusal::Refusal;

/// A record as it lies in the file: its offset, and its bytes, which are those of the file. One type serves the records of all
/// sections.
#[derive(Clone, Copy, PartialEq, Eq, Debug)]
pub enum Record<'a> {
    Step {
        offset: usize,
        code: &'a u8,
        e: &'a u8,
        f: &'a u8,
    },
    Value {
        offset: usize,
        bytes: &'a [u8],
    },
}

/// Reads the next step record, whole.
pub fn next_step_record<'a>(from: &mut Cursor<'a>) -> Result<Record<'a>, Refusal>
    ensures { Gives seen result (position from.new) (step_record_at (position from.old)) }
{
    let offset = from.offset();
    // The rule for all records: their first bytes have names.
    let [code, e, f, rest @ ..] = from.rest else {
        return Err(Refusal::EndsEarly { length: from.size });
    };
    from.rest = rest;
    Ok(Record::Step { offset, code, e, f })
}

/// Reads the next value record, so many bytes, whole.
pub fn next_value_record<'a>(width: usize, from: &mut Cursor<'a>) -> Result<Record<'a>, Refusal>
    ensures { Gives seen result (position from.new) (value_record_at width (position from.old)) }
{
    let offset = from.offset();
    let (bytes, rest) = from
        .rest
        .split_at_checked(width)
        .ok_or(Refusal::EndsEarly { length: from.size })?;
    from.rest = rest;
    Ok(Record::Value { offset, bytes })
}
