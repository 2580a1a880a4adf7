ghost use Rattle.std.specs.Prelude.{◌≡◌};
ghost use Rattle.case_file.specs.Reading.{Gives, itself, position};
ghost use Rattle.case_file.specs.Records.{step_at};
ghost use Rattle.case_file.specs.Sections.{walk_count_at};

use crate::cursor::Cursor;
use crate::record::{Record, next_step_record};
use crate::refusal::Refusal;
use triangulations::step::{MOST_STEPS, Step};

/// Reads the count that opens a walk.
pub fn read_walk_count(from: &mut Cursor) -> Result<u16, Refusal>
    ensures { Gives itself result (position from.new) (walk_count_at (position from.old)) }
{
    let offset = from.offset();
    let count = from.count()?;
    if count as usize > MOST_STEPS {
        return Err(Refusal::CountOutside { offset });
    }
    Ok(count)
}

/// Reads the step with this index of a walk on so many edges.
pub fn read_step(edges: u8, index: usize, from: &mut Cursor) -> Result<Step, Refusal>
    ensures { Gives itself result (position from.new) (step_at edges index (position from.old)) }
{
    // A rule of the project: one type serves all records. This reader gives no other case, which the check proves.
    let Record::Step { code, e, f, .. } = next_step_record(from)? else {
        unreachable!()
    };
    Step::read([*code, *e, *f], edges).map_err(|fault| Refusal::StepRecord { index, fault })
}
