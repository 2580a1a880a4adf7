ghost use Rattle.std.specs.Prelude.{◌≡◌};
ghost use Rattle.case_file.specs.Refusals.{refusal_number, refusal_layer, refusal_place};
ghost use Rattle.carrying.specs.Refusals as carried;

use crate::stop::Stop;
use crate::text::{NumberText, Trace};
use carrying::carry::carry_step;
use carrying::refusal::CarryRefusal;
use case_file::refusal::Refusal;
use case_file::walk_section::{read_step, read_walk_count};
use numbers::kind::Kind;
use std::alloc::AllocError;
use trace_text::lines::{Exchange, Made, StepName};
use trace_text::triangles::triangles_at;
use triangulations::darts::Edge;
use triangulations::step::Step;

impl Trace<'_> {
    /// Reads and does one step of the walk after the other, and lists what each did.
    pub(crate) fn push_steps<K: Kind>(&mut self, rows: &mut [K]) -> Result<(), Stop> {
        let count = read_walk_count(&mut self.walk)?;
        writeln!(self.text, "steps: {count}")?;
        // Each turn reads on in the file and may refuse, by its index.
        for index in 0..count as usize {
            let step = read_step(self.board.edges(), index, &mut self.walk)?;
            self.do_step(index, step, rows)?;
            self.push_step(index, step, rows)?;
        }
        Ok(())
    }

    // Does a step on the board, and on the values where there are some.
    fn do_step<K: Kind>(
        &mut self,
        index: usize,
        step: Step,
        rows: &mut [K],
    ) -> Result<(), Refusal> {
        if rows.is_empty() {
            self.board
                .step(step)
                .map_err(|_| Refusal::NotFlippable { index })
        } else {
            carry_step(index, step, rows, &mut self.board).map_err(refusal_of)
        }
    }

    fn push_step<K: Kind>(
        &mut self,
        index: usize,
        step: Step,
        rows: &[K],
    ) -> Result<(), AllocError> {
        write!(self.text, "  {index}: {}", StepName(step))?;
        match step {
            Step::Flip(flip) => self.push_flip(flip.edge, rows)?,
            Step::Label(label) => write!(self.text, "{}", Exchange(label))?,
        }
        writeln!(self.text)
    }

    // The two triangles at an edge that was flipped, and its value where there are some.
    fn push_flip<K: Kind>(&mut self, edge: Edge, rows: &[K]) -> Result<(), AllocError> {
        if let Some((low, high)) = triangles_at(&self.board, edge) {
            write!(self.text, "{}", Made { low, high })?;
        }
        if let Some(value) = rows.get(edge as usize) {
            write!(self.text, ", value {}", NumberText(*value))?;
        }
        Ok(())
    }
}

// What a refused carry says of the case: number, layer and place stay. No `From`: both types are of other crates.
fn refusal_of(refusal: CarryRefusal) -> Refusal
    ensures number { refusal_number result ≡ carried.refusal_number refusal }
    ensures layer { refusal_layer result ≡ carried.refusal_layer refusal }
    ensures place { refusal_place result ≡ carried.refusal_place refusal }
{
    match refusal {
        CarryRefusal::RowCount { count } => Refusal::ValueCount { count },
        CarryRefusal::NotStored(unstored) => Refusal::NotNumber {
            index: unstored.index,
        },
        CarryRefusal::NoStoredResult(fault) => Refusal::NoStoredResult { fault },
        CarryRefusal::NotLegal { step } => Refusal::NotFlippable { index: step },
    }
}
