ghost use Rattle.std.specs.Prelude.{IfOk, string_bytes};
ghost use Rattle.walk_trace.specs.Traces.{SaysSurfaceRefused};

use crate::stop::Stop;
use crate::text::Trace;
use crate::values::{find_values, read_rows};
use case_file::cursor::Cursor;
use case_file::refusal::Refusal;
use case_file::surface_section::{CaseSurface, read_surface};
use case_file::values_section::ValuesHead;
use kinds::fraction::Fraction;
use kinds::weight::Weight;
use numbers::kind::Kind;
use numbers::read::is_marked;
use std::alloc::{AllocError, Global};
use trace_text::lines::{RefusalLine, SurfaceName};

/// Lists what each step of a case's first walk does to the triangles of its surface, and to its values where it has some, up
/// to the first refusal.
pub fn trace(heap: Global, file: &[u8]) -> Result<String, AllocError>
    ensures { IfOk result (λ s. SaysSurfaceRefused file.now (string_bytes s)) }
{
    let mut from = Cursor::new(file);
    // two ends, each with something else to do
    match read_surface(&mut from) {
        Ok(surface) => trace_on(heap, surface, from),
        Err(refusal) => RefusalLine(refusal).to_string(heap),
    }
}

fn trace_on(heap: Global, surface: CaseSurface, walk: Cursor) -> Result<String, AllocError> {
    let mut trace = Trace::new(heap, &surface, walk);
    // three ends, each with something else to do
    match trace.push_case(heap, surface) {
        Ok(()) => {}
        Err(Stop::Memory) => return Err(AllocError),
        Err(Stop::Refused(refusal)) => write!(trace.text, "{}", RefusalLine(refusal))?,
    }
    Ok(trace.text)
}

impl Trace<'_> {
    fn push_case(&mut self, heap: Global, surface: CaseSurface) -> Result<(), Stop> {
        let edges = self.board.edges();
        writeln!(self.text, "{}, E = {edges}", SurfaceName::from(surface))?;
        self.push_triangles("start\n")?;
        let mut ahead = self.walk;
        // Values of a kind, a mark that no kind has, or no values.
        match find_values(&mut ahead)? {
            Some(head) if is_marked::<Weight>(head.mark) => {
                self.push_valued::<Weight>(heap, "weights\n", head, &mut ahead)
            }
            Some(head) if is_marked::<Fraction>(head.mark) => {
                self.push_valued::<Fraction>(heap, "fractions\n", head, &mut ahead)
            }
            Some(ValuesHead { offset, .. }) => Err(Stop::Refused(Refusal::UnknownMark { offset })),
            None => self.push_walk::<Weight>("", Vec::new(heap)),
        }
    }

    // Reads the values, which `values` has next, and lists the walk.
    fn push_valued<K: Kind>(
        &mut self,
        heap: Global,
        title: &str,
        head: ValuesHead,
        values: &mut Cursor,
    ) -> Result<(), Stop> {
        let rows = read_rows::<K>(heap, head, self.board.edges(), values)?;
        self.push_walk(title, rows)
    }

    fn push_walk<K: Kind>(&mut self, title: &str, mut rows: Vec<K>) -> Result<(), Stop> {
        self.push_values(title, &rows)?;
        self.push_steps(&mut rows)?;
        self.push_triangles("end\n")?;
        Ok(self.push_values(title, &rows)?)
    }
}
