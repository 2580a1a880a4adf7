use case_file::cursor::Cursor;
use numbers::kind::Kind;
use std::alloc::{AllocError, Global};
use std::fmt;
use surfaces::loading::load;
use surfaces::surface_trait::Surface;
use trace_text::triangles::Triangle;
use triangulations::board::Board;

/// A trace under way: the walk as far as it is still to be read, the board that the steps so far reach, and what there is to say
/// of them.
#[derive(Drop)]
pub(crate) struct Trace<'a> {
    pub walk: Cursor<'a>,
    pub board: Board,
    pub text: String,
}

impl<'a> Trace<'a> {
    /// A trace with no text, at the start of a walk on the surface.
    pub(crate) fn new<S: Surface>(heap: Global, surface: &S, walk: Cursor<'a>) -> Trace<'a> {
        let mut board = Board::new();
        load(surface, &mut board);
        Trace {
            walk,
            board,
            text: String::new(heap),
        }
    }

    /// Every triangle, a line each, by the smallest dart.
    pub(crate) fn push_triangles(&mut self, title: &str) -> Result<(), AllocError> {
        self.text.push_str(title)?;
        let listed = |dart| Triangle::of(&self.board, dart).filter(|found| found.first == dart);
        for triangle in (0..2 * self.board.edges()).filter_map(listed) {
            writeln!(self.text, "  {triangle}")?;
        }
        Ok(())
    }

    /// Every value, a line each, by its edge; nothing where there are none.
    pub(crate) fn push_values<K: Kind>(
        &mut self,
        title: &str,
        rows: &[K],
    ) -> Result<(), AllocError> {
        if rows.is_empty() {
            return Ok(());
        }
        self.text.push_str(title)?;
        for (edge, row) in rows.iter().enumerate() {
            writeln!(self.text, "  {edge} {}", NumberText(*row))?;
        }
        Ok(())
    }
}

/// Prints a number, whose text has at most 32 bytes.
#[derive(Clone, Copy)]
pub(crate) struct NumberText<K>(pub K);

impl<K: Kind> fmt::Display for NumberText<K> {
    fn fmt<W: fmt::Write>(&self, f: &mut fmt::Formatter<W>) -> fmt::Result {
        let mut bytes = [0u8; 32];
        // No more is asked of a stored number, and none is printed that is not stored.
        let length = self.0.text(&mut bytes).unwrap_or(0);
        for byte in &bytes[..length] {
            f.write_char(char::from(*byte))?;
        }
        Ok(())
    }
}
