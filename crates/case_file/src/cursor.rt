ghost use Rattle.std.specs.Prelude.{◌≡◌, length, ◌==◌};
ghost use Rattle.case_file.specs.Reading.{Gives, itself, position, offset, count_at, mark_at};

use crate::refusal::Refusal;

/// What is left of a case file.
#[derive(Clone, Copy)]
pub struct Cursor<'a> {
    pub(crate) size: usize,
    pub(crate) rest: &'a [u8],
}

impl<'a> Cursor<'a> {
    /// At the start of a file.
    pub fn new(file: &'a [u8]) -> Cursor<'a>
        ensures size { (position result).size ≡ length file.now }
        ensures rest { (position result).rest ≡ file.now }
    {
        Cursor {
            size: file.len(),
            rest: file,
        }
    }

    /// How many bytes lie before what is left.
    pub fn offset(&self) -> usize
        ensures { result ≡ offset (position self.now) }
    {
        self.size.saturating_sub(self.rest.len())
    }

    /// Whether nothing is left.
    pub fn is_at_end(&self) -> bool
        ensures { result ≡ (length (position self.now).rest == 0) }
    {
        self.rest.is_empty()
    }

    /// Reads the count that opens a section.
    pub fn count(&mut self) -> Result<u16, Refusal>
        ensures { Gives itself result (position self.new) (count_at (position self.old)) }
    {
        // The rule for all sections: a count is taken by this pattern.
        let [hi, lo, rest @ ..] = self.rest else {
            return Err(Refusal::EndsEarly { length: self.size });
        };
        self.rest = rest;
        Ok(u16::from_be_bytes([*hi, *lo]))
    }

    /// Reads a mark.
    pub fn mark(&mut self) -> Result<u8, Refusal>
        ensures { Gives itself result (position self.new) (mark_at (position self.old)) }
    {
        let (mark, rest) = self
            .rest
            .split_first()
            .ok_or(Refusal::EndsEarly { length: self.size })?;
        self.rest = rest;
        Ok(*mark)
    }
}
