//! Numbers read from bytes, for every kind.
ghost use Rattle.std.specs.Prelude.{◌≡◌, Decides};
ghost use Rattle.numbers.specs.Reading.{ReadsFront, ReadsRun, ReadsMarked, read_fault_number, marked_fault_number};
ghost use Rattle.numbers.specs.declared.read.MarkedFault.TheVariants.{Run};

use crate::kind::Kind;

/// Why bytes are no number: they are too few, or the row that they stand for is no stored number.
#[derive(Clone, Copy, PartialEq, Eq, Debug)]
pub enum ReadFault {
    Short,
    NotStored,
}

impl ReadFault {
    /// The number by which the refusal is told, which is what is printed; the enum says which it is.
    pub fn number(self) -> u8
        ensures { result ≡ read_fault_number self }
    {
        match self {
            ReadFault::Short => 1,
            ReadFault::NotStored => 17,
        }
    }
}

/// The first number of a run that is none.
#[derive(Clone, Copy, PartialEq, Eq, Debug)]
pub struct RunFault {
    pub index: usize,
    pub fault: ReadFault,
}

/// Why a mark and a run of numbers are refused: there is no mark, or that of another kind, or a number is none.
#[derive(Clone, Copy, PartialEq, Eq, Debug)]
pub enum MarkedFault {
    NoMark,
    OtherMark,
    Run(RunFault),
}

impl MarkedFault {
    /// The number by which the refusal is told, which is what is printed; the enum says which it is.
    pub fn number(self) -> u8
        ensures { result ≡ marked_fault_number self }
    {
        match self {
            MarkedFault::NoMark => 1,
            MarkedFault::OtherMark => 3,
            MarkedFault::Run(run) => run.fault.number(),
        }
    }
}

// By hand: a clause says which fault a `?` makes, and a derive has none.
impl From<RunFault> for MarkedFault {
    ghost from_gives = { λ f r. r ≡ Run f };

    fn from(fault: RunFault) -> MarkedFault {
        MarkedFault::Run(fault)
    }
}

/// Whether a mark is that of the kind. The mark is a byte, since kinds are open: each has its own.
pub fn is_marked<K: Kind>(mark: u8) -> bool
    ensures { Decides result (mark ≡ K.layout.mark) }
{
    mark == K::MARK
}

/// The number at the front of the bytes.
pub fn read_number<K: Kind>(bytes: &[u8]) -> Result<K, ReadFault>
    ensures { ReadsFront K.numbers K.layout bytes.now result }
{
    if bytes.len() < K::WIDTH {
        return Err(ReadFault::Short);
    }
    K::read(&bytes[..K::WIDTH]).ok_or(ReadFault::NotStored)
}

/// Reads a number into each row, one after the other. The rows from the first that is refused on stay as they were.
pub fn read_run<K: Kind>(bytes: &[u8], rows: &mut [K]) -> Result<(), RunFault>
    ensures { ReadsRun K.numbers K.layout bytes.now rows.old rows.new result }
{
    let mut rest = bytes;
    for (index, row) in rows.iter_mut().enumerate() {
        *row = read_number(rest).map_err(|fault| RunFault { index, fault })?;
        rest = &rest[K::WIDTH..];
    }
    Ok(())
}

/// Reads the kind's mark, and then a number into each row.
pub fn read_marked<K: Kind>(bytes: &[u8], rows: &mut [K]) -> Result<(), MarkedFault>
    ensures { ReadsMarked K.numbers K.layout bytes.now rows.old rows.new result }
{
    let (mark, run) = bytes.split_first().ok_or(MarkedFault::NoMark)?;
    if !is_marked::<K>(*mark) {
        return Err(MarkedFault::OtherMark);
    }
    Ok(read_run(run, rows)?)
}
