/// Why a walk is not edited; it then stays as it was.
#[derive(Clone, Copy, PartialEq, Eq, Debug)]
pub enum EditFault {
    /// There are not so many steps from the place on.
    NoSteps,
    /// More than 256 steps would result.
    NoRoom,
}
