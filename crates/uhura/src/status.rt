//! How a run ended.

/// How a run ended, which is also the exit status of the program.
#[derive(Clone, Copy, Debug, PartialEq, Eq)]
pub enum Status {
    /// All lines were answered, and none was refused.
    Done = 0,
    /// All lines were answered, and some were refused.
    Refused = 1,
    /// The words on the command line are none of those listed.
    Usage = 2,
    /// The script has more than 67,108,864 bytes.
    TooLong = 3,
    /// The script could not be read.
    ReadFault = 4,
    /// An answer could not be written.
    WriteFault = 5,
    /// There was no memory.
    NoMemory = 6,
}
