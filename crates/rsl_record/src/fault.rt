use std::io;

/// A writer failed: a write gave an error, or took none of the octets.
#[derive(Clone, Copy, Debug, PartialEq, Eq)]
pub struct WriteFault;

impl From<io::Error> for WriteFault {
    fn from(_failed: io::Error) -> WriteFault {
        WriteFault
    }
}
