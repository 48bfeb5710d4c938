ghost use Rattle.std.specs.Prelude.{◌≡◌};
ghost use Rattle.rld_config.specs.Trust.{exposure_of, others_read, others_write};

/// The mode bit by which everybody can write to a file.
const OTHERS_WRITE: u32 = 0o002;

/// The mode bit by which everybody can read a file.
const OTHERS_READ: u32 = 0o004;

/// What an operator allows others to do.
#[derive(Clone, Copy, Debug)]
pub struct Trust {
    /// Whether everybody may read the account file, with its secrets and passwords.
    pub readable_accounts: bool,
}

/// What everybody can do with an account file, but may not.
#[derive(Clone, Copy, Debug)]
pub enum Exposure {
    /// Write to it.
    Writable,
    /// Read its secrets and passwords.
    Readable,
}

impl Trust {
    /// What is wrong with an account file of this mode: everybody can write to it, or can read it
    /// though the operator does not allow that.
    pub fn exposure(self, mode: u32) -> Option<Exposure>
        ensures { result ≡ exposure_of self mode }
    {
        if others_write(mode) {
            Some(Exposure::Writable)
        } else if others_read(mode) && !self.readable_accounts {
            Some(Exposure::Readable)
        } else {
            None
        }
    }
}

/// Whether the mode of a file lets everybody write to it.
fn others_write(mode: u32) -> bool
    ensures { result ≡ others_write mode }
{
    mode & OTHERS_WRITE != 0
}

/// Whether everybody can read a file of this mode.
pub fn others_read(mode: u32) -> bool
    ensures { result ≡ others_read mode }
{
    mode & OTHERS_READ != 0
}
