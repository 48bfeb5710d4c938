use rsl_accounts::ConfigFault;
use thiserror::Error;

/// Why an account file gives no configuration. It prints as a line for the author of the file.
#[derive(Debug, Drop, Error)]
pub enum FileFault {
    /// The file is not there, or a read of it failed.
    #[error("bad file: unreadable")]
    Unreadable,
    /// It has over 16,777,216 octets.
    #[error("bad file: too long")]
    TooLong,
    /// Its text is refused. It is never `ConfigFault::NoMemory`, which becomes `NoMemory`.
    #[error("bad file: {0}")]
    Config(ConfigFault),
    /// Memory was refused.
    #[error("no memory")]
    NoMemory,
}

impl From<ConfigFault> for FileFault {
    ghost use Rattle.std.specs.Prelude.{◌≡◌};
    ghost use Rattle.rsl_account_file.specs.FileRead.{fault_of_config};

    ghost from_gives = { λ fault made. made ≡ fault_of_config fault };

    fn from(fault: ConfigFault) -> FileFault {
        match fault {
            ConfigFault::NoMemory => FileFault::NoMemory,
            _ => FileFault::Config(fault),
        }
    }
}
