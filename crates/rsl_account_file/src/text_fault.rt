use std::alloc::AllocError;

/// Why a reader gives no text.
#[derive(Clone, Copy)]
pub enum TextFault {
    /// The file is not there, a read failed, or the reads came to no end.
    Unreadable,
    /// There are more octets than the text may have.
    TooLong,
    /// Memory was refused.
    NoMemory,
}

impl From<AllocError> for TextFault {
    ghost use Rattle.std.specs.Prelude.{◌≡◌};
    ghost use Rattle.rsl_account_file.specs.declared.text_fault.TextFault.TheVariants.{NoMemory};

    ghost from_gives = { λ _ fault. fault ≡ NoMemory };

    fn from(_refused: AllocError) -> TextFault {
        TextFault::NoMemory
    }
}
