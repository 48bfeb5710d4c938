ghost use Rattle.std.specs.Prelude.{◌≡◌, ◌++◌, OnOk};
ghost use Rattle.rld_control.specs.Reply.{IsReply, reply_octets};

use std::alloc::AllocError;

/// The answer of a running server, by its end.
#[derive(Clone, Copy)]
pub enum Reply<'a> {
    /// It was done. These are the lines before the last, each with its line feed.
    Done(&'a [u8]),
    /// It was not done, for this reason.
    Refused(&'a [u8]),
    /// The answer was cut off.
    Broken,
}

impl Reply<'_> {
    /// The answer in these octets, which are all of it.
    pub fn of(octets: &[u8]) -> Reply<'_>
        ensures { IsReply octets.now result }
    {
        if let Some(lines) = octets.strip_suffix(b"ok\n") {
            return Reply::Done(lines);
        }
        let Some(rest) = octets.strip_prefix(b"error ") else {
            return Reply::Broken;
        };
        match rest.strip_suffix(b"\n") {
            Some(text) => Reply::Refused(text),
            None => Reply::Broken,
        }
    }

    /// Writes the answer; nothing for a broken one. It fails only if memory is refused.
    pub fn write(&self, out: &mut Vec<u8>) -> Result<(), AllocError>
        ensures { OnOk result (out.new.items ≡ out.old.items ++ reply_octets self.now) }
    {
        match self {
            Reply::Done(lines) => {
                out.extend_from_slice(lines)?;
                out.extend_from_slice(b"ok\n")
            }
            Reply::Refused(text) => {
                out.extend_from_slice(b"error ")?;
                out.extend_from_slice(text)?;
                out.extend_from_slice(b"\n")
            }
            Reply::Broken => Ok(()),
        }
    }
}
