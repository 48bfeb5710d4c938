ghost use Rattle.std.specs.Prelude.{◌≡◌, ◌++◌, IfOk, OnOk};
ghost use Rattle.rld_text.specs.Ready.{ready_octets};

use rld_control::Reply;
use rld_look::Health;
use std::alloc::{AllocError, Global};

/// The answer of a server of this health to whether it answers packets and records: the line of
/// its health and `ok` if it does, whether or not its clock is behind, and else `error` and why
/// not. It fails only if memory is refused.
pub fn ready_text(alloc: Global, health: Health) -> Result<Vec<u8>, AllocError>
    ensures { IfOk result (λ text. text.items ≡ ready_octets health) }
{
    let mut text = Vec::new(alloc);
    push_ready(&mut text, health)?;
    Ok(text)
}

/// Writes the answer of a server of this health.
fn push_ready(out: &mut Vec<u8>, health: Health) -> Result<(), AllocError>
    ensures { OnOk result (out.new.items ≡ out.old.items ++ ready_octets health) }
{
    match health {
        Health::Well => Reply::Done(health.text().as_bytes()).write(out),
        Health::ClockBehind => Reply::Done(health.text().as_bytes()).write(out),
        Health::NotRecording => Reply::Refused(b"not recording").write(out),
    }
}
