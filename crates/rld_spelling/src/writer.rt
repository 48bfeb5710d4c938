ghost use Rattle.std.specs.Prelude.{◌≡◌, ◌≤◌, ◌++◌, OnOk, length};
ghost use Rattle.std.specs.Int.{w16, to_be_bytes};
ghost use Rattle.rld_spelling.specs.Field.{short, flag_spelled};
ghost use Rattle.rld_spelling.specs.Numbers.{number_octets};

use crate::reader::{MARK_2, MARK_4, MARK_8};
use std::alloc::AllocError;

/// Appends a number. It fails only if memory is refused.
#[tactic(auto, unfolding(crate::specs::Numbers::number_octets))]
pub fn push_number(out: &mut Vec<u8>, number: u64) -> Result<(), AllocError>
    ensures { OnOk result (out.new.items ≡ out.old.items ++ number_octets number) }
{
    if number < u64::from(MARK_2) {
        out.push(number as u8)?;
    } else if number < 1 << 16 {
        out.push(MARK_2)?;
        out.extend_from_slice(&(number as u16).to_be_bytes())?;
    } else if number < 1 << 32 {
        out.push(MARK_4)?;
        out.extend_from_slice(&(number as u32).to_be_bytes())?;
    } else {
        out.push(MARK_8)?;
        out.extend_from_slice(&number.to_be_bytes())?;
    }
    Ok(())
}

/// Appends a number in 2 octets. It fails only if memory is refused.
pub fn push_pair(out: &mut Vec<u8>, number: u16) -> Result<(), AllocError>
    ensures { OnOk result (out.new.items ≡ out.old.items ++ to_be_bytes w16 number) }
{
    out.extend_from_slice(&number.to_be_bytes())
}

/// Appends at most 253 octets after their number. It fails only if memory is refused.
pub fn push_short(out: &mut Vec<u8>, octets: &[u8]) -> Result<(), AllocError>
    requires { length octets.now ≤ 253 }
    ensures { OnOk result (out.new.items ≡ out.old.items ++ short.spell octets.now) }
{
    out.push(octets.len() as u8)?;
    out.extend_from_slice(octets)
}

/// Appends a flag. It fails only if memory is refused.
pub fn push_flag(out: &mut Vec<u8>, yes: bool) -> Result<(), AllocError>
    ensures { OnOk result (out.new.items ≡ out.old.items ++ flag_spelled yes) }
{
    out.push(u8::from(yes))?;
    Ok(())
}
