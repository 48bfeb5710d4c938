ghost use Rattle.std.specs.Prelude.{◌≡◌, ◌<◌, ◌≤◌, IfOk, length, nat_lt, if◌then◌else◌};
ghost use Rattle.std.specs.Int.{w16, w32, w64};
ghost use Rattle.rld_spelling.specs.Field.{octet_at, fixed_at, short_at, flag_at};
ghost use Rattle.rld_spelling.specs.Numbers.{number_at, below_at, between_at, exactly_at, wide_at};
ghost use Rattle.rld_spelling.specs.Read.{Reads, ReadsSeen};

use crate::fault::{Cause, Fault};
use std::marker::Model;

/// The most octets of a name or an id.
pub const MAX_SHORT_LEN: usize = 253;

/// The mark of a number in 2 octets. An octet below it is the number itself.
pub(crate) const MARK_2: u8 = 253;

/// The mark of a number in 4 octets.
pub(crate) const MARK_4: u8 = 254;

/// The mark of a number in 8 octets.
pub(crate) const MARK_8: u8 = 255;

/// A reader of octets, from left to right. A contract sees those that are left. After a fault
/// nothing is known of what is left.
#[derive(Drop)]
pub struct Reader<'a> {
    rest: &'a [u8],
}

impl<'a> Model for Reader<'a> {
    ghost use Rattle.std.specs.Prelude.{List, ℕ};

    ghost Value = { List ℕ };

    ghost view = { λ reader. reader.rest.now };
}

impl<'a> Reader<'a> {
    /// A reader of all of the octets.
    pub fn new(octets: &'a [u8]) -> Reader<'a>
        ensures { result ≡ octets.now }
    {
        Reader { rest: octets }
    }

    /// The octets that are left.
    pub fn rest(&self) -> &'a [u8]
        ensures { result.now ≡ self.now }
    {
        self.rest
    }

    /// The number of octets left.
    pub fn left(&self) -> usize
        ensures { result ≡ length self.now }
    {
        self.rest.len()
    }

    /// A fault at the reader's position.
    pub fn fault(&self, cause: Cause) -> Fault
        ensures { result ≡ record { cause = cause; left = length self.now } }
    {
        Fault {
            cause,
            left: self.rest.len(),
        }
    }

    /// The next octet. `CutShort` comes if none is left.
    pub fn octet(&mut self) -> Result<u8, Fault>
        ensures { Reads result self.new (octet_at self.old) }
    {
        match self.rest {
            [] => Err(self.fault(Cause::CutShort)),
            [first, rest @ ..] => {
                self.rest = rest;
                Ok(*first)
            }
        }
    }

    /// The next `count` octets. `CutShort` comes if fewer are left.
    #[tactic(auto, unfolding(crate::specs::Field::fixed_at))]
    pub fn octets(&mut self, count: usize) -> Result<&'a [u8], Fault>
        ensures { ReadsSeen (λ octets. octets.now) result self.new (fixed_at count self.old) }
    {
        if self.rest.len() < count {
            return Err(self.fault(Cause::CutShort));
        }
        let (front, rest) = self.rest.split_at(count);
        self.rest = rest;
        Ok(front)
    }

    /// The next 4 octets. `CutShort` comes if fewer are left.
    #[tactic(auto, unfolding(crate::specs::Field::fixed_at))]
    pub fn octets_4(&mut self) -> Result<[u8; 4], Fault>
        ensures { Reads result self.new (fixed_at 4 self.old) }
    {
        let front = self.octets(4)?;
        let mut octets = [0; 4];
        octets.copy_from_slice(front);
        Ok(octets)
    }

    /// The next 16 octets. `CutShort` comes if fewer are left.
    #[tactic(auto, unfolding(crate::specs::Field::fixed_at))]
    pub fn octets_16(&mut self) -> Result<[u8; 16], Fault>
        ensures { Reads result self.new (fixed_at 16 self.old) }
    {
        let front = self.octets(16)?;
        let mut octets = [0; 16];
        octets.copy_from_slice(front);
        Ok(octets)
    }

    /// At most 253 octets after their number. `TooLong` comes if the number is over 253, `CutShort`
    /// if fewer are left.
    #[tactic(auto, unfolding(crate::specs::Field::short_at))]
    pub fn short(&mut self) -> Result<&'a [u8], Fault>
        ensures { ReadsSeen (λ octets. octets.now) result self.new (short_at self.old) }
    {
        let too_long = self.fault(Cause::TooLong);
        let count = usize::from(self.octet()?);
        if MAX_SHORT_LEN < count {
            return Err(too_long);
        }
        self.octets(count)
    }

    /// A 0 for no or a 1 for yes. `UnknownTag` comes at another octet, `CutShort` if none is left.
    #[tactic(auto, unfolding(crate::specs::Field::flag_at))]
    pub fn flag(&mut self) -> Result<bool, Fault>
        ensures { Reads result self.new (flag_at self.old) }
    {
        let unknown = self.fault(Cause::UnknownTag);
        match self.octet()? {
            0 => Ok(false),
            1 => Ok(true),
            _ => Err(unknown),
        }
    }

    /// A number in 2 octets, high octet first. `CutShort` comes if fewer are left.
    #[tactic(auto, unfolding(crate::specs::Numbers::wide_at))]
    pub fn pair(&mut self) -> Result<u16, Fault>
        ensures { Reads result self.new (wide_at w16 self.old) }
    {
        if self.rest.len() < 2 {
            return Err(self.fault(Cause::CutShort));
        }
        let (front, rest) = self.rest.split_at(2);
        self.rest = rest;
        Ok(u16::from_be_bytes([front[0], front[1]]))
    }

    /// A number in 4 octets, high octet first.
    #[tactic(auto, unfolding(crate::specs::Numbers::wide_at))]
    fn wide_4(&mut self) -> Result<u32, Fault>
        ensures { Reads result self.new (wide_at w32 self.old) }
    {
        if self.rest.len() < 4 {
            return Err(self.fault(Cause::CutShort));
        }
        let (front, rest) = self.rest.split_at(4);
        self.rest = rest;
        Ok(u32::from_be_bytes([front[0], front[1], front[2], front[3]]))
    }

    /// A number in 8 octets, high octet first.
    #[tactic(auto, unfolding(crate::specs::Numbers::wide_at))]
    fn wide_8(&mut self) -> Result<u64, Fault>
        ensures { Reads result self.new (wide_at w64 self.old) }
    {
        if self.rest.len() < 8 {
            return Err(self.fault(Cause::CutShort));
        }
        let (front, rest) = self.rest.split_at(8);
        self.rest = rest;
        Ok(u64::from_be_bytes([
            front[0], front[1], front[2], front[3], front[4], front[5], front[6], front[7],
        ]))
    }

    /// A number in its shortest form. `CutShort` comes if octets of it are missing, `LongNumber` if
    /// it has a shorter form.
    #[tactic(auto, unfolding(crate::specs::Numbers::number_at))]
    pub fn number(&mut self) -> Result<u64, Fault>
        ensures { Reads result self.new (number_at self.old) }
    {
        let long = self.fault(Cause::LongNumber);
        match self.octet()? {
            MARK_2 => at_least(253, u64::from(self.pair()?), long),
            MARK_4 => at_least(1 << 16, u64::from(self.wide_4()?), long),
            MARK_8 => at_least(1 << 32, self.wide_8()?, long),
            small => Ok(u64::from(small)),
        }
    }

    /// A number below a limit. `cause` comes if it is not, after the faults of `number`.
    #[tactic(auto, unfolding(crate::specs::Numbers::below_at))]
    pub fn below(&mut self, cause: Cause, limit: u64) -> Result<u64, Fault>
        ensures read { Reads result self.new (below_at cause limit self.old) }
        ensures below { IfOk result (λ n. n < limit) }
    {
        let out = self.fault(cause);
        let number = self.number()?;
        if number < limit { Ok(number) } else { Err(out) }
    }

    /// A number from `least` to `most`. `cause` comes if it is any other, after the faults of
    /// `number`.
    #[tactic(auto, unfolding(crate::specs::Numbers::between_at))]
    pub fn between(&mut self, cause: Cause, least: u64, most: u64) -> Result<u64, Fault>
        ensures read { Reads result self.new (between_at cause least most self.old) }
        ensures between { IfOk result (λ n. (least ≤ n) × (n ≤ most)) }
    {
        let out = self.fault(cause);
        let number = self.number()?;
        if least <= number && number <= most {
            Ok(number)
        } else {
            Err(out)
        }
    }

    /// A number that is always `value`. `cause` comes if it is any other, after the faults of
    /// `number`.
    #[tactic(auto, unfolding(crate::specs::Numbers::exactly_at))]
    pub fn exactly(&mut self, cause: Cause, value: u64) -> Result<(), Fault>
        ensures { ReadsSeen (λ _. tt) result self.new (exactly_at cause value self.old) }
    {
        let other = self.fault(cause);
        if self.number()? == value {
            Ok(())
        } else {
            Err(other)
        }
    }
}

/// A number that is at least `least`, or the fault.
fn at_least(least: u64, number: u64, fault: Fault) -> Result<u64, Fault>
    ensures { result ≡ (if nat_lt number least then Err fault else Ok number) }
{
    if number < least {
        Err(fault)
    } else {
        Ok(number)
    }
}
