//! Headers of generations.

ghost use Rattle.std.specs.Prelude.{◌≡◌, ℕ, List, ◌++◌, IfOk, OnOk};
ghost use Rattle.rld_spelling.specs.Read.{IsFront, Reads, ReadsFront};

use crate::{Cause, Fault, Reader, push_number};
use rsl_rule::SESSION_RULE_VERSION;
use std::alloc::AllocError;

/// The version of the format, of every spelling of this crate. `former` reads what versions before
/// wrote.
pub const FORMAT_VERSION: u64 = 3;

/// The header of a generation.
#[derive(Clone, Copy, PartialEq, Eq)]
pub struct Header {
    /// The number of the generation.
    pub generation: u64,
    /// The number of its table: 1 at first, and one more with each change of the accounts or clients.
    pub table: u64,
    /// The boot number, with which each Class attribute begins.
    pub boot: u64,
    /// The number of moves of all generations before.
    pub lines: u64,
}

impl Header {
    ghost use Rattle.rld_spelling.specs.declared.header.Header.{Header as OneHeader};
    ghost use Rattle.rld_spelling.specs.Headers.{header_at, header_field, header_octets, rest_at};

    /// Appends the spelling of the header, after the versions of the format and of the session
    /// rule. It fails only if memory is refused; then a part of it may have been appended.
    #[tactic(auto, unfolding(crate::specs::Headers::header_octets, crate::specs::Headers::rest_octets))]
    pub fn push(&self, out: &mut Vec<u8>) -> Result<(), AllocError>
        ensures { OnOk result (out.new.items ≡ out.old.items ++ header_octets self.now) }
    {
        push_number(out, FORMAT_VERSION)?;
        push_number(out, SESSION_RULE_VERSION)?;
        push_number(out, self.generation)?;
        push_number(out, self.table)?;
        push_number(out, self.boot)?;
        push_number(out, self.lines)
    }

    /// Shows the prover that every header has a spelling.
    pub fn has_spelling(self)
        ensures { header_field.Fits self }
    {
        let _header = self;
    }

    /// Reads what follows the version of the format.
    #[tactic(auto, unfolding(crate::specs::Headers::rest_at))]
    fn read_rest(reader: &mut Reader) -> Result<Header, Fault>
        ensures { Reads result reader.new (rest_at reader.old) }
    {
        reader.exactly(Cause::OtherRule, SESSION_RULE_VERSION)?;
        let generation = reader.number()?;
        let table = reader.number()?;
        let boot = reader.number()?;
        let lines = reader.number()?;
        Ok(Header {
            generation,
            table,
            boot,
            lines,
        })
    }

    /// Reads a header.
    #[tactic(auto, unfolding(crate::specs::Headers::header_at))]
    fn read_next(reader: &mut Reader) -> Result<Header, Fault>
        ensures { Reads result reader.new (header_at reader.old) }
    {
        reader.exactly(Cause::OtherFormat, FORMAT_VERSION)?;
        Header::read_rest(reader)
    }

    /// Reads a header at the front of the octets.
    fn read_at_front(octets: &[u8]) -> Result<(Header, &[u8]), Fault>
        ensures { ReadsFront result (header_at octets.now) }
    {
        let mut reader = Reader::new(octets);
        let header = Header::read_next(&mut reader)?;
        Ok((header, reader.rest()))
    }

    /// The header at the front of the octets, and those behind it; or the first fault: `OtherFormat`
    /// and `OtherRule` come before what is wrong after the versions. It allocates nothing.
    pub fn read_front(octets: &[u8]) -> Result<(Header, &[u8]), Fault>
        // What is read is spelled so.
        ensures found { IfOk result (λ front.
            (octets.now ≡ header_octets front.0 ++ front.1.now) × header_field.Fits front.0) }
        // What is spelled so is read.
        ensures only { (header : OneHeader) (rest : List ℕ) → header_field.Fits header →
            octets.now ≡ header_octets header ++ rest → IsFront result header rest }
        // The fault is the first.
        ensures exact { ReadsFront result (header_at octets.now) }
    {
        Header::read_at_front(octets)
    }
}
