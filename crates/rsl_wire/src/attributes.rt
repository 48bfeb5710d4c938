ghost use Rattle.std.specs.Prelude.{◌≡◌, None, Some, MatchOption};
ghost use Rattle.rsl_wire.specs.Attributes.{attribute_of, first_attribute};

use crate::attr::ATTR_HEADER_LEN;
use std::marker::Model;

/// The octets are no list of attributes.
#[derive(Clone, Copy, Debug)]
pub struct BadAttribute {
    /// The offset, in the octets of the attributes, of the first attribute whose Length is missing,
    /// under 2, or past the end.
    pub at: usize,
}

/// The attributes of a packet in order, each as its Type and its Value (RFC 2865 section 5): an
/// iterator that allocates nothing, since the values lie in the datagram.
///
/// | Octets | Field |
/// |---|---|
/// | 0 | Type |
/// | 1 | Length of Type, Length and Value |
/// | 2 to Length - 1 | Value, 0 to 253 octets |
#[derive(Drop)]
pub struct Attrs<'a> {
    rest: &'a [u8],
}

impl<'a> Model for Attrs<'a> {
    ghost use Rattle.std.specs.Prelude.{◌≡◌, List, Ok};
    ghost use Rattle.rsl_wire.specs.Attributes.{Attribute, attribute_list, attributes_in};

    ghost Value = { List Attribute };

    ghost view = { λ a. attributes_in a.rest.now };

    ghost invariant = { λ a. attribute_list a.rest.now ≡ Ok (attributes_in a.rest.now) };
}

impl<'a> Attrs<'a> {
    ghost use Rattle.std.specs.Prelude.{
      ◌≡◌,
      ◌<◌,
      ◌^◌,
      List,
      length,
      IfOk,
      IfErr,
      IsOkAnd,
      MatchResult,
      Ok,
      Err,
      count_by,
      option_map,
      ◌+◌,
      ◌≤◌,
      IfSome,
    };
    ghost use Rattle.rsl_wire.specs.Attributes.{
      Attribute,
      AreAttributes,
      IsBadAt,
      attribute_list,
      attributes_in,
      is_kind,
      first_of,
      list_octets,
      number_in,
      octets_before,
    };

    /// The attributes in the octets, or the offset of the first bad one.
    pub(crate) fn in_octets(octets: &'a [u8]) -> Result<Attrs<'a>, BadAttribute>
        ensures found { IfOk result (λ attrs. AreAttributes octets.now attrs) }
        ensures only { (attributes : List Attribute) → AreAttributes octets.now attributes →
            IsOkAnd result (λ attrs. attrs ≡ attributes) }
        ensures bad { IfErr result (λ fault. IsBadAt octets.now fault.at) }
        ensures exact { MatchResult result
            (λ attrs. attribute_list octets.now ≡ Ok attrs)
            (λ fault. attribute_list octets.now ≡ Err fault.at) }
    {
        Attrs::checked(octets)
    }

    /// `in_octets`, proved against the function that reads a list.
    fn checked(octets: &'a [u8]) -> Result<Attrs<'a>, BadAttribute>
        ensures { MatchResult result
            (λ attrs. attribute_list octets.now ≡ Ok attrs)
            (λ fault. attribute_list octets.now ≡ Err fault.at) }
    {
        let mut rest = octets;
        while !rest.is_empty() {
            let Some((_, _, after)) = attribute_at_front(rest) else {
                return Err(BadAttribute {
                    at: octets.len() - rest.len(),
                });
            };
            rest = after;
        }
        Ok(Attrs { rest: octets })
    }

    /// The attributes in octets that are known to be well formed, without checking them again.
    pub(crate) fn in_formed_octets(octets: &'a [u8]) -> Attrs<'a>
        requires { attribute_list octets.now ≡ Ok (attributes_in octets.now) }
        ensures list { result ≡ attributes_in octets.now }
        ensures found { AreAttributes octets.now result }
    {
        Attrs { rest: octets }
    }

    /// How many of the attributes left have this Type.
    ///
    /// Call it on a reference to the list, or as `Attrs::count(&attributes, kind)`: on the list
    /// itself, Rust takes `Iterator::count`.
    pub fn count(&self, kind: u8) -> usize
        ensures { result ≡ count_by (is_kind kind) self.now }
    {
        self.iter().filter(|(other, _)| *other == kind).count()
    }

    /// The value of the first attribute left that has this Type.
    pub fn first(&self, kind: u8) -> Option<&'a [u8]>
        ensures { option_map (λ value. value.now) result ≡ first_of kind self.now }
    {
        for (other, value) in self.iter() {
            if other == kind {
                return Some(value);
            }
        }
        None
    }

    /// The value of the first attribute of this Type as a number, high octet first. `None` if no
    /// attribute has this Type, or if that value does not have four octets (RFC 2865 section 5).
    pub fn number(&self, kind: u8) -> Option<u32>
        ensures { result ≡ number_in (first_of kind self.now) }
    {
        match self.first(kind)? {
            [a, b, c, d] => Some(u32::from_be_bytes([*a, *b, *c, *d])),
            _ => None,
        }
    }

    /// Octets of the attributes left before the first of this Type, or of all of them if none has
    /// it. Its value begins two octets later, after its Type and its Length.
    pub fn octets_before(&self, kind: u8) -> usize
        requires { length (list_octets self.now) ≤ 4096 }
        ensures count { result ≡ octets_before kind self.now }
        ensures short { result ≤ length (list_octets self.now) }
        ensures within { IfSome (first_of kind self.now) (λ value.
            result + 2 + length value ≤ length (list_octets self.now)) }
    {
        let mut len = 0usize;
        for (found, value) in self.iter() {
            if found == kind {
                return len;
            }
            len += ATTR_HEADER_LEN + value.len();
        }
        len
    }

    /// A separate iterator over the attributes left.
    pub fn iter(&self) -> Attrs<'a>
        ensures same { result ≡ self.now }
        ensures few { length result < 2 ^ 64 }
    {
        Attrs { rest: self.rest }
    }
}

impl<'a> Iterator for Attrs<'a> {
    ghost use Rattle.std.specs.Iterator.{YieldsFirstBy, item_count};
    ghost use Rattle.rsl_wire.specs.Attributes.{attribute_of};

    type Item = (u8, &'a [u8]);

    ghost next_gives = { YieldsFirstBy
        (λ item. attribute_of item.0 item.1.now) (λ attributes. attributes) };

    ghost remaining = { item_count (λ attributes. attributes) };

    fn next(&mut self) -> Option<(u8, &'a [u8])> {
        match attribute_at_front(self.rest) {
            Some((kind, value, rest)) => {
                self.rest = rest;
                Some((kind, value))
            }
            None => None,
        }
    }
}

/// The Type and the Value of the first attribute of the octets, and the octets after it.
fn attribute_at_front(octets: &[u8]) -> Option<(u8, &[u8], &[u8])>
    ensures { MatchOption result (first_attribute octets.now ≡ None) (λ found.
        first_attribute octets.now ≡ Some (attribute_of found.0 found.1.now, found.2.now)) }
{
    let [kind, len, rest @ ..] = octets else {
        return None;
    };
    let len = usize::from(*len);
    if len < ATTR_HEADER_LEN || rest.len() + ATTR_HEADER_LEN < len {
        return None;
    }
    let (value, rest) = rest.split_at(len - ATTR_HEADER_LEN);
    Some((*kind, value, rest))
}
