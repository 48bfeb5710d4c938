//! Tests of `rsl_wire`: the Access-Request of RFC 2865 section 7.1, read and written, what is no
//! packet, and hostile lists of attributes.

use rsl_wire::{Attr, Attrs, BuildFault, Draft, NoMemory, Octets, Packet, TooLong, build, read};
use std::alloc::Global;
use std::test::Fail;
use test_rows::{
    Hex, Subject, check_rows, front, length, octet, octets_of, printed, push_printed, shown,
};

/// Octets, and how many in all with zeros after them: what `read` says of them.
struct Padded;

impl Subject for Padded {
    fn found(&self, alloc: Global, fields: &[&str]) -> Result<String, Fail> {
        let [octets, len] = fields else {
            return Err("octets and a length")?;
        };
        let mut datagram = octets_of(alloc, octets)?;
        datagram.resize(length(len)?, 0)?;
        said(alloc, &datagram)
    }
}

/// What `read` says of a datagram.
fn said(alloc: Global, datagram: &[u8]) -> Result<String, Fail> {
    match read(datagram) {
        Ok(packet) => said_of(alloc, &packet),
        Err(fault) => printed(alloc, &fault),
    }
}

/// A packet's Authenticator, Code and Identifier, and how many octets it and its attributes have.
fn said_of(alloc: Global, packet: &Packet<'_>) -> Result<String, Fail> {
    let (authenticator, len) = (Hex(&packet.authenticator), packet.octets().len());
    printed(
        alloc,
        &(
            authenticator,
            packet.code,
            packet.id,
            len,
            packet.attrs.len(),
        ),
    )
}

#[test]
fn datagrams_are_read_up_to_their_length(rt: HostRuntime) -> Result<(), Fail> {
    check_rows(
        &rt,
        &Padded,
        "
nothing | | 0 | Short
19 octets | 01000013 | 19 | Short
a header | 02070014 | 20 | (00000000000000000000000000000000, 2, 7, 20, 0)
the request | 010000380f403f9473978057bd83d5cb98f4227a \
    01066e656d6f 02120dbe708d93d413ce3196e43f782a0aee 0406c0a80110 050600000003 | 56 \
    | (0f403f9473978057bd83d5cb98f4227a, 1, 0, 56, 36)
padding | 010000380f403f9473978057bd83d5cb98f4227a \
    01066e656d6f 02120dbe708d93d413ce3196e43f782a0aee 0406c0a80110 050600000003 | 61 \
    | (0f403f9473978057bd83d5cb98f4227a, 1, 0, 56, 36)
a Length of 0 | 01000000 | 4100 | BadLength
a Length of 19 | 01000013 | 4100 | BadLength
a Length over the datagram | 01000015 | 20 | BadLength
4096 octets | 01001000 | 4096 | (00000000000000000000000000000000, 1, 0, 4096, 4076)
4097 octets, padded | 01001000 | 4097 | (00000000000000000000000000000000, 1, 0, 4096, 4076)
a Length of 4097 | 01001001 | 4100 | BadLength
65507 octets, padded | 04ff1000 | 65507 | (00000000000000000000000000000000, 4, 255, 4096, 4076)
65507 octets, a Length of 65507 | 0400ffe3 | 65507 | BadLength
",
    )
}

/// The Access-Request of RFC 2865 section 7.1.
const REQUEST: &str = "010000380f403f9473978057bd83d5cb98f4227a01066e656d6f\
    02120dbe708d93d413ce3196e43f782a0aee0406c0a80110050600000003";

/// Lengths of the first octets of the request, the first and the last: what `read` says of them
/// all.
struct Prefixes;

impl Subject for Prefixes {
    fn found(&self, alloc: Global, fields: &[&str]) -> Result<String, Fail> {
        let [first, last] = fields else {
            return Err("two lengths")?;
        };
        let request = octets_of(alloc, REQUEST)?;
        said_of_prefixes(alloc, &request, length(first)?, length(last)?)
    }
}

/// What `read` says of prefixes, once where it says the same of one after another.
fn said_of_prefixes(
    alloc: Global,
    octets: &[u8],
    first: usize,
    last: usize,
) -> Result<String, Fail> {
    let mut text = String::new(alloc);
    for len in first..=last {
        push_other(&mut text, said(alloc, front(octets, len))?)?;
    }
    Ok(text)
}

/// Adds a text that the whole does not end with.
fn push_other(whole: &mut String, text: String) -> Result<(), Fail> {
    if !whole.ends_with(text.as_str()) {
        whole.push_str(text.as_str())?;
    }
    Ok(())
}

#[test]
fn prefixes_of_the_request_are_no_packets(rt: HostRuntime) -> Result<(), Fail> {
    check_rows(
        &rt,
        &Prefixes,
        "
up to 19 octets | 0 | 19 | Short
up to 55 octets | 20 | 55 | BadLength
all | 56 | 56 | (0f403f9473978057bd83d5cb98f4227a, 1, 0, 56, 36)
",
    )
}

/// A packet with the list of attributes.
fn with_header(alloc: Global, list: &str) -> Result<Vec<u8>, Fail> {
    let list = octets_of(alloc, list)?;
    let [.., high, low] = (20 + list.len()).to_be_bytes();
    let mut datagram = Vec::from_array(alloc, [1, 0, high, low])?;
    datagram.resize(20, 0)?;
    datagram.extend_from_slice(&list)?;
    Ok(datagram)
}

/// A list of attributes: each as `(TYPE, VALUE)`, or where the first bad one is.
struct Listed;

impl Subject for Listed {
    fn found(&self, alloc: Global, fields: &[&str]) -> Result<String, Fail> {
        let [list] = fields else {
            return Err("a list")?;
        };
        let datagram = with_header(alloc, list)?;
        match read(&datagram)?.attributes() {
            Ok(attributes) => words_of(alloc, attributes),
            Err(bad) => printed(alloc, &bad),
        }
    }
}

/// The attributes, each as `(TYPE, VALUE)`.
fn words_of(alloc: Global, attributes: Attrs<'_>) -> Result<String, Fail> {
    let mut text = String::new(alloc);
    for (kind, value) in attributes {
        push_printed(&mut text, &(kind, Hex(value)))?;
    }
    Ok(text)
}

#[test]
fn lists_are_cut_into_attributes_or_have_the_offset_of_the_first_bad_one(
    rt: HostRuntime,
) -> Result<(), Fail> {
    check_rows(
        &rt,
        &Listed,
        "
none | |
no value | 0102 | (1, )
Types 0 and 255 | 000361 ff046263 | (0, 61) (255, 6263)
one octet at the end | 21036201 02210361 00 | BadAttribute { at: 8 }
three | 210362 0102 210361 | (33, 62) (1, ) (33, 61)
no Length | 01 | BadAttribute { at: 0 }
no Length after one | 01036e 02 | BadAttribute { at: 3 }
Length 0 | 0100 | BadAttribute { at: 0 }
Length 1 | 0101 | BadAttribute { at: 0 }
Length 0 before another | 0100 0202 | BadAttribute { at: 0 }
Length 0 after one | 01036e 0200 | BadAttribute { at: 3 }
Length 1 between two | 01036e 0201 0502 | BadAttribute { at: 3 }
no value of one octet | 0103 | BadAttribute { at: 0 }
Length 255 | 01ff | BadAttribute { at: 0 }
one octet too few | 01066e656d | BadAttribute { at: 0 }
a number at the end | 0102 0202 050600000000 | (1, ) (2, ) (5, 00000000)
one octet too few at the end | 0102 0202 0506000000 | BadAttribute { at: 4 }
Length 255 after one | 01066e656d6f 02ff00 | BadAttribute { at: 6 }
",
    )
}

/// A list of attributes, how many are taken off, and a Type: how many of it are left, and the first
/// one's value, as octets and as a number.
struct Counted;

impl Subject for Counted {
    fn found(&self, alloc: Global, fields: &[&str]) -> Result<String, Fail> {
        let [list, taken, kind] = fields else {
            return Err("a list, a number and a Type")?;
        };
        let datagram = with_header(alloc, list)?;
        match read(&datagram)?.attributes() {
            Ok(mut attributes) => {
                take(&mut attributes, length(taken)?);
                counts(alloc, &attributes, octet(kind)?)
            }
            Err(_) => shown(alloc, &"malformed"),
        }
    }
}

/// Takes the first ones off.
fn take(attributes: &mut Attrs<'_>, times: usize) {
    for _ in 0..times {
        let _ = attributes.next();
    }
}

fn counts(alloc: Global, attributes: &Attrs<'_>, kind: u8) -> Result<String, Fail> {
    let (count, first) = (attributes.count(kind), attributes.first(kind));
    printed(alloc, &(count, first, attributes.number(kind)))
}

#[test]
fn a_type_is_counted_and_its_first_value_found(rt: HostRuntime) -> Result<(), Fail> {
    check_rows(
        &rt,
        &Counted,
        "
# The attributes of the RFC's request; User-Name is `nemo` there.
User-Name | 01066e656d6f 02120dbe708d93d413ce3196e43f782a0aee 0406c0a80110 050600000003 | 0 | 1 \
    | (1, Some([110, 101, 109, 111]), Some(1852140911))
NAS-IP-Address | 01066e656d6f 02120dbe708d93d413ce3196e43f782a0aee 0406c0a80110 050600000003 \
    | 0 | 4 | (1, Some([192, 168, 1, 16]), Some(3232235792))
NAS-Port | 01066e656d6f 02120dbe708d93d413ce3196e43f782a0aee 0406c0a80110 050600000003 | 0 | 5 \
    | (1, Some([0, 0, 0, 3]), Some(3))
no CHAP-Password | 01066e656d6f 02120dbe708d93d413ce3196e43f782a0aee 0406c0a80110 050600000003 \
    | 0 | 3 | (0, None, None)
a malformed list | 210362 050600000102 210361 050221 03 | 0 | 33 | malformed
the first of two | 210362 050600000102 210361 | 0 | 33 | (2, Some([98]), None)
the second, where the first was taken | 210362 050600000102 210361 | 1 | 33 | (1, Some([97]), None)
the second, where two were taken | 210362 050600000102 210361 | 2 | 33 | (1, Some([97]), None)
none that is left | 210362 050600000102 210361 | 3 | 33 | (0, None, None)
a number before none | 050600000102 0502 | 0 | 5 | (2, Some([0, 0, 1, 2]), Some(258))
five octets are no number | 05070000000003 | 0 | 5 | (1, Some([0, 0, 0, 0, 3]), None)
no octets are no number | 0502 | 0 | 5 | (1, Some([]), None)
",
    )
}

/// A way, and a packet: what that way makes of the packet's parts.
struct Built;

impl Subject for Built {
    fn found(&self, alloc: Global, fields: &[&str]) -> Result<String, Fail> {
        let [way, request] = fields else {
            return Err("a way and a request")?;
        };
        let request = octets_of(alloc, request)?;
        let packet = read(&request)?;
        let octets = match *way {
            "built" => packet_built(alloc, &packet)?,
            "drafted" => drafted(alloc, &packet)?,
            _ => return Err("an unknown way")?,
        };
        printed(alloc, &Hex(&octets))
    }
}

/// What `build` makes of a packet's parts.
fn packet_built(alloc: Global, packet: &Packet<'_>) -> Result<Vec<u8>, Fail> {
    let mut attributes = Vec::new(alloc);
    for (kind, value) in packet.attributes()? {
        attributes.push(Attr { kind, value })?;
    }
    Ok(build(
        alloc,
        packet.code,
        packet.id,
        &packet.authenticator,
        &attributes,
    )?)
}

/// What a `Draft` makes of a packet's parts, where values that are too long are pushed too.
fn drafted(alloc: Global, packet: &Packet<'_>) -> Result<Vec<u8>, Fail> {
    let mut draft = Draft::new(alloc, packet.id)?;
    for (kind, value) in packet.attributes()? {
        if draft.push(33, &[0; 254]).is_ok() {
            return Err("a value of 254 octets")?;
        }
        draft.push(kind, value)?;
    }
    Ok(draft.finish(packet.code, &packet.authenticator))
}

#[test]
fn the_request_is_built_and_drafted(rt: HostRuntime) -> Result<(), Fail> {
    check_rows(
        &rt,
        &Built,
        "
by build | built | 010000380f403f9473978057bd83d5cb98f4227a \
    01066e656d6f 02120dbe708d93d413ce3196e43f782a0aee 0406c0a80110 050600000003 \
    | 010000380f403f9473978057bd83d5cb98f4227a01066e656d6f\
    02120dbe708d93d413ce3196e43f782a0aee0406c0a80110050600000003
by a Draft | drafted | 010000380f403f9473978057bd83d5cb98f4227a \
    01066e656d6f 02120dbe708d93d413ce3196e43f782a0aee 0406c0a80110 050600000003 \
    | 010000380f403f9473978057bd83d5cb98f4227a01066e656d6f\
    02120dbe708d93d413ce3196e43f782a0aee0406c0a80110050600000003
",
    )
}

/// The lengths of a first and of a last value, with fourteen values of 253 octets between them: how
/// many octets `build` makes, and whether a `Draft` of all but the last takes the last.
struct Filled;

impl Subject for Filled {
    fn found(&self, alloc: Global, fields: &[&str]) -> Result<String, Fail> {
        let [first, last] = fields else {
            return Err("two lengths")?;
        };
        let (first, last) = (length(first)?, length(last)?);
        let built = built_of_zeros(alloc, first, last);
        let drafted = drafted_of_zeros(alloc, first, last)?;
        printed(alloc, &(built, drafted))
    }
}

fn built_of_zeros(alloc: Global, first: usize, last: usize) -> Result<usize, BuildFault> {
    let zeros = [0; 254];
    let mut attributes = [Attr {
        kind: 33,
        value: &zeros[..253],
    }; 16];
    attributes[0].value = front(&zeros, first);
    attributes[15].value = front(&zeros, last);
    Ok(build(alloc, 1, 0, &[0; 16], &attributes)?.len())
}

fn drafted_of_zeros(alloc: Global, first: usize, last: usize) -> Result<Result<(), TooLong>, Fail> {
    let zeros = [0; 254];
    let mut draft = Draft::new(alloc, 7)?;
    let _ = draft.push(33, front(&zeros, first));
    for _ in 0..14 {
        draft.push(33, &zeros[..253])?;
    }
    Ok(draft.push(33, front(&zeros, last)))
}

// With headers, fifteen values of 253 octets and one of 249 are the 4,076 octets after a header.
#[test]
fn packets_have_at_most_4096_octets(rt: HostRuntime) -> Result<(), Fail> {
    check_rows(
        &rt,
        &Filled,
        "
the longest | 253 | 249 | (Ok(4096), Ok(()))
one octet more | 253 | 250 | (Err(TooLong), Err(TooLong))
a value of 254 octets | 254 | 0 | (Err(TooLong), Ok(()))
",
    )
}

/// Two octet strings: of the first and of its copy how many octets they have and whether none, and
/// whether the copy is the first and the second.
struct Same;

impl Subject for Same {
    fn found(&self, alloc: Global, fields: &[&str]) -> Result<String, Fail> {
        let [one, other] = fields else {
            return Err("two octet strings")?;
        };
        let other = Octets::from_slice(alloc, &octets_of(alloc, other)?)?;
        let one = Octets::from_slice(alloc, &octets_of(alloc, one)?)?;
        let copy = one.try_copy(alloc)?;
        printed(
            alloc,
            &(copy.len(), copy.is_empty(), copy == one, copy == other),
        )
    }
}

#[test]
fn octets_are_equal_octet_by_octet(rt: HostRuntime) -> Result<(), Fail> {
    check_rows(
        &rt,
        &Same,
        "
# How many octets a copy of the first has, whether none, whether it is equal to the first, and to the
# second. Up to 22 octets lie in the value.
equal | 6e656d6f | 6e656d6f | (4, false, true, true)
another octet | 6e656d6f | 6e656d61 | (4, false, true, false)
a prefix | 6e656d6f | 6e656d | (4, false, true, false)
a NUL more | 6e656d6f | 6e656d6f 00 | (4, false, true, false)
none | | | (0, true, true, true)
22 octets | 6e*22 | 6e*22 | (22, false, true, true)
22 octets, another at the end | 6e*22 | 6e*21 6f | (22, false, true, false)
22 and 23 octets | 6e*22 | 6e*23 | (22, false, true, false)
23 octets | 6e*23 | 6e*23 | (23, false, true, true)
23 and 22 octets | 6e*23 | 6e*22 | (23, false, true, false)
65535 octets | 6e*65535 | 6e*65535 | (65535, false, true, true)
65535 and 65534 octets | 6e*65535 | 6e*65534 | (65535, false, true, false)
",
    )
}
