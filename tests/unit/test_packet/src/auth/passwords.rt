//! User-Passwords and CHAP-Passwords.

use super::{REQUEST_AUTH, SECRET};
use rsl_auth::{chap_ok, chap_response, hide, pap_ok};
use std::alloc::Global;
use std::test::Fail;
use test_rows::{Hex, Subject, check_rows, front, octet, octets_of, printed};

/// A password and a secret: the octets that hide the password, and whether they match it, and it
/// with one octet more.
struct Hidden;

impl Subject for Hidden {
    fn found(&self, alloc: Global, fields: &[&str]) -> Result<String, Fail> {
        let [password, secret] = fields else {
            return Err("a password and a secret")?;
        };
        let mut password = octets_of(alloc, password)?;
        told_of_hidden(alloc, &mut password, &octets_of(alloc, secret)?)
    }
}

fn told_of_hidden(alloc: Global, password: &mut Vec<u8>, secret: &[u8]) -> Result<String, Fail> {
    let value = hide_short(alloc, password, secret)?;
    let is_right = pap_ok(&value, secret, &REQUEST_AUTH, password);
    password.push(b'1')?;
    let is_longer_right = pap_ok(&value, secret, &REQUEST_AUTH, password);
    printed(alloc, &(Hex(&value), is_right, is_longer_right))
}

/// `hide` of a password that is not too long.
fn hide_short(alloc: Global, password: &[u8], secret: &[u8]) -> Result<Vec<u8>, Fail> {
    if 128 < password.len() {
        return Err("a password over 128 octets")?;
    }
    Ok(hide(alloc, password, secret, &REQUEST_AUTH)?)
}

#[test]
fn passwords_are_hidden_and_match_themselves_alone(rt: HostRuntime) -> Result<(), Fail> {
    check_rows(
        &rt,
        &Hidden,
        "
# The password `arctangent` and the secret `xyzzy5461` are those of RFC 2865 section 7.1.
the RFC's | 61726374616e67656e74 | 78797a7a7935343631 \
    | (0dbe708d93d413ce3196e43f782a0aee, true, false)
none | | 78797a7a7935343631 | (6ccc13f9f2ba74ab5fe2e43f782a0aee, true, false)
16 octets | 70*16 | 78797a7a7935343631 | (1cbc638982ca04db2f92944f085a7a9e, true, false)
17 octets | 736576656e7465656e206f637465747321 | 78797a7a7935343631 \
    | (1fa9659c9cce11ce31c28b5c0c4f7e9d4e74f5ba98864b1a1a6aff91f6f041fb, true, false)
a secret of 63 | 61726374616e67656e74 | 73*63 | (cc92bc8d7814da257893003a11d678d9, true, false)
a secret of 64 | 61726374616e67656e74 | 73*64 | (bd1989554c83edf74bd6a80a4f2bc0c1, true, false)
a secret of 65 | 61726374616e67656e74 | 73*65 | (297c0723c41f9f26bdb330757fc5ff0a, true, false)
a secret of 128 | 61726374616e67656e74 | 73*128 | (1a20b6d8e23f57088380060a499970b0, true, false)
128 octets | 70*128 | 78797a7a7935343631 | (1cbc638982ca04db2f92944f085a7a9e\
    ecf15fcf19aedfc40d6a2976e894b6ffa1ac2cd16b8989d355ad0b1b4596e71a\
    3fa1b3258b3caea704fe416dae0c668fb55f7374f17ceb24c28255132731d243\
    2b634c9c76516d7bdb6a88e692c6274d83bd5911da308327d11505e9e3211f09\
    5ac36111e1564124f7b3601bf5031a18, true, false)
",
    )
}

/// A value and a password: whether `pap_ok` takes them.
struct Matched;

impl Subject for Matched {
    fn found(&self, alloc: Global, fields: &[&str]) -> Result<String, Fail> {
        let [value, password] = fields else {
            return Err("a value and a password")?;
        };
        let value = octets_of(alloc, value)?;
        let password = octets_of(alloc, password)?;
        let is_right = pap_ok(&value, SECRET, &REQUEST_AUTH, &password);
        printed(alloc, &is_right)
    }
}

#[test]
fn a_value_matches_its_password_and_nuls_after_it(rt: HostRuntime) -> Result<(), Fail> {
    check_rows(
        &rt,
        &Matched,
        "
# The value hides `arctangent`.
itself | 0dbe708d93d413ce3196e43f782a0aee | 61726374616e67656e74 | true
a prefix | 0dbe708d93d413ce3196e43f782a0aee | 61726374616e6765 | false
one more | 0dbe708d93d413ce3196e43f782a0aee | 61726374616e67656e74 31 | false
a NUL more | 0dbe708d93d413ce3196e43f782a0aee | 61726374616e67656e74 00 | true
seven NULs more | 0dbe708d93d413ce3196e43f782a0aee | 61726374616e67656e74 00*7 | false
another first octet | 0dbe708d93d413ce3196e43f782a0aee | 62726374616e67656e74 | false
another last octet | 0dbe708d93d413ce3196e43f782a0aee | 61726374616e67656e75 | false
one bit of two octets | 0dbe708d93d413ce3196e43f782a0aee | 60736374616e67656e74 | false
no password | 0dbe708d93d413ce3196e43f782a0aee | | false
no value | | | false
15 octets | 0dbe708d93d413ce3196e43f782a0a | 61726374616e67656e74 | false
17 octets | 0dbe708d93d413ce3196e43f782a0aee00 | 61726374616e67656e74 | false
144 octets | 00*144 | | false
",
    )
}

/// An Ident, a password and a challenge: the response, and whether `chap_ok` takes it, for another
/// password, with one octet less and with one more.
struct Challenged;

impl Subject for Challenged {
    fn found(&self, alloc: Global, fields: &[&str]) -> Result<String, Fail> {
        let [ident, password, challenge] = fields else {
            return Err("an Ident, a password and a challenge")?;
        };
        let password = octets_of(alloc, password)?;
        let challenge = octets_of(alloc, challenge)?;
        told_of_response(alloc, octet(ident)?, &password, &challenge)
    }
}

fn told_of_response(
    alloc: Global,
    ident: u8,
    password: &[u8],
    challenge: &[u8],
) -> Result<String, Fail> {
    let found = chap_response(ident, password, challenge);
    let mut value = Vec::from_array(alloc, [ident])?;
    value.extend_from_slice(&found)?;
    let is_right = chap_ok(&value, challenge, password);
    let is_another = chap_ok(&value, challenge, b"another");
    let is_shorter = chap_ok(front(&value, 16), challenge, password);
    value.push(0)?;
    let is_longer = chap_ok(&value, challenge, password);
    printed(
        alloc,
        &(Hex(&found), is_right, is_another, is_shorter, is_longer),
    )
}

/// The digest of `abc` is RFC 1321's; the others are Python's.
#[test]
fn chap_responses_are_of_ident_password_and_challenge(rt: HostRuntime) -> Result<(), Fail> {
    check_rows(
        &rt,
        &Challenged,
        "
abc | 97 | 62 | 63 | (900150983cd24fb0d6963f7d28e17f72, true, false, false, false)
the request | 7 | 61726374616e67656e74 | 0f403f9473978057bd83d5cb98f4227a \
    | (3f25c9ea76486dbb6e08f6da1baf940b, true, false, false, false)
nothing | 255 | | | (00594fd4f42ba43fc1ca0427a0576295, true, false, false, false)
the longest | 0 | 70*128 | 63*253 | (f43e709886ba0c56bbc171b6a86faa22, true, false, false, false)
",
    )
}
