//! Tests of Disconnect-Requests (`rld_control`): requests and answers whose digests Python's hashlib and hmac computed.
//! FreeRADIUS's `radclient` sends such requests, and takes such answers.

use rld_control::{DisconnectRequest, ServerName, cause_name, read_answer};
use rsl_auth::hmac_md5;
use std::alloc::Global;
use std::test::Fail;
use test_rows::{Hex, Subject, check_rows, octet, octets_of, printed, short_number};

/// The secret of the answers below.
const SECRET: &str = "78797a7a7935343631";

/// The request that they answer: the first of those below.
const REQUEST: &str =
    "28070040 64ac5242053400e8a6107a5b50da3db7 0107616c696365 20076e61732d31 2c0635413031 37066b0af440 501216e180eed9f20bb6a07f9a770c11ac97";

/// The access server that a word and octets name.
fn server<'a>(word: &str, octets: &'a [u8]) -> Result<ServerName<'a>, Fail> {
    match word {
        "identifier" => Ok(ServerName::Identifier(octets)),
        "address" => Ok(ServerName::Address(octets)),
        "unnamed" => Ok(ServerName::Unnamed),
        _ => Err("no access server")?,
    }
}

/// An Identifier, a user, an access server, a session, a second and a secret: the request, or why
/// there is none.
struct Requests;

impl Subject for Requests {
    fn found(&self, alloc: Global, fields: &[&str]) -> Result<String, Fail> {
        match octets_asked(alloc, fields)? {
            Ok(octets) => printed(alloc, &Hex(&octets)),
            Err(fault) => Ok(fault),
        }
    }
}

/// The octets of a request, or the name of its fault.
fn octets_asked(alloc: Global, fields: &[&str]) -> Result<Result<Vec<u8>, String>, Fail> {
    let [identifier, user, named, session, moment, secret] = fields else {
        return Err("what a request says")?;
    };
    let (word, name) = named.split_once(' ').unwrap_or((named, ""));
    let user = octets_of(alloc, user)?;
    let name = octets_of(alloc, name)?;
    let session = octets_of(alloc, session)?;
    let secret = octets_of(alloc, secret)?;
    let request = DisconnectRequest {
        identifier: octet(identifier)?,
        user_name: &user,
        server: server(word, &name)?,
        session: &session,
        moment: short_number(moment)?,
        secret: &secret,
    };
    match request.octets(alloc) {
        Ok(octets) => Ok(Ok(octets)),
        Err(fault) => Ok(Err(printed(alloc, &fault)?)),
    }
}

#[test]
fn a_request_is_signed_and_sealed(rt: HostRuntime) -> Result<(), Fail> {
    check_rows(
        &rt,
        &Requests,
        "
by its identifier | 7 | 616c696365 | identifier 6e61732d31 | 35413031 | 1795880000 | \
    78797a7a7935343631 | \
    2807004064ac5242053400e8a6107a5b50da3db70107616c69636520076e61732d312c063541303137066b0a\
    f440501216e180eed9f20bb6a07f9a770c11ac97
by its address | 255 | 626f62 | address c0000207 | 00ff | 4294901244 | 78797a7a7935343631 \
    | \
    28ff003bb4863ee979e042c37cc61037b226a1780105626f620406c00002072c0400ff3706fffefdfc5012da\
    76513a68e24a469774162551781129
by an address of 16 octets | 1 | 6361726f6c | address 20010db8 00*11 07 | 31 | 0 | 73*65 | \
    2801004854814fd6fe59a76397eea486036b369001076361726f6c5f1220010db80000000000000000000000\
    072c03313706000000005012d221d98adc78a32f6ae4fc5a6d8aafd8
without a name | 0 | 64 | unnamed | 73 | 1 | 78797a7a7935343631 | \
    2800003280de702a56440bf6a5114230a78cc93d0103642c03733706000000015012150e2e7cb72a34060723\
    44e8543a6da6
# what `radclient` of FreeRADIUS sends
as another program has it | 76 | 626f62 | identifier 6e617337 | 7331 | 1700000000 | \
    74657374696e67313233 | \
    284c003b3799689084942efdd3a9269767ea7ddf0105626f6220066e6173372c04733137066553f1005012c5\
    4eb11a13f1c53fb58f871cbce61276
",
    )
}

#[test]
fn values_of_no_attribute_are_refused(rt: HostRuntime) -> Result<(), Fail> {
    check_rows(
        &rt,
        &Requests,
        "
no user | 0 |  | unnamed | 31 | 1 | 73 | UserName
a user of 254 octets | 0 | 75*254 | unnamed | 31 | 1 | 73 | UserName
an empty identifier | 0 | 75 | identifier | 31 | 1 | 73 | ServerName
an identifier of 254 octets | 0 | 75 | identifier 6e*254 | 31 | 1 | 73 | ServerName
no address | 0 | 75 | address | 31 | 1 | 73 | ServerName
3 octets | 0 | 75 | address 00*3 | 31 | 1 | 73 | ServerName
5 octets | 0 | 75 | address 00*5 | 31 | 1 | 73 | ServerName
15 octets | 0 | 75 | address 00*15 | 31 | 1 | 73 | ServerName
17 octets | 0 | 75 | address 00*17 | 31 | 1 | 73 | ServerName
no session | 0 | 75 | unnamed |  | 1 | 73 | SessionId
a session of 254 octets | 0 | 75 | unnamed | 69*254 | 1 | 73 | SessionId
the first fault | 0 |  | address 00 |  | 1 | 73 | UserName
the second fault | 0 | 75 | address 00 |  | 1 | 73 | ServerName
",
    )
}

/// The same: how many octets the request has, and their HMAC with no key.
struct LongRequests;

impl Subject for LongRequests {
    fn found(&self, alloc: Global, fields: &[&str]) -> Result<String, Fail> {
        match octets_asked(alloc, fields)? {
            Ok(octets) => printed(alloc, &(octets.len(), Hex(&hmac_md5(&[], &octets)))),
            Err(fault) => Ok(fault),
        }
    }
}

#[test]
fn the_longest_values_are_taken(rt: HostRuntime) -> Result<(), Fail> {
    check_rows(
        &rt,
        &LongRequests,
        "
longest | 9 | 75*253 | identifier 6e*253 | 69*253 | 1795880000 | 78797a7a7935343631 \
    | (809, f76aea7aaa49ca00e789b716425816a2)
",
    )
}

/// A datagram: what it answers to the request.
struct Answers;

impl Subject for Answers {
    fn found(&self, alloc: Global, fields: &[&str]) -> Result<String, Fail> {
        let [datagram] = fields else {
            return Err("a datagram")?;
        };
        let request = octets_of(alloc, REQUEST)?;
        let secret = octets_of(alloc, SECRET)?;
        let datagram = octets_of(alloc, datagram)?;
        printed(alloc, &read_answer(&request, &secret, &datagram))
    }
}

#[test]
fn an_answer_is_read_and_nothing_else(rt: HostRuntime) -> Result<(), Fail> {
    check_rows(
        &rt,
        &Answers,
        "
an ACK | 29070014 e7c2fd8d86065c3972c7cc0b40e04699 | Some(Ack)
a signed ACK | 29070026 b5972d5a4b5a46a9a09b0d0d4f042198 \
    50124cd4c61e284d96223a4fbf76e1089379 | Some(Ack)
a signed ACK, with others about it | 2907002d 4da05610fe73f8b4fadd011baedceab4 210370 \
    5012522264950b3b35b20f6c57d8e3853015 21047171 | Some(Ack)
a NAK | 2a07001a 54f0e72a3f1c12a83ad8e335adc1e127 6506000001f7 | Some(Nak(Some(503)))
a signed NAK | 2a07002c 7a653bc0990b3f3fcced88e25745392e 6506000001f7 \
    501290cd7f781277eb5f74d8413a398184eb | Some(Nak(Some(503)))
a NAK without a cause | 2a070014 d9ffe6188335ef7ed13716c3725fc2c2 | Some(Nak(None))
a cause of three octets | 2a070019 ae04d37aa8f45c5a792eec08b73f3804 6505000102 | \
    Some(Nak(None))
a cause of five octets | 2a07001b 0b6f25339cb385b5ca4fdc10ec62a79b 65070000000102 | \
    Some(Nak(None))
two causes | 2a070020 ef4c24c83aef6e60a96f10179fa4db56 650600000194 6506000001f7 | \
    Some(Nak(Some(404)))
a short cause and another | 2a07001c 7d93e5214e1841a3f358fa1f863a6d54 6502 6506000001f7 | \
    Some(Nak(None))
the greatest cause | 2a07001a d1c3ee84c8f92f96dad4fb93ec415dc4 6506ffffffff | \
    Some(Nak(Some(4294967295)))
an ACK with a cause | 2907001a 69aa249672fcc145a16f53d29eb4d368 6506000000c9 | Some(Ack)
another authenticator | 29070014 e7c2fd8d86065c3972c7cc0b40e04698 | None
another authenticator, at its front | 29070014 67c2fd8d86065c3972c7cc0b40e04699 | None
a wrong Message-Authenticator | 29070026 73a6cb573f4d5e6a0bef2453e51ccaf0 \
    50124cd4c61e284d96223a4fbf76e1089378 | None
one that is signed as a request is | 29070026 a9c994f6c310b22cb56ad901e0b973f9 \
    5012c7e11c4016336a38b1d7c575a57b8646 | None
a right Message-Authenticator alone | 29070026 00000000000000000000000000000000 \
    50124cd4c61e284d96223a4fbf76e1089379 | None
two Message-Authenticators | 29070038 adb88d721ec28f6e7e33be9e13e89a33 \
    5012ed38797722777b94f2850e1cb45fb018 501200000000000000000000000000000000 | None
two, of which the first is right | 29070038 fe76aa14044d34216211f7af273675f4 \
    501271de15b0df47cb1881235994f59d0207 5012ed38797722777b94f2850e1cb45fb018 | None
a Message-Authenticator of 15 octets | 29070025 cd5540d3366835b59b6872b1f7404041 \
    5011000000000000000000000000000000 | None
one of 17 | 29070027 229c593d741f877dd9d251945ff8ba72 \
    50130000000000000000000000000000000000 | None
an empty one | 29070016 455a998e30b697f7c3b307c792847f9f 5002 | None
another Identifier | 29080014 7588af2f3375cadb5ee27ae513c10bac | None
a request | 28070014 028b78ed75bfbda4dd661705f91bbce4 | None
Code 43 | 2b070014 51fd802a895bf85a9d57af5cf08280f6 | None
a CoA-ACK | 2c070014 2a1fabe89fb1df0406ecd407acca65b7 | None
a CoA-NAK | 2d070014 e526cec5a4352b166116b76dcd3ad840 | None
an accept | 02070014 181707d0cb21a1a8266203d68c3b655c | None
Code 0 | 00070014 65c9b08dac5f223797c8fcd3b515268f | None
cut short | 2a07001a 54f0e72a3f1c12a83ad8e335adc1e127 6506000001 | None
cut in its header | 2a07001a54f0e72a3f1c12a83ad8e335adc1e1 | None
no octets |  | None
padding | 2a07001a 54f0e72a3f1c12a83ad8e335adc1e127 6506000001f7 ff0065 | \
    Some(Nak(Some(503)))
a signed NAK and padding | 2a07002c 7a653bc0990b3f3fcced88e25745392e 6506000001f7 \
    501290cd7f781277eb5f74d8413a398184eb 00000000 | Some(Nak(Some(503)))
a Length of 19 | 29070013 a9436d9ae620be3fa93d7108771ef1c4 | None
an attribute of Length 1 | 29070016 e93da84147ea30ffe84ad12e9fa2a077 2101 | None
an attribute past the end | 29070017 9cbd4a1966b0ebcaba90860af87ad5b7 210401 | None
a Type alone | 29070015 d57198a1ecb975592625deb44790f720 21 | None
4,096 octets | 29071000 1a6f47810abdad736318f79bcfefd66f 21ff aa*253 21ff aa*253 21ff \
    aa*253 21ff aa*253 21ff aa*253 21ff aa*253 21ff aa*253 21ff aa*253 21ff aa*253 21ff \
    aa*253 21ff aa*253 21ff aa*253 21ff aa*253 21ff aa*253 21ff aa*253 21e9 bb*231 5012 \
    1e07e478e93116121177f189d718c275 | Some(Ack)
4,096 octets, wrongly signed | 29071000 a9447116fb32d609f8baafa0925991e5 21ff aa*253 21ff \
    aa*253 21ff aa*253 21ff aa*253 21ff aa*253 21ff aa*253 21ff aa*253 21ff aa*253 21ff \
    aa*253 21ff aa*253 21ff aa*253 21ff aa*253 21ff aa*253 21ff aa*253 21ff aa*253 21e9 \
    bb*231 5012 00*16 | None
4,097 octets | 29071001 5a32619d4dc854434b95e3d8ca550f8f 21ff aa*253 21ff aa*253 21ff \
    aa*253 21ff aa*253 21ff aa*253 21ff aa*253 21ff aa*253 21ff aa*253 21ff aa*253 21ff \
    aa*253 21ff aa*253 21ff aa*253 21ff aa*253 21ff aa*253 21ff aa*253 21ea bb*232 5012 \
    8ad08607727a965ae84e6acf2d1f95fe | None
",
    )
}

/// A request, a secret and a datagram: what it answers.
struct AnswersTo;

impl Subject for AnswersTo {
    fn found(&self, alloc: Global, fields: &[&str]) -> Result<String, Fail> {
        let [request, secret, datagram] = fields else {
            return Err("a request, a secret and a datagram")?;
        };
        let request = octets_of(alloc, request)?;
        let secret = octets_of(alloc, secret)?;
        let datagram = octets_of(alloc, datagram)?;
        printed(alloc, &read_answer(&request, &secret, &datagram))
    }
}

#[test]
fn an_answer_is_to_one_request_with_one_secret(rt: HostRuntime) -> Result<(), Fail> {
    check_rows(
        &rt,
        &AnswersTo,
        "
another secret | 28070040 64ac5242053400e8a6107a5b50da3db7 0107616c696365 20076e61732d31 \
    2c0635413031 37066b0af440 501216e180eed9f20bb6a07f9a770c11ac97 | 78797a7a7935343632 | \
    29070014 e7c2fd8d86065c3972c7cc0b40e04699 | None
the answer to another request | 28070040 2e4dac3561a054f2b7fa427ec1ade1c1 0107616c696365 \
    20076e61732d31 2c0635413031 37066b0af441 5012067d6d0054414386ad8a27fb40cc22c8 | \
    78797a7a7935343631 | 29070014 e7c2fd8d86065c3972c7cc0b40e04699 | None
no request |  | 78797a7a7935343631 | 29070014 e7c2fd8d86065c3972c7cc0b40e04699 | None
a request of 19 octets | 2807004064ac5242053400e8a6107a5b50da3d | 78797a7a7935343631 | \
    29070014 e7c2fd8d86065c3972c7cc0b40e04699 | None
",
    )
}

/// A number: the name of that cause.
struct Causes;

impl Subject for Causes {
    fn found(&self, alloc: Global, fields: &[&str]) -> Result<String, Fail> {
        let [cause] = fields else {
            return Err("a number")?;
        };
        printed(alloc, &cause_name(short_number(cause)?))
    }
}

/// The table of RFC 5176 section 3.5, its ends and what stands between.
#[test]
fn causes_have_the_names_of_the_rfc(rt: HostRuntime) -> Result<(), Fail> {
    check_rows(
        &rt,
        &Causes,
        "
201 | 201 | Some(\"residual session context removed\")
202 | 202 | Some(\"invalid EAP packet (ignored)\")
401 | 401 | Some(\"unsupported attribute\")
402 | 402 | Some(\"missing attribute\")
403 | 403 | Some(\"NAS identification mismatch\")
404 | 404 | Some(\"invalid request\")
405 | 405 | Some(\"unsupported service\")
406 | 406 | Some(\"unsupported extension\")
407 | 407 | Some(\"invalid attribute value\")
501 | 501 | Some(\"administratively prohibited\")
502 | 502 | Some(\"request not routable (proxy)\")
503 | 503 | Some(\"session context not found\")
504 | 504 | Some(\"session context not removable\")
505 | 505 | Some(\"other proxy processing error\")
506 | 506 | Some(\"resources unavailable\")
507 | 507 | Some(\"request initiated\")
508 | 508 | Some(\"multiple session selection unsupported\")
0 | 0 | None
200 | 200 | None
203 | 203 | None
400 | 400 | None
408 | 408 | None
500 | 500 | None
509 | 509 | None
4294967295 | 4294967295 | None
",
    )
}
