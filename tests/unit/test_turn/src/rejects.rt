//! Why requests are rejected.
//!
//! A row has a name and the octets of a request of the client. It tells the kind of its meaning, and why
//! it is rejected, if it is.

use rsl_event::{Detail, MeaningKind, Port, Source, prepare_in_detail};
use std::alloc::Global;
use std::test::Fail;
use test_rows::{Subject, check_rows, octets_of};
use test_timelines::config_of;

/// The requests of rows.
#[derive(Clone, Copy)]
struct Rejects;

impl Subject for Rejects {
    fn found(&self, alloc: Global, fields: &[&str]) -> Result<String, Fail> {
        let [digits] = fields else {
            return Err("a row with other fields")?;
        };
        let config = config_of(alloc, "1")?;
        let octets = octets_of(alloc, digits)?;
        let source = Source {
            address: [192, 168, 1, 16],
            port: 1024,
        };
        let found = prepare_in_detail(alloc, &config, 1, Port::Auth, source, octets.as_slice())?;
        let cause = match found.detail {
            Detail::Rejected(cause) => Some(cause),
            Detail::Asks | Detail::Accounting(_) => None,
        };
        let mut text = String::new(alloc);
        match found.prepared.meaning.kind() {
            MeaningKind::Bare => text.push_str("(Bare, ")?,
            MeaningKind::Reject => text.push_str("(Reject, ")?,
            MeaningKind::Ask(account) => write!(text, "(Ask({account}), ")?,
            MeaningKind::Account => text.push_str("(Account, ")?,
        }
        write!(text, "{cause:?})")?;
        Ok(text)
    }
}

/// Each cause, and the first of two.
const REJECTS: &str = "
an ask by PAP | 0100002c0f403f9473978057bd83d5cb98f4227a01066e656d6f02120dbe708d93d413ce3196\
    e43f782a0aee \
    | (Ask(0), None)
an ask by CHAP | 0100002d0f403f9473978057bd83d5cb98f4227a01066e656d6f0313073f25c9ea76486dbb6e\
    08f6da1baf940b \
    | (Ask(0), None)
malformed attributes | 0100002d0f403f9473978057bd83d5cb98f4227a01066e656d6f02120dbe708d93d413ce3196\
    e43f782a0aee01 \
    | (Bare, Some(Malformed))
no name | 010000260f403f9473978057bd83d5cb98f4227a02120dbe708d93d413ce3196e43f782a0aee \
    | (Reject, Some(NotOneName))
two names | 010000320f403f9473978057bd83d5cb98f4227a01066e656d6f01066e656d6f02120dbe708d\
    93d413ce3196e43f782a0aee \
    | (Reject, Some(NotOneName))
no name and no password | 0100001a0f403f9473978057bd83d5cb98f4227a0406c0a80110 \
    | (Reject, Some(NotOneName))
EAP and no password | 010000250f403f9473978057bd83d5cb98f4227a01066e656d6f4f0b02010009016e656d6f \
    | (Reject, Some(NotOnePassword))
both PAP and CHAP | 0100003f0f403f9473978057bd83d5cb98f4227a01066e656d6f02120dbe708d93d413ce3196\
    e43f782a0aee0313073f25c9ea76486dbb6e08f6da1baf940b \
    | (Reject, Some(NotOnePassword))
two challenges | 010000510f403f9473978057bd83d5cb98f4227a01066e656d6f031307f10e51166005e2a270\
    184c91a7a682ff3c12303132333435363738396162636465663c126665646362613938373635\
    3433323130 \
    | (Reject, Some(SeveralChallenges))
an unknown account | 0100002e0f403f9473978057bd83d5cb98f4227a01086e6f626f647902120dbe708d93d413ce\
    3196e43f782a0aee \
    | (Reject, Some(UnknownAccount))
a wrong password | 0100002c0f403f9473978057bd83d5cb98f4227a01066e656d6f02120dbe708d93d413ce3191\
    e43f782a0aee \
    | (Reject, Some(WrongPassword))
a wrong challenge | 0100003f0f403f9473978057bd83d5cb98f4227a01066e656d6f031307f10e51166005e2a270\
    184c91a7a682ff3c1266656463626139383736353433323130 \
    | (Reject, Some(WrongPassword))
";

#[test]
fn rejects_have_their_first_cause(rt: HostRuntime) -> Result<(), Fail> {
    check_rows(&rt, &Rejects, REJECTS)
}
