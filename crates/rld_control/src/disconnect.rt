ghost use Rattle.std.specs.Prelude.{◌≡◌, None, Some, IfNone, IfOk, IsErrOf, IsOkUnless};
ghost use Rattle.rld_control.specs.RequestOctets.{HasShortValues, request_fault, request_octets};
ghost use Rattle.rld_control.specs.declared.request_fault.RequestFault.{RequestFault};

use crate::codes::{ACCT_SESSION_ID, EVENT_TIMESTAMP, MESSAGE_AUTHENTICATOR, USER_NAME};
use crate::request_fault::RequestFault;
use crate::sealing::sealed_request;
use crate::server_name::ServerName;
use crate::value::{attribute, is_value};
use rsl_auth::SIGNATURE_LEN;
use std::alloc::Global;

/// What a Disconnect-Request says: which session is to end, and when that was asked for.
#[derive(Clone, Copy)]
pub struct DisconnectRequest<'a> {
    /// The Identifier, which the answer repeats. Of the requests that an access server may still
    /// answer to one port, each has its own.
    pub identifier: u8,
    /// The user's name, 1 to 253 octets (RFC 2865 section 5.1).
    pub user_name: &'a [u8],
    /// The access server's name.
    pub server: ServerName<'a>,
    /// The Acct-Session-Id, 1 to 253 octets (RFC 2866 section 5.5).
    pub session: &'a [u8],
    /// The Event-Timestamp, by which an access server knows an old request: seconds since 1970 (RFC
    /// 2869 section 5.3, RFC 5176 section 6.3).
    pub moment: u32,
    /// The secret that the access server shares.
    pub secret: &'a [u8],
}

impl<'a> DisconnectRequest<'a> {
    /// The octets of the Disconnect-Request (RFC 5176 section 2.3): User-Name, the access server's
    /// name if it has one, Acct-Session-Id, Event-Timestamp, and last the Message-Authenticator
    /// (RFC 5176 section 3.4); it is sealed as an Accounting-Request is.
    ///
    /// The faults come in this order: `UserName`, `ServerName`, `SessionId`, before anything is
    /// allocated. `NoMemory` comes only if memory is refused.
    pub fn octets(&self, alloc: Global) -> Result<Vec<u8>, RequestFault>
        ensures octets { IfOk result (λ octets. octets.items ≡ request_octets self.now) }
        ensures fits { request_fault self.now ≡ None → IsOkUnless result RequestFault.NoMemory }
        ensures fault { (fault : RequestFault) → request_fault self.now ≡ Some fault →
            IsErrOf result fault }
    {
        match self.fault() {
            Some(fault) => Err(fault),
            None => self.written(alloc),
        }
    }

    /// Why a packet cannot have these values, if it cannot.
    fn fault(&self) -> Option<RequestFault>
        ensures fault { result ≡ request_fault self.now }
        ensures short { IfNone result (HasShortValues self.now) }
    {
        if !is_value(self.user_name) {
            Some(RequestFault::UserName)
        } else if !self.server.is_valid() {
            Some(RequestFault::ServerName)
        } else if !is_value(self.session) {
            Some(RequestFault::SessionId)
        } else {
            None
        }
    }

    /// The octets, where the values are short enough.
    fn written(&self, alloc: Global) -> Result<Vec<u8>, RequestFault>
        requires { HasShortValues self.now }
        ensures octets { IfOk result (λ octets. octets.items ≡ request_octets self.now) }
        ensures fits { IsOkUnless result RequestFault.NoMemory }
    {
        let moment = self.moment.to_be_bytes();
        let name = attribute(USER_NAME, self.user_name);
        let session = attribute(ACCT_SESSION_ID, self.session);
        let moment = attribute(EVENT_TIMESTAMP, moment.as_slice());
        let signature = attribute(MESSAGE_AUTHENTICATOR, &[0; SIGNATURE_LEN]);
        let id = self.identifier;
        match self.server.attribute() {
            Some(server) => {
                let attributes = [name, server, session, moment, signature];
                sealed_request(alloc, id, &attributes, self.secret)
            }
            None => {
                let attributes = [name, session, moment, signature];
                sealed_request(alloc, id, &attributes, self.secret)
            }
        }
    }
}
