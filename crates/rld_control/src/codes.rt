//! The numbers of the RFCs.

/// Disconnect-Request (RFC 5176 section 2.3).
pub const DISCONNECT_REQUEST: u8 = 40;
/// Disconnect-ACK (RFC 5176 section 2.3).
pub const DISCONNECT_ACK: u8 = 41;
/// Disconnect-NAK (RFC 5176 section 2.3).
pub const DISCONNECT_NAK: u8 = 42;

/// User-Name (RFC 2865 section 5.1).
pub const USER_NAME: u8 = 1;
/// NAS-IP-Address (RFC 2865 section 5.4).
pub const NAS_IP_ADDRESS: u8 = 4;
/// NAS-Identifier (RFC 2865 section 5.32).
pub const NAS_IDENTIFIER: u8 = 32;
/// Acct-Session-Id (RFC 2866 section 5.5).
pub const ACCT_SESSION_ID: u8 = 44;
/// Event-Timestamp (RFC 2869 section 5.3).
pub const EVENT_TIMESTAMP: u8 = 55;
/// Message-Authenticator (RFC 3579 section 3.2, RFC 5176 section 3.4).
pub const MESSAGE_AUTHENTICATOR: u8 = 80;
/// NAS-IPv6-Address (RFC 3162 section 2.1).
pub const NAS_IPV6_ADDRESS: u8 = 95;
/// Error-Cause (RFC 5176 section 3.5).
pub const ERROR_CAUSE: u8 = 101;

// The definitions cite these names, so their numbers are checked against the RFCs' own tables.
// Codes (RFC 5176 section 2.3).
const _: () = prove!(DISCONNECT_REQUEST == 40 && DISCONNECT_ACK == 41 && DISCONNECT_NAK == 42);
// Types (RFC 2865 section 5, RFC 2866 section 5, RFC 2869 section 5, RFC 3162 section 2, RFC 3579
// section 3, RFC 5176 section 3).
const _: () = prove!(
    USER_NAME == 1
        && NAS_IP_ADDRESS == 4
        && NAS_IDENTIFIER == 32
        && ACCT_SESSION_ID == 44
        && EVENT_TIMESTAMP == 55
        && MESSAGE_AUTHENTICATOR == 80
        && NAS_IPV6_ADDRESS == 95
        && ERROR_CAUSE == 101
);
