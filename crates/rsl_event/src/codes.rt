//! The numbers of the RFCs, and four of this server's own: `MAX_STATION_LEN`, `CLASS_LEN`,
//! `MAX_PROXY_STATE_LEN` and `GUARDED_PROXY_STATE_LEN`.

/// Access-Request (RFC 2865 section 4.1).
pub const ACCESS_REQUEST: u8 = 1;
/// Access-Accept (RFC 2865 section 4.2).
pub const ACCESS_ACCEPT: u8 = 2;
/// Access-Reject (RFC 2865 section 4.3).
pub const ACCESS_REJECT: u8 = 3;
/// Accounting-Request (RFC 2866 section 4.1).
pub const ACCOUNTING_REQUEST: u8 = 4;
/// Accounting-Response (RFC 2866 section 4.2).
pub const ACCOUNTING_RESPONSE: u8 = 5;

/// User-Name (RFC 2865 section 5.1).
pub const USER_NAME: u8 = 1;
/// User-Password (RFC 2865 section 5.2).
pub const USER_PASSWORD: u8 = 2;
/// CHAP-Password (RFC 2865 section 5.3).
pub const CHAP_PASSWORD: u8 = 3;
/// NAS-IP-Address (RFC 2865 section 5.4).
pub const NAS_IP_ADDRESS: u8 = 4;
/// Service-Type (RFC 2865 section 5.6).
pub const SERVICE_TYPE: u8 = 6;
/// Framed-Protocol (RFC 2865 section 5.7).
pub const FRAMED_PROTOCOL: u8 = 7;
/// Reply-Message (RFC 2865 section 5.18).
pub const REPLY_MESSAGE: u8 = 18;
/// Class (RFC 2865 section 5.25).
pub const CLASS: u8 = 25;
/// Vendor-Specific (RFC 2865 section 5.26).
pub const VENDOR_SPECIFIC: u8 = 26;
/// Session-Timeout (RFC 2865 section 5.27).
pub const SESSION_TIMEOUT: u8 = 27;
/// Idle-Timeout (RFC 2865 section 5.28).
pub const IDLE_TIMEOUT: u8 = 28;
/// Calling-Station-Id (RFC 2865 section 5.31).
pub const CALLING_STATION_ID: u8 = 31;
/// NAS-Identifier (RFC 2865 section 5.32).
pub const NAS_IDENTIFIER: u8 = 32;
/// Proxy-State (RFC 2865 section 5.33).
pub const PROXY_STATE: u8 = 33;
/// Acct-Status-Type (RFC 2866 section 5.1).
pub const ACCT_STATUS_TYPE: u8 = 40;
/// Acct-Delay-Time (RFC 2866 section 5.2).
pub const ACCT_DELAY_TIME: u8 = 41;
/// Acct-Session-Id (RFC 2866 section 5.5).
pub const ACCT_SESSION_ID: u8 = 44;
/// Acct-Multi-Session-Id (RFC 2866 section 5.11).
pub const ACCT_MULTI_SESSION_ID: u8 = 50;
/// CHAP-Challenge (RFC 2865 section 5.40).
pub const CHAP_CHALLENGE: u8 = 60;
/// Port-Limit (RFC 2865 section 5.42).
pub const PORT_LIMIT: u8 = 62;
/// ARAP-Password (RFC 2869 section 5.4).
pub const ARAP_PASSWORD: u8 = 70;
/// ARAP-Features (RFC 2869 section 5.5).
pub const ARAP_FEATURES: u8 = 71;
/// ARAP-Security (RFC 2869 section 5.7).
pub const ARAP_SECURITY: u8 = 73;
/// ARAP-Security-Data (RFC 2869 section 5.8).
pub const ARAP_SECURITY_DATA: u8 = 74;
/// EAP-Message (RFC 3579 section 3.1).
pub const EAP_MESSAGE: u8 = 79;
/// Message-Authenticator (RFC 3579 section 3.2).
pub const MESSAGE_AUTHENTICATOR: u8 = 80;
/// ARAP-Challenge-Response (RFC 2869 section 5.15).
pub const ARAP_CHALLENGE_RESPONSE: u8 = 84;
/// Acct-Interim-Interval (RFC 2869 section 5.16).
pub const ACCT_INTERIM_INTERVAL: u8 = 85;
/// NAS-IPv6-Address (RFC 3162 section 2.1).
pub const NAS_IPV6_ADDRESS: u8 = 95;
/// Digest-Response, the first of the Types of Digest (RFC 5090 section 3.1).
pub const DIGEST_RESPONSE: u8 = 103;
/// SIP-AOR, the last of the Types of Digest (RFC 5090 section 3.20).
pub const SIP_AOR: u8 = 122;
/// PKM-SS-Cert (RFC 5904 section 3.1).
pub const PKM_SS_CERT: u8 = 137;
/// PKM-CA-Cert (RFC 5904 section 3.2).
pub const PKM_CA_CERT: u8 = 138;
/// Digest-Response by the number of an early draft of RFC 5090, which FreeRADIUS sends.
pub const DRAFT_DIGEST_RESPONSE: u8 = 206;
/// Digest-Attributes of that draft.
pub const DRAFT_DIGEST_ATTRIBUTES: u8 = 207;

/// The number of the vendor Microsoft in a Vendor-Specific (RFC 2548 section 2).
pub const MICROSOFT: u32 = 311;
/// The fewest octets of the value of a Vendor-Specific: four of the vendor's number, and one of what the vendor
/// says (RFC 2865 section 5.26).
pub const MIN_VENDOR_SPECIFIC_LEN: usize = 5;

/// Acct-Status-Type Start: the session begins (RFC 2866 section 5.1).
pub const START: u32 = 1;
/// Acct-Status-Type Stop: the session has ended.
pub const STOP: u32 = 2;
/// Acct-Status-Type Interim-Update: the session goes on.
pub const INTERIM_UPDATE: u32 = 3;
/// Acct-Status-Type Accounting-On: the access server has started.
pub const ACCOUNTING_ON: u32 = 7;
/// Acct-Status-Type Accounting-Off: the access server is about to stop.
pub const ACCOUNTING_OFF: u32 = 8;

/// The most octets of a Calling-Station-Id that names a station.
pub const MAX_STATION_LEN: usize = 64;
/// Octets of this server's Class: 8 of the boot number, and 8 of the accept number.
pub const CLASS_LEN: usize = 16;
/// The most octets of Proxy-State attributes, with their headers, in a request: a reply has room
/// for them.
pub const MAX_PROXY_STATE_LEN: usize = 3900;
/// The same under a guard, that is in version 3 of the account file, in which an accept has up to 1,000 octets
/// of its account's own.
pub const GUARDED_PROXY_STATE_LEN: usize = 3000;

// The definitions cite these names, so their numbers are checked against the RFCs' own tables.
// Codes (RFC 2865 section 4, RFC 2866 section 4).
const _: () = prove!(
    ACCESS_REQUEST == 1
        && ACCESS_ACCEPT == 2
        && ACCESS_REJECT == 3
        && ACCOUNTING_REQUEST == 4
        && ACCOUNTING_RESPONSE == 5
);
// Types (RFC 2865 section 5, RFC 2866 section 5, RFC 3579 section 3, RFC 2869 section 5, RFC 3162 section 2.1,
// RFC 5090 section 3, RFC 5904 section 3).
const _: () = prove!(
    USER_NAME == 1
        && USER_PASSWORD == 2
        && CHAP_PASSWORD == 3
        && NAS_IP_ADDRESS == 4
        && SERVICE_TYPE == 6
        && FRAMED_PROTOCOL == 7
        && REPLY_MESSAGE == 18
        && CLASS == 25
        && VENDOR_SPECIFIC == 26
        && SESSION_TIMEOUT == 27
        && IDLE_TIMEOUT == 28
        && CALLING_STATION_ID == 31
        && NAS_IDENTIFIER == 32
        && PROXY_STATE == 33
        && ACCT_STATUS_TYPE == 40
        && ACCT_DELAY_TIME == 41
        && ACCT_SESSION_ID == 44
        && ACCT_MULTI_SESSION_ID == 50
        && CHAP_CHALLENGE == 60
        && PORT_LIMIT == 62
        && ARAP_PASSWORD == 70
        && ARAP_FEATURES == 71
        && ARAP_SECURITY == 73
        && ARAP_SECURITY_DATA == 74
        && EAP_MESSAGE == 79
        && MESSAGE_AUTHENTICATOR == 80
        && ARAP_CHALLENGE_RESPONSE == 84
        && ACCT_INTERIM_INTERVAL == 85
        && NAS_IPV6_ADDRESS == 95
        && DIGEST_RESPONSE == 103
        && SIP_AOR == 122
        && PKM_SS_CERT == 137
        && PKM_CA_CERT == 138
        && DRAFT_DIGEST_RESPONSE == 206
        && DRAFT_DIGEST_ATTRIBUTES == 207
);
// A vendor's number (RFC 2548 section 2), and the least length of a Vendor-Specific (RFC 2865 section 5.26).
const _: () = prove!(MICROSOFT == 311 && MIN_VENDOR_SPECIFIC_LEN == 5);
// Values of Acct-Status-Type (RFC 2866 section 5.1).
const _: () = prove!(
    START == 1 && STOP == 2 && INTERIM_UPDATE == 3 && ACCOUNTING_ON == 7 && ACCOUNTING_OFF == 8
);
// The longest replies, 20 + 18 + 54 + 3,900 and 20 + 18 + 54 + 1,000 + 3,000 octets, are within the 4,096 of a
// packet.
const _: () = prove!(MAX_PROXY_STATE_LEN == 3900 && GUARDED_PROXY_STATE_LEN == 3000);

const _: () = prove!(CLASS_LEN == 16 && MAX_STATION_LEN == 64);
