//! The keys of an account file. What is wrong is decided by the reader; these say it. Tests hold both beside
//! each other.

use crate::kind::Kind;
use crate::row::{Need, Row};

/// The most seconds of a time.
const MAX_SECS: u64 = 86_400;

/// The most of an attribute's number.
const MAX_NUMBER: u64 = u32::MAX as u64;

/// The version, which is looked at first.
pub(crate) const VERSION: Row = Row("version", Kind::Number(1, 3), Need::Always, 1);

/// The keys of the head.
pub(crate) const HEAD: &[Row] = &[
    VERSION,
    Row("shards", Kind::Number(1, 4), Need::Before3, 1),
    Row("reserve_secs", Kind::Number(1, MAX_SECS), Need::Before3, 1),
    Row("live_secs", Kind::Number(1, MAX_SECS), Need::Before3, 1),
    Row("grace_secs", Kind::Number(1, MAX_SECS), Need::Before3, 1),
    Row("closed_secs", Kind::Number(1, MAX_SECS), Need::Before3, 1),
    Row("keep_secs", Kind::Number(1, MAX_SECS), Need::Before3, 1),
    Row("interim_secs", Kind::Number(60, MAX_SECS), Need::Never, 2),
    Row("station", Kind::Flag, Need::Never, 3),
    Row("delay_time", Kind::Flag, Need::Never, 3),
    Row("port_limit", Kind::Flag, Need::Never, 3),
    Row("profile", Kind::Table, Need::Never, 3),
    Row("client", Kind::Tables(256), Need::Always, 1),
    Row("account", Kind::Tables(16_384), Need::Always, 1),
];

/// The keys of a client.
pub(crate) const CLIENT: &[Row] = &[
    Row("address", Kind::Ipv4, Need::Always, 1),
    Row("secret", Kind::Secret, Need::Always, 1),
    Row("signed", Kind::Flag, Need::Never, 1),
    Row("trusted", Kind::Flag, Need::Never, 3),
    Row("disconnect", Kind::Table, Need::Never, 3),
];

/// The keys of a client's table `disconnect`.
pub(crate) const DISCONNECT: &[Row] = &[Row("port", Kind::Number(1, 65_535), Need::Always, 3)];

/// The keys of a profile.
pub(crate) const PROFILE: &[Row] = &[Row("reply", Kind::List, Need::Always, 3)];

/// The keys of an account.
pub(crate) const ACCOUNT: &[Row] = &[
    Row("name", Kind::Name, Need::Always, 1),
    Row("password", Kind::Secret, Need::Before3, 1),
    Row("places", Kind::Number(0, 64), Need::Always, 1),
    Row("ports", Kind::Number(1, 16), Need::Before3, 1),
    Row("service_type", Kind::Number(1, MAX_NUMBER), Need::Never, 1),
    Row(
        "framed_protocol",
        Kind::Number(1, MAX_NUMBER),
        Need::Never,
        1,
    ),
    Row(
        "session_timeout",
        Kind::Number(1, MAX_NUMBER),
        Need::Never,
        1,
    ),
    Row("idle_timeout", Kind::Number(1, MAX_NUMBER), Need::Never, 1),
    Row("live_secs", Kind::Number(1, MAX_SECS), Need::Never, 2),
    Row("grace_secs", Kind::Number(1, MAX_SECS), Need::Never, 2),
    Row("interim_secs", Kind::Number(60, MAX_SECS), Need::Never, 2),
    Row("station", Kind::Flag, Need::Never, 3),
    Row("disabled", Kind::Flag, Need::Never, 3),
    Row("port_limit", Kind::Flag, Need::Never, 3),
    Row("profile", Kind::Text, Need::Never, 3),
    Row("reply", Kind::List, Need::Never, 3),
];
