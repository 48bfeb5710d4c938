//! The keys of a server's file. What is wrong is decided by the reader; these say it. Tests hold both beside
//! each other.

use crate::kind::Kind;
use crate::row::{Need, Row};

/// The greatest port.
const MAX_PORT: u64 = u16::MAX as u64;

/// The keys of the head.
pub(crate) const HEAD: &[Row] = &[
    Row("accounts", Kind::Path, Need::Always, 1),
    Row("state", Kind::Path, Need::Always, 1),
    Row("state_must_exist", Kind::Flag, Need::Never, 1),
    Row("sync", Kind::Sync, Need::Never, 1),
    Row("archive", Kind::Days, Need::Never, 1),
    Row("archive_megabytes", Kind::Number(1, 65_535), Need::Never, 1),
    Row("listen", Kind::Tables(16), Need::Never, 1),
    Row("network", Kind::Tables(256), Need::Never, 1),
    Row("control", Kind::Table, Need::Never, 1),
    Row("web", Kind::Table, Need::Never, 1),
    Row("ask", Kind::Table, Need::Never, 1),
    Row("trust", Kind::Table, Need::Never, 1),
];

/// The keys of a table `listen`.
pub(crate) const LISTEN: &[Row] = &[
    Row("address", Kind::Address, Need::Never, 1),
    Row("auth", Kind::Number(1, MAX_PORT), Need::Never, 1),
    Row("acct", Kind::Number(1, MAX_PORT), Need::Never, 1),
    Row("receivers", Kind::Number(1, 16), Need::Never, 1),
    Row("status_server", Kind::Flag, Need::Never, 1),
];

/// The keys of a table `network`.
pub(crate) const NETWORK: &[Row] = &[
    Row("prefix", Kind::Prefix, Need::Always, 1),
    Row("client", Kind::Ipv4, Need::Always, 1),
];

/// The keys of `control`.
pub(crate) const CONTROL: &[Row] = &[
    Row("socket", Kind::Path, Need::Never, 1),
    Row("mode", Kind::Mode, Need::Never, 1),
    Row("group", Kind::Group, Need::Never, 1),
];

/// The keys of `web`.
pub(crate) const WEB: &[Row] = &[
    Row("address", Kind::Ipv4, Need::Never, 1),
    Row("port", Kind::Number(1, MAX_PORT), Need::Always, 1),
];

/// The keys of `ask`.
pub(crate) const ASK: &[Row] = &[
    Row("address", Kind::Ipv4, Need::Never, 1),
    Row("port", Kind::Number(1, MAX_PORT), Need::Always, 1),
    Row("token_file", Kind::Path, Need::Always, 1),
    Row("client", Kind::Ipv4, Need::Always, 1),
];

/// The keys of `trust`.
pub(crate) const TRUST: &[Row] = &[Row("readable_accounts", Kind::Flag, Need::Never, 1)];
