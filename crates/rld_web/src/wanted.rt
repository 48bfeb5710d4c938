//! What a request asks for.

ghost use Rattle.std.specs.Prelude.{◌≡◌, IfOk};
ghost use Rattle.rld_web.specs.Wanted.{is_reading, needs_accounts, needs_look, wanted_by, wanted_of};

use crate::path::Path;
use crate::place::is_asked_for;
use bytes::Bytes;
use http::Request;
use std::alloc::{AllocError, Global};
use std::net::SocketAddrV4;

/// What a request asks for.
#[derive(Clone, Copy)]
pub(crate) enum Wanted {
    /// Something of another server: it is asked for under another name.
    Elsewhere,
    /// More than to read.
    Change,
    /// A path that is unknown.
    Unknown,
    /// The text of this path.
    Of(Path),
}

impl Wanted {
    /// What a request to the server at this place asks for. It fails only if memory is refused.
    pub(crate) fn of(
        alloc: Global,
        place: SocketAddrV4,
        request: &Request<Bytes>,
    ) -> Result<Wanted, AllocError>
        ensures { IfOk result (λ wanted. wanted ≡ wanted_of place request.now) }
    {
        let is_asked = is_asked_for(alloc, place, request)?;
        let reads = is_reading(request.method().as_str());
        Ok(wanted_by(is_asked, reads, Path::of(request.uri().path())))
    }

    /// Whether its text is that of a look at the server.
    pub(crate) fn needs_look(self) -> bool
        ensures { result ≡ needs_look self }
    {
        matches!(self, Wanted::Of(Path::Page | Path::Metrics))
    }

    /// Whether its text is that of a look at the accounts.
    pub(crate) fn needs_accounts(self) -> bool
        ensures { result ≡ needs_accounts self }
    {
        matches!(self, Wanted::Of(Path::Accounts))
    }
}

/// What a request asks for, by whether it is asked of this server, whether its method only reads, and by its
/// path, if that is known.
fn wanted_by(is_asked: bool, reads: bool, path: Option<Path>) -> Wanted
    ensures { result ≡ wanted_by is_asked reads path }
{
    match (is_asked, reads, path) {
        (false, _, _) => Wanted::Elsewhere,
        (true, false, _) => Wanted::Change,
        (true, true, None) => Wanted::Unknown,
        (true, true, Some(path)) => Wanted::Of(path),
    }
}

/// Whether a method only reads.
fn is_reading(method: &str) -> bool
    ensures { result ≡ is_reading method.now }
{
    method == "GET" || method == "HEAD"
}
