//! Filling a response.

ghost use Rattle.std.specs.Prelude.{◌≡◌, ◌++◌, ◌∷◌, [], OnOk, IsTrue, codes};
ghost use Rattle.http_header.specs.FieldValue.{is_visible_text};
ghost use Rattle.http_server.specs.Response.{IsBlank, IsResponse};
ghost use Rattle.rld_web.specs.Answer.{fields_with};
ghost use Rattle.rld_web.specs.Path.{plain};

use bytes::Bytes;
use http::{HeaderValue, StatusCode};
use http_header::{
    CACHE_CONTROL, CONNECTION, CONTENT_SECURITY_POLICY, CONTENT_TYPE, X_CONTENT_TYPE_OPTIONS,
};
use http_server::Response;
use std::alloc::AllocError;

/// What a page may load and do: nothing but its own style.
const POLICY: &str = "default-src 'none'; style-src 'unsafe-inline'; frame-ancestors 'none'";

/// Fills a blank response. It is not cached, it has the media type that it says, and the connection
/// ends with it.
#[tactic(auto, using(crate::proofs::Fields::five_fields))]
pub(crate) fn fill(
    response: &mut Response,
    status: StatusCode,
    media_type: &'static str,
    body: Bytes,
) -> Result<(), AllocError>
    requires blank { IsBlank response.old }
    requires visible { IsTrue (is_visible_text media_type.now) }
    ensures { OnOk result (IsResponse status (fields_with media_type.now) body response.new) }
{
    response.status = status;
    response.add_header(CONTENT_TYPE, HeaderValue::from_static(media_type))?;
    response.add_header(CACHE_CONTROL, HeaderValue::from_static("no-store"))?;
    response.add_header(X_CONTENT_TYPE_OPTIONS, HeaderValue::from_static("nosniff"))?;
    response.add_header(CONTENT_SECURITY_POLICY, HeaderValue::from_static(POLICY))?;
    response.add_header(CONNECTION, HeaderValue::from_static("close"))?;
    response.body.push(body)
}

/// Fills a response that says why there is no text.
pub(crate) fn refuse(
    response: &mut Response,
    status: StatusCode,
    text: &'static str,
) -> Result<(), AllocError>
    requires { IsBlank response.old }
    ensures { OnOk result (IsResponse status (fields_with plain) text.now response.new) }
{
    fill(
        response,
        status,
        "text/plain; charset=utf-8",
        Bytes::from_static(text.as_bytes()),
    )
}
