//! The texts and the fields of responses, by their statuses.

ghost use Rattle.std.specs.Prelude.{◌≡◌};
ghost use Rattle.http1.specs.Head.{header_parts, pairs};
ghost use Rattle.rld_ask.specs.Response.{field_beside, fields_of, media_type, reason_of};

use http1::Header;

/// The reason phrase of a status (RFC 9110 section 15).
pub(crate) fn reason_of(status: u16) -> &'static str
    ensures { result.now ≡ reason_of status }
{
    match status {
        200 => "OK",
        400 => "Bad Request",
        401 => "Unauthorized",
        403 => "Forbidden",
        404 => "Not Found",
        405 => "Method Not Allowed",
        413 => "Content Too Large",
        414 => "URI Too Long",
        423 => "Locked",
        431 => "Request Header Fields Too Large",
        501 => "Not Implemented",
        _ => "Service Unavailable",
    }
}

/// The whole answer to what is no request that can be read, or a body that is not read: the connection ends
/// with it.
pub(crate) fn closing_text(status: u16) -> &'static str {
    match status {
        413 => "HTTP/1.1 413 Content Too Large\r\nconnection: close\r\ncontent-length: 0\r\n\r\n",
        414 => "HTTP/1.1 414 URI Too Long\r\nconnection: close\r\ncontent-length: 0\r\n\r\n",
        431 => {
            "HTTP/1.1 431 Request Header Fields Too Large\r\nconnection: close\r\ncontent-length: 0\r\n\r\n"
        }
        501 => "HTTP/1.1 501 Not Implemented\r\nconnection: close\r\ncontent-length: 0\r\n\r\n",
        _ => "HTTP/1.1 400 Bad Request\r\nconnection: close\r\ncontent-length: 0\r\n\r\n",
    }
}

/// The fields of a response with this status.
pub(crate) fn fields_of(status: u16) -> [Header<'static>; 2]
    ensures { pairs result ≡ fields_of status }
{
    [
        header(b"content-type", media_type(status)),
        field_beside(status),
    ]
}

/// The media type of a response with this status.
fn media_type(status: u16) -> &'static [u8]
    ensures { result.now ≡ media_type status }
{
    if status == 200 {
        b"application/json"
    } else {
        b"text/plain; charset=utf-8"
    }
}

/// The field that such a response has beside that.
fn field_beside(status: u16) -> Header<'static>
    ensures { header_parts result ≡ field_beside status }
{
    match status {
        401 => header(b"www-authenticate", b"Bearer"),
        405 => header(b"allow", b"POST"),
        _ => header(b"cache-control", b"no-store"),
    }
}

/// A field of a response.
fn header<'a>(name: &'a [u8], value: &'a [u8]) -> Header<'a>
    ensures { header_parts result ≡ (name.now, value.now) }
{
    Header { name, value }
}
