ghost use Rattle.std.specs.Prelude.{◌≡◌, ◌≤◌, All, length, map, take};
ghost use Rattle.httparse.specs.Grammar.{RequestHead};
ghost use Rattle.httparse.specs.Spans.{IsHeaderWithin, IsRequestAt, IsRequestWithin, header_bytes, span_bytes};
ghost use Rattle.rld_ask.specs.Heads.{is_authorization, refusal_by, refusal_of, shows_token};
ghost use Rattle.rld_ask.specs.Refusal.{status_of, text_of};

use crate::token::Token;
use httparse::spans::{HeaderSpan, RequestSpans};

/// Why a request is refused, whatever its form.
#[derive(Clone, Copy)]
pub(crate) enum Refusal {
    /// It does not show the token.
    Token,
    /// Nothing is asked at its path.
    Path,
    /// It is no POST.
    Method,
}

impl Refusal {
    /// Why a request with this head is refused, if it is. The spans are those that `http1` has found in the input.
    pub(crate) fn of(
        token: &Token,
        input: &[u8],
        head: &RequestSpans,
        spans: &[HeaderSpan],
    ) -> Option<Refusal>
        requires { IsRequestWithin input.now spans.now head.now }
        ensures { (found : RequestHead) → IsRequestAt input.now spans.now head.now found →
            result ≡ refusal_by token.now.credentials.items found }
    {
        let fields = &spans[..head.headers];
        Refusal::by(
            token,
            input,
            fields,
            head.path.of(input),
            head.method.of(input),
        )
    }

    /// The same, by these fields, this path and this method.
    fn by(
        token: &Token,
        input: &[u8],
        fields: &[HeaderSpan],
        path: &[u8],
        method: &[u8],
    ) -> Option<Refusal>
        requires { All (IsHeaderWithin (length input.now)) fields.now }
        ensures { result ≡ refusal_of token.now.credentials.items
            (map (header_bytes input.now) fields.now) path.now method.now }
    {
        if !shows_token(token, input, fields) {
            return Some(Refusal::Token);
        }
        if path != b"/ask".as_slice() {
            return Some(Refusal::Path);
        }
        if method != b"POST".as_slice() {
            return Some(Refusal::Method);
        }
        None
    }

    /// The status of the answer (RFC 9110 section 15).
    pub(crate) fn status(self) -> u16
        ensures { result ≡ status_of self }
    {
        match self {
            Refusal::Token => 401,
            Refusal::Path => 400,
            Refusal::Method => 405,
        }
    }

    /// The text of the answer.
    pub(crate) fn text(self) -> &'static str
        ensures { result.now ≡ text_of self }
    {
        match self {
            Refusal::Token => "wrong token\n",
            Refusal::Path => "ask at /ask\n",
            Refusal::Method => "only POST is answered\n",
        }
    }
}

/// Whether exactly one of these fields is Authorization, and shows the token.
#[tactic(auto, using(crate::proofs::Shown::first), unfolding(crate::proofs::Shown::shown_with))]
fn shows_token(token: &Token, input: &[u8], fields: &[HeaderSpan]) -> bool
    requires { All (IsHeaderWithin (length input.now)) fields.now }
    ensures { result ≡ shows_token token.now.credentials.items (map (header_bytes input.now) fields.now) }
{
    let mut shown = None;
    for field in fields {
        if is_authorization(field.name.of(input)) {
            if shown.is_some() {
                return false;
            }
            shown = Some(token.is_shown(field.value.of(input)));
        }
    }
    shown.unwrap_or(false)
}

/// Whether this is the name of the field Authorization.
fn is_authorization(name: &[u8]) -> bool
    ensures { result ≡ is_authorization name.now }
{
    name.eq_ignore_ascii_case(b"authorization")
}
