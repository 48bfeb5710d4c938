ghost use Rattle.std.specs.Prelude.{◌≡◌, option_map};
ghost use Rattle.rld_control.specs.Cause.{cause_name};

/// What an Error-Cause says, in the words of RFC 5176 section 3.5; none of a number that it does not
/// have.
pub fn cause_name(cause: u32) -> Option<&'static str>
    ensures { option_map (λ name. name.now) result ≡ cause_name cause }
{
    match cause {
        201 => Some("residual session context removed"),
        202 => Some("invalid EAP packet (ignored)"),
        401 => Some("unsupported attribute"),
        402 => Some("missing attribute"),
        403 => Some("NAS identification mismatch"),
        404 => Some("invalid request"),
        405 => Some("unsupported service"),
        406 => Some("unsupported extension"),
        407 => Some("invalid attribute value"),
        501 => Some("administratively prohibited"),
        502 => Some("request not routable (proxy)"),
        503 => Some("session context not found"),
        504 => Some("session context not removable"),
        505 => Some("other proxy processing error"),
        506 => Some("resources unavailable"),
        507 => Some("request initiated"),
        508 => Some("multiple session selection unsupported"),
        _ => None,
    }
}
