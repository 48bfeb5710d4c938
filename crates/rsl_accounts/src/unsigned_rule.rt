/// How an Access-Request without a Message-Authenticator is treated, of a client that need not
/// sign.
#[derive(Clone, Copy, Debug)]
pub enum UnsignedRule {
    /// Like any other, and its answer is unsigned too: versions 1 and 2.
    Trusted,
    /// It is dropped if it has a Proxy-State, and every answer to an Access-Request has a
    /// Message-Authenticator: version 3. So a forger of answers (CVE-2024-3596) gets no answer with
    /// a Proxy-State of his choice.
    Guarded,
}
