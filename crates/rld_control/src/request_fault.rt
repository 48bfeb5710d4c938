/// Why there is no request.
#[derive(Clone, Copy, Debug)]
pub enum RequestFault {
    /// The user's name is empty or has over 253 octets.
    UserName,
    /// The access server's identifier is empty or has over 253 octets, or its address has neither 4
    /// octets nor 16.
    ServerName,
    /// The session's id is empty or has over 253 octets.
    SessionId,
    /// Memory was refused.
    NoMemory,
}
