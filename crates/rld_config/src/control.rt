use rsl_accounts::Text;

/// The control socket of the running server, and who may use it.
#[derive(Drop)]
pub struct ControlSocket {
    /// The path of the socket, if the file has one.
    pub path: Option<Text>,
    /// The mode of the socket: 0o600 unless the file says 0o660 or 0o666. Whoever may write to it
    /// may ask.
    pub mode: u16,
    /// The name of the group of the socket, 1 to 32 octets, if the file has one.
    pub group: Option<Text>,
}
