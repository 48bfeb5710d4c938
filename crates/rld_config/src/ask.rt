use rsl_accounts::Text;

/// Where asks of whoever checks logins himself come in over HTTP, and as whose.
#[derive(Drop)]
pub struct AskSettings {
    /// An IPv4 address of this machine: 127.0.0.1 if the file does not say it.
    pub address: [u8; 4],
    /// The TCP port, at least 1.
    pub port: u16,
    /// The path of the file that has the token which whoever asks has to show.
    pub token_file: Text,
    /// The address of the client whose access servers these are.
    pub client: [u8; 4],
}
