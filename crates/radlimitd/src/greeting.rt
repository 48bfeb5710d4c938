//! The first lines of a server that runs, on standard error: its greeting.

use rld_commands::Fault;
use rld_config::{Paths, ServerFile, Warning};
use rld_look::Build;
use rld_start::Found;
use rld_text::push_build_line;
use rsl_accounts::{Config, UnsignedRule};
use rsl_event::Source;
use rsl_port::socket_addr;
use std::alloc::Global;
use std::fmt;
use std::net::SocketAddr;

/// What a server says of itself before what its start has found: where it answers, its files, its page and its
/// accounts. It prints as lines, the last one with its line feed too.
#[derive(Clone, Copy)]
pub(crate) struct FirstLines<'a> {
    /// The server's file, as it was named.
    pub(crate) name: &'a str,
    /// The paths that it has.
    pub(crate) paths: &'a Paths,
    /// What it says.
    pub(crate) server: &'a ServerFile,
    /// The accounts and clients.
    pub(crate) config: &'a Config,
}

impl FirstLines<'_> {
    /// Where packets are answered, a line for each table `listen`.
    fn write_listens<W: fmt::Write>(&self, f: &mut fmt::Formatter<W>) -> fmt::Result {
        for listen in self.server.listens.as_slice() {
            let auth = SocketAddr::new(listen.address, listen.auth);
            let acct = SocketAddr::new(listen.address, listen.acct);
            writeln!(f, "answers at {auth}, accounting at {acct}")?;
        }
        Ok(())
    }

    /// Where the page is, and where asks come in, if they do.
    fn write_pages<W: fmt::Write>(&self, f: &mut fmt::Formatter<W>) -> fmt::Result {
        if let Some(web) = &self.server.web {
            let (address, port) = (web.address, web.port);
            let place = socket_addr(Source { address, port });
            writeln!(f, "page at http://{place}/")?;
        }
        if let Some(ask) = &self.server.ask {
            let (address, port) = (ask.address, ask.port);
            let place = socket_addr(Source { address, port });
            writeln!(f, "asks at http://{place}/ask")?;
        }
        Ok(())
    }
}

impl fmt::Display for FirstLines<'_> {
    fn fmt<W: fmt::Write>(&self, f: &mut fmt::Formatter<W>) -> fmt::Result {
        let paths = self.paths;
        self.write_listens(f)?;
        writeln!(f, "files {} and {}", self.name, paths.accounts.as_str())?;
        writeln!(f, "state in {}", paths.state.as_str())?;
        writeln!(f, "control at {}", paths.control.as_str())?;
        self.write_pages(f)?;
        let (accounts, clients) = (self.config.accounts(), self.config.clients());
        writeln!(f, "accounts {accounts}, clients {clients}")
    }
}

/// The message of a start of this build: the first lines, what left the archive for it, what was found, and a
/// line for each client that need not sign, under a guard.
pub(crate) fn greeting_of(
    alloc: Global,
    build: &Build,
    lines: &FirstLines<'_>,
    room: &str,
    found: &Found,
) -> Result<String, Fault> {
    let mut octets = Vec::new(alloc);
    push_build_line(&mut octets, build)?;
    let mut text = String::from_utf8(octets).unwrap_or(String::new(alloc));
    text.push_str(format!(in alloc; "{lines}{room}")?.as_str())?;
    text.push_str(found.greeting(alloc)?.as_str())?;
    push_not_signed(alloc, &mut text, lines.config)?;
    Ok(text)
}

/// Writes a line for each client that need not sign, under a guard.
fn push_not_signed(alloc: Global, text: &mut String, config: &Config) -> Result<(), Fault> {
    if let UnsignedRule::Guarded = config.unsigned_rule() {
        for number in 0..config.clients() {
            let client = config.client_at(number);
            if !client.signed {
                let warning = Warning::NotSigned(client.address);
                text.push_str(format!(in alloc; "\n{warning}")?.as_str())?;
            }
        }
    }
    Ok(())
}
