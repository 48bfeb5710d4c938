//! Where the paths of a server's file lead to. The first field of a row is the name of the file.

use crate::server_file::read;
use rld_config::Paths;
use std::alloc::Global;
use std::test::Fail;
use test_rows::{Plain, Subject, check_rows, printed};

/// The paths of a server.
struct Places;

impl Subject for Places {
    fn found(&self, alloc: Global, fields: &[&str]) -> Result<String, Fail> {
        let [name, lines @ ..] = fields else {
            return Err("no name of a file")?;
        };
        let file = read(alloc, lines)?;
        let paths = Paths::of(alloc, name, &file)?;
        let (accounts, state) = (paths.accounts.as_str(), paths.state.as_str());
        let control = Plain(paths.control.as_str());
        match &paths.token {
            Some(token) => printed(
                alloc,
                &(
                    Plain(accounts),
                    Plain(state),
                    control,
                    Plain(token.as_str()),
                ),
            ),
            None => printed(alloc, &(Plain(accounts), Plain(state), control)),
        }
    }
}

#[test]
fn a_relative_path_starts_in_the_folder_of_the_file(rt: HostRuntime) -> Result<(), Fail> {
    let rows = r#"
        where it runs | d.toml | accounts = "a" | state = "s" | (a, s, s/control)
        another folder | etc/d.toml | accounts = "a" | state = "../s" | (etc/a, etc/../s, etc/../s/control)
        from the root | /etc/d.toml | accounts = "a" | state = "s" | (/etc/a, /etc/s, /etc/s/control)
        paths from the root | etc/d.toml | accounts = "/a" | state = "/var/s/" | (/a, /var/s/, /var/s/control)
        a socket | etc/d.toml | accounts = "a" | state = "s" | [control] | socket = "c" | (etc/a, etc/s, etc/c)
        a token | etc/d.toml | accounts = "a" | state = "s" | [ask] | port = 1 | token_file = "t" | client = "192.0.2.1" | (etc/a, etc/s, etc/s/control, etc/t)
        a socket from the root | d.toml | accounts = "a" | state = "s" | [control] | socket = "/run/c" | (a, s, /run/c)
    "#;
    check_rows(&rt, &Places, rows)
}
