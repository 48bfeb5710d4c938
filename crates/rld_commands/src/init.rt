//! `radlimitd init`: the files of a new server.

use crate::fault::Fault;
use std::alloc::Global;
use std::fs::{self, DirBuilder, File, Files, OpenOptions};
use std::io::{self, ErrorKind, Read, Write};
use std::os::unix::fs::{DirBuilderExt, OpenOptionsExt};

/// The modes of a folder and of a file for their owner alone.
const FOLDER_MODE: u32 = 0o700;

const FILE_MODE: u32 = 0o600;

/// The system's source of random octets.
const RANDOM: &str = "/dev/urandom";

/// The random octets of a secret, which is twice as many hexadecimal digits.
const SECRET_LEN: usize = 16;

/// Writes the files of a new server into a folder, which is made if it is missing, and prints the
/// next steps. `Taken` comes if one of the files exists, and `Unwritten` if one cannot be written:
/// then no new file is left.
pub(crate) fn init<F: Files<File = File>, W: Write>(
    files: &F,
    alloc: Global,
    folder: &str,
    writer: &mut W,
) -> Result<(), Fault> {
    make_folder(files, alloc, folder)?;
    let server = format!(in alloc; "{folder}/radlimitd.toml")?;
    let accounts = format!(in alloc; "{folder}/accounts.toml")?;
    write_files(files, alloc, server.as_str(), accounts.as_str())?;
    writeln!(
        writer,
        "written: {server} {accounts}\nnext:\n    radlimitd run {server}\n    radlimitd status {server}"
    )?;
    Ok(writer.flush()?)
}

/// Writes a server's file and an account file. After a fault neither is left.
fn write_files<F: Files<File = File>>(
    files: &F,
    alloc: Global,
    server: &str,
    accounts: &str,
) -> Result<(), Fault> {
    let secret = secret(files, alloc)?;
    let text = format!(in alloc; "{ACCOUNTS_HEAD}{secret}{ACCOUNTS_END}")?;
    write_new(files, alloc, accounts, text.as_str())?;
    match write_new(files, alloc, server, SERVER_FILE) {
        Ok(()) => Ok(()),
        Err(fault) => {
            let _ = fs::remove_file(files, accounts);
            Err(fault)
        }
    }
}

/// Makes a folder if it is missing.
fn make_folder<F: Files>(files: &F, alloc: Global, path: &str) -> Result<(), Fault> {
    match DirBuilder::new().mode(FOLDER_MODE).create(files, path) {
        Ok(()) => Ok(()),
        Err(error) if error.kind() == ErrorKind::AlreadyExists => Ok(()),
        Err(error) => unwritten(alloc, path, &error),
    }
}

/// A random secret, in hexadecimal digits.
fn secret<F: Files<File = File>>(files: &F, alloc: Global) -> Result<String, Fault> {
    let mut octets = [0u8; SECRET_LEN];
    File::open(files, RANDOM)?.read_exact(&mut octets)?;
    let mut secret = String::new(alloc);
    for octet in octets.as_slice() {
        let digits = format!(in alloc; "{octet:02x}")?;
        secret.push_str(digits.as_str())?;
    }
    Ok(secret)
}

/// Writes a new file. If it cannot be written whole, it is removed.
fn write_new<F: Files<File = File>>(
    files: &F,
    alloc: Global,
    path: &str,
    text: &str,
) -> Result<(), Fault> {
    let mut file = match OpenOptions::new()
        .write(true)
        .create_new(true)
        .mode(FILE_MODE)
        .open(files, path)
    {
        Ok(file) => file,
        Err(error) if error.kind() == ErrorKind::AlreadyExists => {
            return Err(Fault::Taken(String::from_str(alloc, path)?));
        }
        Err(error) => return unwritten(alloc, path, &error),
    };
    match file.write_all(text.as_bytes()) {
        Ok(()) => Ok(()),
        Err(error) => {
            let _ = fs::remove_file(files, path);
            unwritten(alloc, path, &error)
        }
    }
}

/// The fault of a file or folder that cannot be written.
fn unwritten(alloc: Global, path: &str, error: &io::Error) -> Result<(), Fault> {
    match error.kind() {
        ErrorKind::OutOfMemory => Err(Fault::NoMemory),
        _ => Err(Fault::Unwritten(String::from_str(alloc, path)?)),
    }
}

const SERVER_FILE: &str =
    r#"# The file of a radlimitd: who it serves and where it keeps its history. A path that does not begin with / starts in the
# folder of this file. radlimitd.conf(5) has every key.

accounts = "accounts.toml"      # who may ask, and who may log in: radlimit-accounts(5)
state = "state"                 # the folder that the server keeps its history in; it makes it

# When the disk has what was answered: "always", before the answer goes out; "second", once a second; "never", when the
# system likes. Only a loss of power tells them apart.
sync = "always"

# How long old logs are kept, for audit: a number of days, "keep" or "none".
archive = 7

# How many megabytes they may have. Where they have more the oldest go, and so they do where the disk is full.
archive_megabytes = 2000

# Where requests come to: up to 16 of these tables.
[[listen]]
address = "127.0.0.1"           # the one that your access servers are set to; "0.0.0.0" is all of IPv4, "::" all
auth = 1812                     # UDP ports: authentication
acct = 1813                     # and accounting

# A page and metrics. They have no password: let nobody but yourself reach them.
# [web]
# address = "127.0.0.1"
# port = 8612
"#;

/// The account file, up to the secret.
const ACCOUNTS_HEAD: &str =
    r#"# The account file of a radlimitd: who may ask, and who may log in. Secrets and passwords stand here in clear text: let
# nobody else read this file. radlimit-accounts(5) has every key.

# Times have defaults, which that page says.
version = 3                                   # of this format
# interim_secs = 300                          # an accept asks for an Interim-Update so often; at most half of live_secs, 900
# station = true                              # a login ends the session that its device (Calling-Station-Id) still holds
# delay_time = true                           # a restart that is told late ends only what began before it

# An access server: up to 256 of these tables. This one is this machine.
[[client]]
address = "127.0.0.1"                         # its IPv4 address, as packets from it have it
secret = ""#;

/// The account file after the secret.
const ACCOUNTS_END: &str = r#""  # what it shares with this server, at random
# signed = false                              # only for one that sends no Message-Authenticator; true if left out

# An account: up to 16,384 of these tables. This one is an example.
[[account]]
name = "nemo"                                 # the whole User-Name: 1 to 64 visible characters of ASCII
password = "arctangent"                       # 1 to 128 octets
places = 1                                    # the sessions that it may have at once, 0 to 64
# ports = 2                                   # links of one multilink bundle that share a place, 1 to 16; 1 if left out
# disabled = true                             # rejects its logins; sessions that go on count until they end
"#;
