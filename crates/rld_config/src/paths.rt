ghost use Rattle.std.specs.Prelude.{◌≡◌, IfOk, option_map};
ghost use Rattle.std.specs.Path.{path_buf_bytes};
ghost use Rattle.rld_config.specs.Paths.{beside, control_path, paths_in, paths_of, token_path};

use crate::ask::AskSettings;
use crate::server::ServerFile;
use rsl_accounts::Text;
use rsl_wire::NoMemory;
use std::alloc::Global;
use std::path::{Path, PathBuf};

/// The name of the control socket in the state folder, unless the file says another.
const CONTROL: &str = "control";

/// The paths of a server. Relative paths of its file begin at the folder of the file.
#[derive(Drop)]
pub struct Paths {
    /// The account file.
    pub accounts: PathBuf,
    /// The state folder.
    pub state: PathBuf,
    /// The control socket.
    pub control: PathBuf,
    /// The file with the token of asks, if they come in.
    pub token: Option<PathBuf>,
}

impl Paths {
    /// The paths of a server's file of this name. It fails only if memory is refused.
    pub fn of(alloc: Global, file: &str, server: &ServerFile) -> Result<Paths, NoMemory>
        ensures { IfOk result (λ paths. paths_in paths ≡ paths_of file.now server.now) }
    {
        let accounts = beside(alloc, file, server.accounts.as_str())?;
        let state = beside(alloc, file, server.state.as_str())?;
        let control = control(alloc, file, &server.state, &server.control.path)?;
        let token = token(alloc, file, &server.ask)?;
        Ok(Paths {
            accounts,
            state,
            control,
            token,
        })
    }
}

/// A path of the file, resolved.
fn beside(alloc: Global, file: &str, path: &str) -> Result<PathBuf, NoMemory>
    ensures { IfOk result (λ found. path_buf_bytes found ≡ beside file.now path.now) }
{
    Ok(Path::new(file).with_file_name(alloc, path)?)
}

/// Where the file with the token of asks is, if they come in.
fn token(alloc: Global, file: &str, ask: &Option<AskSettings>) -> Result<Option<PathBuf>, NoMemory>
    ensures { IfOk result (λ found. option_map path_buf_bytes found ≡ token_path file.now ask.now) }
{
    match ask {
        Some(ask) => Ok(Some(beside(alloc, file, ask.token_file.as_str())?)),
        None => Ok(None),
    }
}

/// The path of the control socket.
fn control(
    alloc: Global,
    file: &str,
    state: &Text,
    socket: &Option<Text>,
) -> Result<PathBuf, NoMemory>
    ensures { IfOk result (λ found. path_buf_bytes found ≡ control_path file.now state.now socket.now) }
{
    match socket {
        Some(socket) => beside(alloc, file, socket.as_str()),
        None => Ok(beside(alloc, file, state.as_str())?.join(alloc, CONTROL)?),
    }
}
