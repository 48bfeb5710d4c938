//! The account file: TOML that gives a `Config`. `specs/File.antt` has what each version of a file
//! means, and the order of the checks. All of it is over the table that the kit's `toml` parses,
//! and rests on that library's statements. It promises:
//! - What is read is the configuration of the file's text; a fault is its first, or that memory was
//!   refused (`read_config`: `ok`, `fault`).
//! - The octets that a reader gives, at most 16,777,216, give the configuration of their text; too
//!   long comes exactly where there are more (`read_config_from`; `config_of`).
//! - The text of a file or stream is all that its reader gives, unless there are too many octets
//!   (`read_text`: `read`, `short`).
//!
//! The last two speak of readers whose contents are known, as those over memory, and not of a file.
//! `read_config_file` opens one and calls `read_config_from`: it has no clause. By tests alone: the
//! texts of the faults.
#![tactic(auto)]

mod file;
mod file_fault;
mod file_reader;
mod profile;
mod replies;
mod table;
mod text_fault;
mod text_file;

pub use file_fault::FileFault;
pub use file_reader::{read_config, read_config_file, read_config_from};
pub use text_fault::TextFault;
pub use text_file::{read_file, read_text};
