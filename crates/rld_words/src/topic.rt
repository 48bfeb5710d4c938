ghost use Rattle.std.specs.Prelude.{◌≡◌, Some};
ghost use Rattle.rld_words.specs.Arguments.{takes, topic_of};

use std::fmt;

/// A command of the program, except those that print help or the version.
#[derive(Clone, Copy, Debug)]
pub enum Topic {
    /// Check a server's file.
    Check,
    /// Write a server's file and an account file.
    Init,
    /// Run a server.
    Run,
    /// Show the status of a running server.
    Status,
    /// Say whether it answers packets and records.
    Ready,
    /// Show what its accounts hold.
    Accounts,
    /// Show the links of an account, or of all.
    Sessions,
    /// Free the place of a session, or those of an access server's.
    Free,
    /// Have its access server disconnect a session.
    Disconnect,
    /// Ask it whether an account that was checked elsewhere has a place.
    Ask,
    /// Make it read its accounts again.
    Reload,
    /// Stop it.
    Stop,
    /// Show what an accept of an account has.
    Reply,
    /// Print the moves of logs.
    Lines,
    /// Print the sessions of the logs of a state folder.
    Export,
    /// Cut the books of a state folder to the present.
    Rebase,
}

impl Topic {
    /// The command of this name.
    pub fn of_word(word: &str) -> Option<Topic>
        ensures { result ≡ topic_of word.now }
    {
        match word {
            "check" => Some(Topic::Check),
            "init" => Some(Topic::Init),
            "run" => Some(Topic::Run),
            "status" => Some(Topic::Status),
            "ready" => Some(Topic::Ready),
            "accounts" => Some(Topic::Accounts),
            "sessions" => Some(Topic::Sessions),
            "free" => Some(Topic::Free),
            "disconnect" => Some(Topic::Disconnect),
            "ask" => Some(Topic::Ask),
            "reload" => Some(Topic::Reload),
            "stop" => Some(Topic::Stop),
            "reply" => Some(Topic::Reply),
            "lines" => Some(Topic::Lines),
            "export" => Some(Topic::Export),
            "rebase" => Some(Topic::Rebase),
            _ => None,
        }
    }

    /// Its name.
    pub fn word(self) -> &'static str
        ensures { topic_of result.now ≡ Some self }
    {
        match self {
            Topic::Check => "check",
            Topic::Init => "init",
            Topic::Run => "run",
            Topic::Status => "status",
            Topic::Ready => "ready",
            Topic::Accounts => "accounts",
            Topic::Sessions => "sessions",
            Topic::Free => "free",
            Topic::Disconnect => "disconnect",
            Topic::Ask => "ask",
            Topic::Reload => "reload",
            Topic::Stop => "stop",
            Topic::Reply => "reply",
            Topic::Lines => "lines",
            Topic::Export => "export",
            Topic::Rebase => "rebase",
        }
    }

    /// Whether it takes this number of words after its name, flags and their values among them. One of the words is
    /// the name of a file, and of `init` that of a folder; `lines` takes the names of several files. `free` and
    /// `disconnect` take what `sessions` prints as one word or as four.
    pub fn takes(self, words: usize) -> bool
        ensures { result ≡ takes self words }
    {
        match self {
            Topic::Lines | Topic::Sessions => words >= 1,
            Topic::Status => 1 <= words && words <= 4,
            Topic::Accounts => 1 <= words && words <= 5,
            Topic::Reply => words == 2,
            Topic::Reload => words == 1 || words == 3,
            Topic::Free | Topic::Disconnect | Topic::Ask => words >= 2,
            Topic::Export => 1 <= words && words <= 6,
            Topic::Check | Topic::Init | Topic::Run | Topic::Ready | Topic::Stop | Topic::Rebase =>
                words == 1,
        }
    }

    /// Its usage.
    fn usage(self) -> &'static str {
        match self {
            Topic::Check => "radlimitd check FILE",
            Topic::Init => "radlimitd init FOLDER",
            Topic::Run => "radlimitd run FILE",
            Topic::Status => "radlimitd status [--timeout SECONDS] [--json] FILE",
            Topic::Ready => "radlimitd ready FILE",
            Topic::Accounts =>
                "radlimitd accounts [--timeout SECONDS] [--json] [--held | --full] FILE",
            Topic::Sessions =>
                "radlimitd sessions [--timeout SECONDS] [--json] [NAME | FLAG WORD ..] FILE",
            Topic::Free => "radlimitd free NAME CLIENT NAS SESSION FILE",
            Topic::Disconnect => "radlimitd disconnect NAME CLIENT NAS SESSION FILE",
            Topic::Ask => "radlimitd ask NAME FIELD=VALUE.. FILE",
            Topic::Reload => "radlimitd reload [--timeout SECONDS] FILE",
            Topic::Stop => "radlimitd stop FILE",
            Topic::Reply => "radlimitd reply NAME FILE",
            Topic::Lines => "radlimitd lines FILE..",
            Topic::Export => "radlimitd export [--csv] [--since MOMENT] [--until MOMENT] FILE",
            Topic::Rebase => "radlimitd rebase FILE",
        }
    }

    /// The form of its words that name a session or an account, if it has any.
    pub(crate) fn form(self) -> &'static str {
        match self {
            Topic::Free =>
                "; NAS is nas=NAME, nas-address=DIGITS or unnamed, as `sessions` prints it; all of \
                 an access server: radlimitd free [--yes] --nas NAS CLIENT FILE",
            Topic::Disconnect =>
                "; NAS is nas=NAME, nas-address=DIGITS or unnamed, as `sessions` prints it",
            Topic::Sessions =>
                "; NAME is written as `accounts` prints it; FLAG WORD is --nas NAS, --client \
                 CLIENT, --state STATE or --older SECONDS",
            Topic::Reply => "; NAME is written as `accounts` prints it",
            Topic::Export =>
                "; MOMENT is 2026-11-26, '2026-11-26 18:20:00' or seconds since 1970, and the \
                 first is the lower",
            Topic::Ask => "; FIELD is key, nas_identifier, nas_ip_address or calling_station_id",
            Topic::Check
            | Topic::Init
            | Topic::Run
            | Topic::Status
            | Topic::Ready
            | Topic::Accounts
            | Topic::Reload
            | Topic::Stop
            | Topic::Lines
            | Topic::Rebase => "",
        }
    }

    /// What it does and prints, with an example and its exit statuses.
    pub fn help(self) -> &'static str {
        match self {
            Topic::Check => CHECK,
            Topic::Init => INIT,
            Topic::Run => RUN,
            Topic::Status => STATUS,
            Topic::Ready => READY,
            Topic::Accounts => ACCOUNTS,
            Topic::Sessions => SESSIONS,
            Topic::Free => FREE,
            Topic::Disconnect => DISCONNECT,
            Topic::Ask => ASK,
            Topic::Reload => RELOAD,
            Topic::Stop => STOP,
            Topic::Reply => REPLY,
            Topic::Lines => LINES,
            Topic::Export => EXPORT,
            Topic::Rebase => REBASE,
        }
    }
}

impl fmt::Display for Topic {
    /// Writes the usage.
    fn fmt<W: fmt::Write>(&self, f: &mut fmt::Formatter<W>) -> fmt::Result {
        f.write_str(self.usage())
    }
}

/// What `radlimitd version` prints, with an example and its exit statuses.
pub const VERSION_HELP: &str = "\
radlimitd version

Prints the name and the version of the program. So do `radlimitd --version` and `radlimitd -V`.

    radlimitd version

Exit status: 0 it is printed; 2 standard output cannot be written; 3 no memory.
";

const CHECK: &str = "\
radlimitd check FILE

Says what is wrong with the server's file FILE, or with the account file that it names: each fault, 20 at most, with
the file and the line and column, or the table and key. If both are right it prints `ok`, and what to know of them.

    radlimitd check /etc/radlimit/radlimitd.toml

Exit status: 0 both are right; 1 one is wrong or cannot be read; 2 standard output cannot be written; 3 no memory.
";

const INIT: &str = "\
radlimitd init FOLDER

Writes a server's file and an account file into the folder FOLDER, which is made if it is not there, and says how to go
on. The files say what each line is for. The one client has a random secret, and both files are for their owner alone. A
folder that has one of the files already is refused: nothing is written over.

    radlimitd init radlimit

Exit status: 0 both are written; 1 the words are wrong; 2 the folder has one of the files, or they cannot be written; 3 no
memory.
";

const RUN: &str = "\
radlimitd run FILE

Runs the server of the file FILE, in the foreground. It says on standard error that it has started, a line for each
request that it refuses, and what goes wrong. A kill at any moment loses nothing that it has answered: start it again,
and it goes on.

    radlimitd run /etc/radlimit/radlimitd.toml

Exit status: 0 it was asked to end; 1 a file or the state folder is wrong; 2 a file, a port or a call of the system
failed; 3 no memory; 4 the disk took a write and could not say that it has it.
";

const STATUS: &str = "\
radlimitd status [--timeout SECONDS] [--json] FILE

Prints what the running server of the file FILE is and does: its version, whether it is proved, since when it runs and
whether it records; then numbers, a line each; then what it answered lately, how all requests ended, and the fullest
accounts. --json prints one object of JSON for scripts. It waits as long as the server works on it, or SECONDS.

    radlimitd status --json /etc/radlimit/radlimitd.toml

Exit status: 0 it is printed; 1 FILE is wrong; 2 no server answers; 3 no memory; 5 no answer within SECONDS.
";

const READY: &str = "\
radlimitd ready FILE

Says within a second whether the running server of the file FILE answers packets and records: for checks. It prints `ok`,
or `clock behind` where no deadline passes, or says on standard error why not.

    radlimitd ready /etc/radlimit/radlimitd.toml

Exit status: 0 it does both; 1 it does not, or FILE is wrong; 2 standard output cannot be written; 3 no memory.
";

const ACCOUNTS: &str = "\
radlimitd accounts [--timeout SECONDS] [--json] [--held | --full] FILE

Prints what each account of the running server of the file FILE holds, a line each, in the order of the account file:
with --held those that hold a place, with --full those that have no free place. --json prints an object of JSON a line.
It waits as long as the server works on it, or SECONDS.

    radlimitd accounts --full /etc/radlimit/radlimitd.toml

Exit status: 0 they are printed; 1 FILE is wrong; 2 no server answers; 3 no memory; 5 no answer within SECONDS.
";

const SESSIONS: &str = "\
radlimitd sessions [--timeout SECONDS] [--json] [NAME | FLAG WORD ..] FILE

Prints the links of the account NAME, a line each, in the order in which they opened. The first four words of a line
name the session: `free` takes them. --json prints an object of JSON a line, in which `free` has these words. It waits as
long as the server works on it, or SECONDS.

Without NAME it prints those of all accounts, in the order of the account file, each account as it is when its turn
comes. These narrow it: `--nas NAS`, as `free` takes it; `--client CLIENT`, an IPv4 address; `--state STATE`, which is
`reserved`, `live` or `stale`; `--older SECONDS`, for those last touched that long ago or longer. A NAME that begins
with -- has \\x2d for its first octet.

    radlimitd sessions nemo /etc/radlimit/radlimitd.toml
    radlimitd sessions --client 192.0.2.7 --state stale /etc/radlimit/radlimitd.toml

Exit status: 0 they are printed; 1 a word or FILE is wrong; 2 no server answers, it has no such account, or its accounts
change meanwhile; 3 no memory; 5 no answer within SECONDS.
";

const FREE: &str = "\
radlimitd free NAME CLIENT NAS SESSION FILE

Frees the place of a session that its access server has forgotten, by the Stop that it would have sent. NAME is the
account; CLIENT the client's IPv4 address; NAS what the access server calls itself: `nas=` and its NAS-Identifier,
`nas-address=` and the hexadecimal digits of its NAS-IP-Address or NAS-IPv6-Address, or `unnamed`; SESSION the
Acct-Session-Id. They are the first four words of a line of `sessions`. It prints `freed`, or says `no such session`.

`radlimitd free [--yes] --nas NAS CLIENT FILE` frees those of all sessions and reservations of an access server, by the
Accounting-Off that it would have sent. It lists them first, and asks at the terminal for `yes`, unless --yes says it.

`radlimitd free --disconnect NAME CLIENT NAS SESSION FILE` is `radlimitd disconnect`. A word that is a flag to `free` is
written with \\x2d for its first octet.

    radlimitd free nemo 192.0.2.7 nas=pop1 0000A1F3 /etc/radlimit/radlimitd.toml
    radlimitd free --nas nas=pop1 192.0.2.7 /etc/radlimit/radlimitd.toml

Exit status: 0 freed, or nobody said yes to it; 1 the words cannot be a session, FILE is wrong, or nobody can be asked; 2
no server answers, it refuses, or no memory; 3 no such session is held. With --disconnect also 5, as `disconnect`.
";

const DISCONNECT: &str = "\
radlimitd disconnect NAME CLIENT NAS SESSION FILE

Has the access server end a session at once, and then frees its place: it is sent a Disconnect-Request (RFC 5176), three
times at most. The account file has to have `disconnect` of the client. The words are those of `free`. It prints
`disconnected`. Where the access server refuses, or does not answer for three seconds, nothing has changed.

    radlimitd disconnect nemo 192.0.2.7 nas=pop1 0000A1F3 /etc/radlimit/radlimitd.toml

Exit status: 0 ended and freed; 1 the words cannot be a session, or FILE is wrong; 2 the access server refuses, the server
does, no server answers, or no memory; 3 no such session is held; 5 the access server does not answer.
";

const ASK: &str = "\
radlimitd ask NAME FIELD=VALUE.. FILE

Asks the running server of the file FILE for a place of the account NAME, which whoever asks has checked himself, as the
client of `[ask]` in FILE. FIELD is `key`, which makes a repeat a repeat; `nas_identifier`, `nas_ip_address` or both, for
the access server; and `calling_station_id`. It prints what the accept carries, a line each: the Class belongs into the
session's accounting.

    radlimitd ask nemo key=portal-4711 nas_identifier=pop1 /etc/radlimit/radlimitd.toml

Exit status: 0 there is a place; 1 a word is wrong, or FILE is; 2 there is none, or a field is wrong, or no server answers;
3 no memory.
";

const RELOAD: &str = "\
radlimitd reload [--timeout SECONDS] FILE

Has the running server of the file FILE read its account file anew, and go on by what it says. Sessions go on by the
names of accounts and the addresses of clients. A wrong account file is refused, and the server goes on as before. Look at
it first with `radlimitd check`. It waits as long as the server works on it, or SECONDS; the server goes on with it then.

    radlimitd reload /etc/radlimit/radlimitd.toml

Exit status: 0 it goes on by it; 1 FILE is wrong; 2 no server answers, or it refuses the account file; 3 no memory; 5 no
answer within SECONDS.
";

const STOP: &str = "\
radlimitd stop FILE

Ends the running server of the file FILE.

    radlimitd stop /etc/radlimit/radlimitd.toml

Exit status: 0 it ends; 1 FILE is wrong; 2 no server answers; 3 no memory.
";

const REPLY: &str = "\
radlimitd reply NAME FILE

Prints what an accept of the account NAME has, by the account file that the server's file FILE names: a line an attribute,
as a list `reply` of the account file has it, and after a tab its octets in hexadecimal digits. What the server sets comes
first, but without Class and Message-Authenticator, whose values are of each login; then what the account's profile has,
and then the account's own. No server needs to run.

    radlimitd reply nemo /etc/radlimit/radlimitd.toml

Exit status: 0 it is printed; 1 NAME is no name, or a file is wrong; 2 there is no such account; 3 no memory.
";

const LINES: &str = "\
radlimitd lines FILE..

Prints each change that these logs of a state folder or of its archive have, with what was decided. It only reads, and may
run beside the server.

    radlimitd lines /var/lib/radlimit/log-1

Exit status: 0 all is printed; 1 a file cannot be read, or is damaged, and its first wrong place is named; 2 standard output
cannot be written; 3 no memory.
";

const EXPORT: &str = "\
radlimitd export [--csv] [--since MOMENT] [--until MOMENT] FILE

Prints each session that the logs of the server of the file FILE have, with those of the archive, as an object of JSON a
line: its account and access server, when it began, was last seen and ended, in seconds since 1970, and why: `stop`, `off`,
`silent`, `yielded`, or `changed` if the account file went on without it. A session that is still held has no end; one that
began before the first log has no beginning. --csv prints a record of CSV a line, with dates of UTC. --since and --until
leave what was held at some moment from the one on and before the other: MOMENT is a date of UTC, as 2026-11-26 or
'2026-11-26 18:20:00', or seconds since 1970. It only reads, and may run beside the server.

    radlimitd export --csv --since 2026-11-01 --until 2026-12-01 /etc/radlimit/radlimitd.toml

Exit status: 0 all is printed; 1 a log cannot be read, or is damaged, and its first wrong place is named, or FILE is wrong; 2
standard output cannot be written; 3 no memory.
";

const REBASE: &str = "\
radlimitd rebase FILE

Cuts the history of the server of the file FILE to the present, which a clock that was ahead has led past it. Stop the
server, set the clock right, run this, and start the server again.

    radlimitd rebase /etc/radlimit/radlimitd.toml

Exit status: 0 it is cut; 1 a file or the state folder is wrong; 2 the server runs, or a file cannot be had; 3 no memory; 4
the disk took a write and could not say that it has it.
";
