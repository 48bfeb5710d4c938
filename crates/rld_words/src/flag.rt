ghost use Rattle.std.specs.Prelude.{◌≡◌};
ghost use Rattle.rld_words.specs.Flags.{flag_of, has_value, is_flag_of, is_same, number_of};

use crate::topic::Topic;

/// A flag of a command.
#[derive(Clone, Copy)]
pub enum Flag {
    /// `--timeout SECONDS`: how long an answer is waited for.
    Timeout,
    /// `--json`: print JSON.
    Json,
    /// `--held`: of accounts, those that hold a place.
    Held,
    /// `--full`: of accounts, those that have no free place.
    Full,
    /// `--nas NAS`: of an access server.
    Nas,
    /// `--client CLIENT`: of a client.
    Client,
    /// `--state STATE`: of sessions, those of a state.
    State,
    /// `--older SECONDS`: of sessions, those last touched that long ago.
    Older,
    /// `--yes`: whoever frees all sessions of an access server is not asked.
    Yes,
    /// `--disconnect`: the access server is to end the session first.
    Disconnect,
    /// `--csv`: print CSV.
    Csv,
    /// `--since MOMENT`: not what ended before.
    Since,
    /// `--until MOMENT`: not what began then or later.
    Until,
}

impl Flag {
    /// The flag of a command that this word is. `None` where it is none of the command's.
    pub(crate) fn of_word(topic: Topic, word: &str) -> Option<Flag>
        ensures { result ≡ flag_of topic word.now }
    {
        let flag = match word {
            "--timeout" => Flag::Timeout,
            "--json" => Flag::Json,
            "--held" => Flag::Held,
            "--full" => Flag::Full,
            "--nas" => Flag::Nas,
            "--client" => Flag::Client,
            "--state" => Flag::State,
            "--older" => Flag::Older,
            "--yes" => Flag::Yes,
            "--disconnect" => Flag::Disconnect,
            "--csv" => Flag::Csv,
            "--since" => Flag::Since,
            "--until" => Flag::Until,
            _ => return None,
        };
        if flag.is_of(topic) { Some(flag) } else { None }
    }

    /// Its number, in the order above.
    fn number(self) -> u8
        ensures { result ≡ number_of self }
    {
        match self {
            Flag::Timeout => 0,
            Flag::Json => 1,
            Flag::Held => 2,
            Flag::Full => 3,
            Flag::Nas => 4,
            Flag::Client => 5,
            Flag::State => 6,
            Flag::Older => 7,
            Flag::Yes => 8,
            Flag::Disconnect => 9,
            Flag::Csv => 10,
            Flag::Since => 11,
            Flag::Until => 12,
        }
    }

    /// Whether it is another one.
    pub(crate) fn is(self, other: Flag) -> bool
        ensures { result ≡ is_same self other }
    {
        self.number() == other.number()
    }

    /// Whether a command has it.
    fn is_of(self, topic: Topic) -> bool
        ensures { result ≡ is_flag_of topic self }
    {
        match self {
            Flag::Timeout => matches!(
                topic,
                Topic::Status | Topic::Accounts | Topic::Sessions | Topic::Reload
            ),
            Flag::Json => matches!(topic, Topic::Status | Topic::Accounts | Topic::Sessions),
            Flag::Held | Flag::Full => matches!(topic, Topic::Accounts),
            Flag::Nas => matches!(topic, Topic::Sessions | Topic::Free),
            Flag::Client | Flag::State | Flag::Older => matches!(topic, Topic::Sessions),
            Flag::Yes | Flag::Disconnect => matches!(topic, Topic::Free),
            Flag::Csv | Flag::Since | Flag::Until => matches!(topic, Topic::Export),
        }
    }

    /// Whether a word after it is its value.
    pub(crate) fn has_value(self) -> bool
        ensures { result ≡ has_value self }
    {
        match self {
            Flag::Timeout
            | Flag::Nas
            | Flag::Client
            | Flag::State
            | Flag::Older
            | Flag::Since
            | Flag::Until => true,
            Flag::Json | Flag::Held | Flag::Full | Flag::Yes | Flag::Disconnect | Flag::Csv => {
                false
            }
        }
    }
}
