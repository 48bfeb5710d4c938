ghost use Rattle.std.specs.Prelude.{◌≡◌, ◌↔◌, IsTrue};
ghost use Rattle.rld_state.specs.Due.{IsDue, just_begun, put_off, second_later};

/// The most moves of a generation before the next one begins.
const MOST_MOVES: u64 = 1_000_000;

/// The most seconds of a generation before the next one begins.
const MOST_SECS: u64 = 600;

/// How long the next generation waits after a failed begin, in seconds.
const PAUSE_SECS: u64 = 60;

/// How long the generation of a running server has lasted, and how long the next one still has to
/// wait.
#[derive(Clone, Copy)]
pub struct RollTimer {
    seconds: u64,
    pause: u64,
}

impl RollTimer {
    /// The timer of a generation that has just begun.
    pub fn new() -> RollTimer
        ensures { result ≡ just_begun }
    {
        RollTimer {
            seconds: 0,
            pause: 0,
        }
    }

    /// Lets a second pass.
    pub fn pass_second(&mut self)
        ensures { self.new ≡ second_later self.old }
    {
        self.seconds = self.seconds.saturating_add(1);
        self.pause = self.pause.saturating_sub(1);
    }

    /// Whether the next generation is due, if this one has `moves` moves.
    pub fn is_due(&self, moves: u64) -> bool
        ensures { IsTrue result ↔ IsDue self.now moves }
    {
        self.pause == 0 && (moves >= MOST_MOVES || self.seconds >= MOST_SECS)
    }

    /// Notes that the next generation could not begin: it is tried again a minute later.
    pub fn put_off(&mut self)
        ensures { self.new ≡ put_off self.old }
    {
        self.pause = PAUSE_SECS;
    }
}
