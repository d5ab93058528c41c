//! The names of commands, and of the options and flags that they have.

ghost use Rattle.std.specs.Prelude.{◌≡◌};
ghost use Rattle.command_words.specs.Line as line;
ghost use Rattle.command_words.specs.Words as words;

/// The name of a command.
#[derive(Clone, Copy, Debug)]
pub(crate) enum Verb {
    Check,
    Eval,
    Run,
    Sim,
    Build,
    Exec,
    Gen,
    Selfrun,
}

/// An option or a flag.
#[derive(Clone, Copy, Debug)]
pub(crate) enum Setting {
    Workers,
    Fuel,
    Frames,
    Script,
    Log,
    Report,
    Steps,
}

impl Verb {
    /// The command of this name.
    pub(crate) fn named(word: &str) -> Option<Verb>
        ensures { result ≡ words.verb_named word.now }
    {
        if word == "check" {
            Some(Verb::Check)
        } else if word == "eval" {
            Some(Verb::Eval)
        } else if word == "run" {
            Some(Verb::Run)
        } else if word == "sim" {
            Some(Verb::Sim)
        } else if word == "build" {
            Some(Verb::Build)
        } else if word == "exec" {
            Some(Verb::Exec)
        } else if word == "gen" {
            Some(Verb::Gen)
        } else if word == "selfrun" {
            Some(Verb::Selfrun)
        } else {
            None
        }
    }
}

impl Setting {
    /// Its name, without the two dashes.
    pub(crate) fn name(self) -> &'static str
        ensures { result.now ≡ line.name_of self }
    {
        match self {
            Setting::Workers => "workers",
            Setting::Fuel => "fuel",
            Setting::Frames => "frames",
            Setting::Script => "script",
            Setting::Log => "log",
            Setting::Report => "report",
            Setting::Steps => "steps",
        }
    }

    /// Whether it has a value, so that it is an option; else it is a flag.
    pub(crate) fn has_value(self) -> bool
        ensures { result ≡ words.has_value self }
    {
        match self {
            Setting::Workers | Setting::Fuel | Setting::Frames | Setting::Script | Setting::Log =>
                true,
            Setting::Report | Setting::Steps => false,
        }
    }
}
