//! The options of the commands, by name.
ghost use Rattle.std.specs.Prelude.{◌≡◌};
ghost use Rattle.htl_command.specs.Options.{flag_name, is_required, option_name};

/// An option that takes a value.
#[derive(Clone, Copy)]
pub(crate) enum CommandOption {
    Process,
    Since,
    AtLeast,
    Object,
    /// The tag of an object.
    Tag,
    /// The tag of all objects, which can be left out. It has the same name.
    TagOfAll,
    Handle,
    Points,
    Top,
    Symbols,
    Workers,
    Until,
}

/// An option without a value.
#[derive(Clone, Copy)]
pub(crate) enum CommandFlag {
    All,
    ExitCode,
    Folded,
    Json,
    Fold,
    Complete,
    Hex,
    Partial,
    Notes,
}

// The names live as long as the caller wants, since `clap`'s builders take no text of a longer
// life.

impl CommandOption {
    /// The name, without its dashes.
    pub(crate) fn as_str<'a>(self) -> &'a str
        ensures { result.now ≡ option_name self }
    {
        match self {
            CommandOption::Process => "process",
            CommandOption::Since => "since",
            CommandOption::AtLeast => "at-least",
            CommandOption::Object => "object",
            CommandOption::Tag | CommandOption::TagOfAll => "tag",
            CommandOption::Handle => "handle",
            CommandOption::Points => "points",
            CommandOption::Top => "top",
            CommandOption::Symbols => "symbols",
            CommandOption::Workers => "workers",
            CommandOption::Until => "until",
        }
    }

    /// Whether a command that has the option requires it.
    pub(crate) fn is_required(self) -> bool
        ensures { result ≡ is_required self }
    {
        matches!(
            self,
            CommandOption::Process
                | CommandOption::Object
                | CommandOption::Tag
                | CommandOption::Handle
        )
    }

    /// Whether it belongs to a whole run, and not to a question of a dialogue.
    pub(crate) fn is_of_run(self) -> bool {
        matches!(self, CommandOption::Symbols | CommandOption::Workers)
    }
}

impl CommandFlag {
    /// The name, without its dashes.
    pub(crate) fn as_str<'a>(self) -> &'a str
        ensures { result.now ≡ flag_name self }
    {
        match self {
            CommandFlag::All => "all",
            CommandFlag::ExitCode => "exit-code",
            CommandFlag::Folded => "folded",
            CommandFlag::Json => "json",
            CommandFlag::Fold => "fold",
            CommandFlag::Complete => "complete",
            CommandFlag::Hex => "hex",
            CommandFlag::Partial => "partial",
            CommandFlag::Notes => "notes",
        }
    }

    /// Whether it belongs to a whole run, and not to a question of a dialogue.
    pub(crate) fn is_of_run(self) -> bool {
        !matches!(
            self,
            CommandFlag::All | CommandFlag::Json | CommandFlag::Folded
        )
    }
}
