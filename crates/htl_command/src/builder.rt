//! The commands, as `clap` is given them.
ghost use Rattle.std.specs.Prelude.{◌≡◌, IfOk, false, is_some, map};
ghost use Rattle.clap.specs.Words.{app_of, new_app, rule_of, with_subcommand};
ghost use Rattle.clap.specs.declared.builder.Command.TheViews.{out-Command as fields_of};
ghost use Rattle.htl_command.specs.Steps.{Describes};
ghost use Rattle.htl_command.specs.Commands.{name_of};
ghost use Rattle.htl_command.specs.Entries.{code_rule, common_rules, command_app, dialogue_rules};
ghost use Rattle.htl_command.specs.Entries.{dump_rules, encode_rules, files_rule, fold_rules};
ghost use Rattle.htl_command.specs.Entries.{flag_rule, hleak_app, option_rule, program_app};
ghost use Rattle.htl_command.specs.Entries.{state_rule, top_rules};
ghost use Rattle.htl_command.specs.Entries.{with_commands as with_commands_of, with_rules};
ghost use Rattle.htl_command.specs.declared.names.CommandFlag.TheVariants as flags;

use crate::help::{
    ABOUT, AFTER_HELP, CODE_HELP, DIALOGUE_ABOUT, DIALOGUE_AFTER_HELP, DIALOGUE_FILES_HELP,
    DIALOGUE_USAGE, FILES_HELP, HEX_TEXT_HELP, TEXTS_HELP, VERSION,
};
use crate::names::{CommandFlag, CommandOption};
use crate::table::{COMMANDS, CommandName};
use clap::{Arg, ArgAction, Command};
use std::alloc::{AllocError, Global};

/// Where a command is typed. Help of a dialogue leaves out what no line there has.
#[derive(Clone, Copy)]
pub(crate) enum Place {
    Shell,
    Dialogue,
}

impl Place {
    pub(crate) fn is_dialogue(self) -> bool {
        matches!(self, Place::Dialogue)
    }
}

type Built<'a> = Result<Command<'a>, AllocError>;

/// Builds commands, each for the place where it is typed.
#[derive(Clone, Copy)]
struct Builder {
    alloc: Global,
    place: Place,
}

impl Builder {
    fn option<'a>(self, option: CommandOption, help: &'a str) -> Arg<'a>
        ensures rule { rule_of result ≡ option_rule option }
        ensures local { result.global ≡ false }
    {
        Arg::new(self.alloc, option.as_str())
            .long(option.as_str())
            .value_name(option.value_name())
            .help(help)
            .required(option.is_required())
            .hide(self.place.is_dialogue() && option.is_of_run())
    }

    fn flag<'a>(self, flag: CommandFlag, help: &'a str) -> Arg<'a>
        ensures rule { rule_of result ≡ flag_rule flag }
        ensures local { result.global ≡ false }
    {
        Arg::new(self.alloc, flag.as_str())
            .long(flag.as_str())
            .action(ArgAction::SetTrue)
            .help(help)
            .hide(self.place.is_dialogue() && flag.is_of_run())
    }

    fn notes<'a>(self) -> Arg<'a>
        ensures rule { rule_of result ≡ flag_rule flags.Notes }
        ensures local { result.global ≡ false }
    {
        self.flag(CommandFlag::Notes, CommandFlag::Notes.help())
    }

    fn files<'a>(self, help: &'a str) -> Arg<'a>
        ensures rule { rule_of result ≡ files_rule }
        ensures local { result.global ≡ false }
    {
        Arg::new(self.alloc, "files")
            .value_name("FILES")
            .num_args(1..)
            .help(help)
            .hide(self.place.is_dialogue())
    }

    /// The option of a saved state, which may be given many times. Help of a question that is never
    /// asked of a state leaves it out.
    fn state<'a>(self, name: CommandName) -> Arg<'a>
        ensures rule { rule_of result ≡ state_rule }
        ensures local { result.global ≡ false }
    {
        Arg::new(self.alloc, "state")
            .long("state")
            .value_name("FILE")
            .action(ArgAction::Append)
            .help(name.state_help())
            .hide(self.place.is_dialogue() || name.is_of_events())
    }

    fn code<'a>(self) -> Arg<'a>
        ensures rule { rule_of result ≡ code_rule }
        ensures local { result.global ≡ false }
    {
        Arg::new(self.alloc, "code")
            .value_name("CODE")
            .help(CODE_HELP)
            .required(true)
    }

    fn with_options<'a>(self, command: Command<'a>, options: &[CommandOption]) -> Built<'a>
        requires { (fields_of command).has_globals ≡ false }
        ensures { IfOk result
            (Describes (with_rules (app_of command.entry) (map option_rule options.now))) }
    {
        let mut command = command;
        for own in options {
            command = command.arg(self.option(*own, own.help(self.place)))?;
        }
        Ok(command)
    }

    /// With `--top`, where there is help of it.
    fn with_top<'a>(self, command: Command<'a>, help: Option<&'a str>) -> Built<'a>
        requires { (fields_of command).has_globals ≡ false }
        ensures { IfOk result
            (Describes (with_rules (app_of command.entry) (top_rules (is_some help.entry)))) }
    {
        match help {
            Some(help) => command.arg(self.option(CommandOption::Top, help)),
            None => Ok(command),
        }
    }

    fn with_flags<'a>(self, command: Command<'a>, flags: &[CommandFlag]) -> Built<'a>
        requires { (fields_of command).has_globals ≡ false }
        ensures { IfOk result
            (Describes (with_rules (app_of command.entry) (map flag_rule flags.now))) }
    {
        let mut command = command;
        for own in flags {
            command = command.arg(self.flag(*own, own.help()))?;
        }
        Ok(command)
    }

    fn with_common_options<'a>(self, command: Command<'a>, name: CommandName) -> Built<'a>
        requires { (fields_of command).has_globals ≡ false }
        ensures { IfOk result (Describes (with_rules (app_of command.entry) common_rules)) }
    {
        let command = self.with_options(
            command,
            &[
                CommandOption::Until,
                CommandOption::Symbols,
                CommandOption::Workers,
            ],
        )?;
        let command = self.with_flags(
            command.arg(self.state(name))?,
            &[
                CommandFlag::Json,
                CommandFlag::Complete,
                CommandFlag::Hex,
                CommandFlag::Partial,
                CommandFlag::Notes,
            ],
        )?;
        command.arg(self.files(FILES_HELP))
    }

    fn with_dump_options<'a>(self, command: Command<'a>) -> Built<'a>
        requires { (fields_of command).has_globals ≡ false }
        ensures { IfOk result (Describes (with_rules (app_of command.entry) dump_rules)) }
    {
        let command = self.with_flags(
            command,
            &[CommandFlag::Hex, CommandFlag::Partial, CommandFlag::Notes],
        )?;
        command.arg(self.files(FILES_HELP))
    }

    fn with_encode_options<'a>(self, command: Command<'a>) -> Built<'a>
        requires { (fields_of command).has_globals ≡ false }
        ensures { IfOk result (Describes (with_rules (app_of command.entry) encode_rules)) }
    {
        command
            .arg(self.flag(CommandFlag::Hex, HEX_TEXT_HELP))?
            .arg(self.notes())?
            .arg(self.files(TEXTS_HELP))
    }

    fn with_dialogue_options<'a>(self, command: Command<'a>) -> Built<'a>
        requires { (fields_of command).has_globals ≡ false }
        ensures { IfOk result (Describes (with_rules (app_of command.entry) dialogue_rules)) }
    {
        let command = self.with_options(
            command,
            &[CommandOption::Symbols, CommandOption::Workers],
        )?;
        let command = self.with_flags(
            command.arg(self.state(CommandName::Ask))?,
            &[
                CommandFlag::Fold,
                CommandFlag::Complete,
                CommandFlag::Hex,
                CommandFlag::Partial,
                CommandFlag::Notes,
            ],
        )?;
        command.arg(self.files(DIALOGUE_FILES_HELP))
    }

    fn with_fold_options<'a>(self, command: Command<'a>) -> Built<'a>
        requires { (fields_of command).has_globals ≡ false }
        ensures { IfOk result (Describes (with_rules (app_of command.entry) fold_rules)) }
    {
        let command = self.with_options(command, &[CommandOption::Workers])?;
        let command = self.with_flags(
            command,
            &[
                CommandFlag::Complete,
                CommandFlag::Hex,
                CommandFlag::Partial,
                CommandFlag::Notes,
            ],
        )?;
        command.arg(self.files(FILES_HELP))
    }

    /// The command with its name and what its help says beside its options.
    fn bare_command<'a>(self, name: CommandName) -> Command<'a>
        ensures { Describes (new_app (name_of name)) result }
    {
        let bare = Command::new(self.alloc, name.as_str()).about(name.about());
        match self.place {
            Place::Shell => bare.after_help(name.example()),
            Place::Dialogue => bare.hide(!name.is_question()),
        }
    }

    fn command<'a>(self, name: CommandName) -> Built<'a>
        ensures { IfOk result (Describes (command_app name)) }
    {
        let bare = self.bare_command(name);
        match name {
            CommandName::Question(question) => {
                let row = question.row();
                let command = self.with_options(bare, row.options)?;
                let command = self.with_top(command, row.top)?;
                let command = self.with_flags(command, row.flags)?;
                self.with_common_options(command, name)
            }
            CommandName::Explain => bare.arg(self.code())?.arg(self.notes()),
            CommandName::Dump => self.with_dump_options(bare),
            CommandName::Encode => self.with_encode_options(bare),
            CommandName::Ask => self.with_dialogue_options(bare),
            CommandName::Fold => self.with_fold_options(bare),
        }
    }

    fn bare_program<'a>(self) -> Built<'a>
        ensures { IfOk result (Describes program_app) }
    {
        let program = Command::new(self.alloc, "hleak")
            .version(VERSION)
            .no_binary_name(true)
            .subcommand_required(true);
        match self.place {
            Place::Shell => {
                let program = program.bin_name("hleak")?;
                Ok(program.about(ABOUT).after_help(AFTER_HELP))
            }
            Place::Dialogue => Ok(
                program
                    .override_usage(DIALOGUE_USAGE)
                    .about(DIALOGUE_ABOUT)
                    .after_help(DIALOGUE_AFTER_HELP),
            ),
        }
    }

    #[tactic(auto, using(crate::proofs::Described::added))]
    fn with_command<'a>(self, program: Command<'a>, name: CommandName) -> Built<'a>
        requires { (fields_of program).has_globals ≡ false }
        ensures { IfOk result
            (Describes (with_subcommand (app_of program.entry) (command_app name).top)) }
    {
        program.subcommand(self.command(name)?)
    }

    fn with_commands<'a>(self, program: Command<'a>, names: &[CommandName]) -> Built<'a>
        requires { (fields_of program).has_globals ≡ false }
        ensures { IfOk result (Describes (with_commands_of (app_of program.entry) names.now)) }
    {
        let mut program = program;
        for name in names {
            program = self.with_command(program, *name)?;
        }
        Ok(program)
    }
}

/// The command line of the program. Help apart it is the same in each place.
#[tactic(auto, unfolding(crate::specs::Entries::hleak_app))]
pub(crate) fn program<'a>(alloc: Global, place: Place) -> Built<'a>
    ensures { IfOk result (Describes hleak_app) }
{
    let builder = Builder { alloc, place };
    builder.with_commands(builder.bare_program()?, &COMMANDS)
}
