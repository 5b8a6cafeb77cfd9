//! The value of each option, or which option has a value that breaks its rule.

ghost use Rattle.std.specs.Prelude.{◌≡◌, IfErr, option_map};
ghost use Rattle.std.specs.Result.{result_ok};
ghost use Rattle.htl_command.specs.Options.{defaulted, given as given_in, optional, value};
ghost use Rattle.htl_command.specs.Requests.{workers as workers_given};
ghost use Rattle.htl_command.specs.Steps.{Names, entries_of};
ghost use Rattle.htl_command.specs.Values.{count_in, handle_in, moment_in, object_in, points_in};
ghost use Rattle.htl_command.specs.Values.{process_in, since_in, tag_in};
ghost use Rattle.htl_command.specs.declared.names.CommandOption.TheVariants as option;

use crate::entries::given;
use crate::names::CommandOption;
use crate::no_job::InvalidValue;
use crate::question::Moment;
use crate::values;
use clap::ArgMatches;
use htl_question::Since;

/// At how many moments open handles are counted where no option says so.
const DEFAULT_POINTS: u32 = 20;

pub(crate) fn process<'a>(entries: &ArgMatches<'a>) -> Result<u32, InvalidValue<'a>>
    ensures ok { result_ok result ≡ value process_in option.Process (entries_of entries.now) }
    ensures err { IfErr result (Names option.Process (entries_of entries.now)) }
{
    let option = CommandOption::Process;
    let given = required(entries, option)?;
    values::process(given).ok_or(InvalidValue { option, given })
}

pub(crate) fn since<'a>(entries: &ArgMatches<'a>) -> Result<Option<Since>, InvalidValue<'a>>
    ensures ok { result_ok result ≡ optional since_in option.Since (entries_of entries.now) }
    ensures err { IfErr result (Names option.Since (entries_of entries.now)) }
{
    let option = CommandOption::Since;
    match given(entries, option) {
        None => Ok(None),
        Some(given) => Ok(Some(values::since(given).ok_or(InvalidValue { option, given })?)),
    }
}

pub(crate) fn at_least<'a>(entries: &ArgMatches<'a>) -> Result<u32, InvalidValue<'a>>
    ensures ok { result_ok result ≡ defaulted count_in option.AtLeast 1 (entries_of entries.now) }
    ensures err { IfErr result (Names option.AtLeast (entries_of entries.now)) }
{
    let option = CommandOption::AtLeast;
    match given(entries, option) {
        None => Ok(1),
        Some(given) => values::count(given).ok_or(InvalidValue { option, given }),
    }
}

pub(crate) fn points<'a>(entries: &ArgMatches<'a>) -> Result<u32, InvalidValue<'a>>
    ensures ok { result_ok result ≡ defaulted points_in option.Points 20 (entries_of entries.now) }
    ensures err { IfErr result (Names option.Points (entries_of entries.now)) }
{
    let option = CommandOption::Points;
    match given(entries, option) {
        None => Ok(DEFAULT_POINTS),
        Some(given) => values::points(given).ok_or(InvalidValue { option, given }),
    }
}

pub(crate) fn object<'a>(entries: &ArgMatches<'a>) -> Result<u64, InvalidValue<'a>>
    ensures ok { result_ok result ≡ value object_in option.Object (entries_of entries.now) }
    ensures err { IfErr result (Names option.Object (entries_of entries.now)) }
{
    let option = CommandOption::Object;
    let given = required(entries, option)?;
    values::object(given).ok_or(InvalidValue { option, given })
}

pub(crate) fn tag<'a>(entries: &ArgMatches<'a>) -> Result<[u8; 4], InvalidValue<'a>>
    ensures ok { result_ok result ≡ value tag_in option.Tag (entries_of entries.now) }
    ensures err { IfErr result (Names option.Tag (entries_of entries.now)) }
{
    let option = CommandOption::Tag;
    let given = required(entries, option)?;
    values::tag(given).ok_or(InvalidValue { option, given })
}

pub(crate) fn tag_of_all<'a>(entries: &ArgMatches<'a>) -> Result<Option<[u8; 4]>, InvalidValue<'a>>
    ensures ok { result_ok result ≡ optional tag_in option.TagOfAll (entries_of entries.now) }
    ensures err { IfErr result (Names option.TagOfAll (entries_of entries.now)) }
{
    let option = CommandOption::TagOfAll;
    match given(entries, option) {
        None => Ok(None),
        Some(given) => Ok(Some(values::tag(given).ok_or(InvalidValue { option, given })?)),
    }
}

pub(crate) fn handle<'a>(entries: &ArgMatches<'a>) -> Result<u32, InvalidValue<'a>>
    ensures ok { result_ok result ≡ value handle_in option.Handle (entries_of entries.now) }
    ensures err { IfErr result (Names option.Handle (entries_of entries.now)) }
{
    let option = CommandOption::Handle;
    let given = required(entries, option)?;
    values::handle(given).ok_or(InvalidValue { option, given })
}

pub(crate) fn top<'a>(entries: &ArgMatches<'a>) -> Result<Option<u32>, InvalidValue<'a>>
    ensures ok { result_ok result ≡ optional count_in option.Top (entries_of entries.now) }
    ensures err { IfErr result (Names option.Top (entries_of entries.now)) }
{
    let option = CommandOption::Top;
    match given(entries, option) {
        None => Ok(None),
        Some(given) => Ok(Some(values::count(given).ok_or(InvalidValue { option, given })?)),
    }
}

pub(crate) fn until<'a>(entries: &ArgMatches<'a>) -> Result<Option<Moment>, InvalidValue<'a>>
    ensures ok { result_ok result ≡ optional moment_in option.Until (entries_of entries.now) }
    ensures err { IfErr result (Names option.Until (entries_of entries.now)) }
{
    let option = CommandOption::Until;
    match given(entries, option) {
        None => Ok(None),
        Some(given) => Ok(Some(values::moment(given).ok_or(InvalidValue { option, given })?)),
    }
}

pub(crate) fn workers<'a>(entries: &ArgMatches<'a>) -> Result<u32, InvalidValue<'a>>
    ensures ok { result_ok result ≡ workers_given (entries_of entries.now) }
    ensures err { IfErr result (Names option.Workers (entries_of entries.now)) }
{
    let option = CommandOption::Workers;
    match given(entries, option) {
        None => Ok(1),
        Some(given) => values::workers(given).ok_or(InvalidValue { option, given }),
    }
}

/// The text of an option that has to be given.
fn required<'a>(
    entries: &ArgMatches<'a>,
    option: CommandOption,
) -> Result<&'a str, InvalidValue<'a>>
    ensures ok { option_map (λ text. text.now) (result_ok result)
        ≡ given_in option (entries_of entries.now) }
    ensures err { IfErr result (Names option (entries_of entries.now)) }
{
    given(entries, option).ok_or(InvalidValue { option, given: "" })
}
