//! What `clap` finds in arguments, or the fault that it reports with a tip that helps.

ghost use Rattle.std.specs.Prelude.{◌≡◌, [], IfErr, IfOk, map, string_bytes};
ghost use Rattle.clap.specs.Words.{subcommand_rows_of};
ghost use Rattle.htl_command.specs.Entries.{entries as entries_in, refusals};
ghost use Rattle.htl_command.specs.Steps.{IsRefused};

use crate::builder::{Place, program};
use crate::fault::{ParseFault, from_clap};
use clap::ArgMatches;
use std::alloc::Global;

/// What `clap` finds in the arguments.
pub(crate) fn matches<'a>(
    alloc: Global,
    arguments: &'a [String],
    place: Place,
) -> Result<ArgMatches<'a>, ParseFault>
    ensures ok { IfOk result (λ matches. (refusals (map string_bytes arguments.entry.now) ≡ [])
        × (subcommand_rows_of matches ≡ entries_in (map string_bytes arguments.entry.now))) }
    ensures err { IfErr result (IsRefused (map string_bytes arguments.entry.now)) }
{
    match program(alloc, place)?.try_get_matches_from(arguments) {
        Ok(matches) => Ok(matches),
        Err(error) => Err(from_clap(alloc, &error, arguments, place)),
    }
}
