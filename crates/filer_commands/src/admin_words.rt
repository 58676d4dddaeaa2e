//! The command lines of `census`, `grow` and `stop`.

use crate::admin_running::Growing;
use crate::choice::Command;
use crate::export_words::{USUAL_ADDRESS, address_in};
use crate::names::Names;
use crate::wrong_value::{NUMBER, WrongValue, wrong};
use clap::{Arg, ArgAction, ArgMatches, value_parser};
use nfs_values::VolumeNumber;
use std::alloc::{AllocError, Global};

/// What stands behind the help of `census`.
const CENSUS_EXAMPLE: &str = "\
Example:
  filer census

It prints a row for each volume: its number, how many blocks of 4,096 bytes it has, how many of
them are in files, and how many are not.";

/// What stands behind the help of `grow`.
const GROW_EXAMPLE: &str = "\
Example:
  filer grow --volume 0 --ranges 1

A range has 1,024 blocks of 4,096 bytes. A volume has at most 16 ranges, and those that are added
are taken from the spare ones of the server. A server that checks its callers grows for root on its
machine alone.";

/// What stands behind the help of `stop`.
const STOP_EXAMPLE: &str = "\
Example:
  filer stop

It is for root on the machine of the server. The server lets nobody in any more, answers the calls
that it has read, and ends; what it holds is lost.";

/// An option that has to be given, with its value.
fn option<'a>(alloc: Global, name: &'a str, value: &'a str, help: &'a str) -> Arg<'a> {
    Arg::new(alloc, name)
        .long(name)
        .value_name(value)
        .help(help)
        .required(true)
        .action(ArgAction::Set)
}

/// `--server ADDR`.
fn server<'a>(alloc: Global) -> Arg<'a> {
    option(alloc, "server", "ADDR", "Where it listens")
        .required(false)
        .default_value(USUAL_ADDRESS)
}

/// An option with a number of 32 bits.
fn number<'a>(alloc: Global, name: &'a str, value: &'a str, help: &'a str) -> Arg<'a> {
    option(alloc, name, value, help).value_parser(value_parser!(u32))
}

/// `census [--server ADDR]`.
pub(crate) fn census<'a>(alloc: Global) -> Result<clap::Command<'a>, AllocError> {
    clap::Command::new(alloc, "census")
        .about("Prints how many blocks the volumes of a running server have")
        .after_help(CENSUS_EXAMPLE)
        .arg(server(alloc))
}

/// `grow --volume V --ranges N [--server ADDR]`, in any order.
pub(crate) fn grow<'a>(alloc: Global) -> Result<clap::Command<'a>, AllocError> {
    clap::Command::new(alloc, "grow")
        .about("Adds ranges to a volume of a running server")
        .after_help(GROW_EXAMPLE)
        .arg(number(alloc, "volume", "V", "The volume's number, from 0"))?
        .arg(number(alloc, "ranges", "N", "How many ranges are added"))?
        .arg(server(alloc))
}

/// `stop [--server ADDR]`.
pub(crate) fn stop<'a>(alloc: Global) -> Result<clap::Command<'a>, AllocError> {
    clap::Command::new(alloc, "stop")
        .about("Stops a running server of this machine")
        .after_help(STOP_EXAMPLE)
        .arg(server(alloc))
}

/// What `census` asks for.
pub(crate) fn census_in<'a, N: Names>(
    matches: &ArgMatches<'a>,
    names: &N,
) -> Result<Command<'a>, WrongValue<'a>> {
    let server = address_in(matches, "server", names)?;
    Ok(Command::Census { server })
}

/// What `grow` asks for.
pub(crate) fn grow_in<'a, N: Names>(
    matches: &ArgMatches<'a>,
    names: &N,
) -> Result<Command<'a>, WrongValue<'a>> {
    let server = address_in(matches, "server", names)?;
    match (
        matches.get_one::<u32>("volume"),
        matches.get_one::<u32>("ranges"),
    ) {
        (Some(volume), Some(ranges)) => Ok(Command::Grow(Growing {
            server,
            volume: VolumeNumber(volume),
            ranges,
        })),
        _ => Err(wrong("ranges", "", NUMBER)),
    }
}

/// What `stop` asks for.
pub(crate) fn stop_in<'a, N: Names>(
    matches: &ArgMatches<'a>,
    names: &N,
) -> Result<Command<'a>, WrongValue<'a>> {
    let server = address_in(matches, "server", names)?;
    Ok(Command::Stop { server })
}
