//! The command line.

use crate::admin_words::{self, census, grow, stop};
use crate::choice::Command;
use crate::export_words::{self, address_in, export};
use crate::limits::{MOST_CONNECTIONS, MOST_VOLUMES, MOST_WORKERS, USUAL_WORKERS};
use crate::machine::Machine;
use crate::names::{Names, NoNames};
use crate::wrong_value::{NUMBER, WrongValue, wrong};
use clap::error::ErrorKind;
use clap::{Arg, ArgAction, ArgMatches, Error, value_parser};
use scripts::ProgramFault;
use server_options::Options;
use std::alloc::{AllocError, Global};
use std::convert::AsStr;
use std::io::{self, Write};

/// What stands behind the help of `filer`, of `replay` and of `serve`.
const EXAMPLES: &str = "\
Examples:
  filer replay script.txt
  filer serve --listen 127.0.0.1:2049 --volumes 1 --workers 2 --connections 1
  filer export
  filer census
  filer grow --volume 0 --ranges 1
  filer stop";

const REPLAY_EXAMPLE: &str = "\
Example:
  filer replay script.txt";

const SERVE_EXAMPLE: &str = "\
Example:
  filer serve --listen 127.0.0.1:2049 --volumes 1 --workers 2 --connections 1

Whoever can reach the address may do everything: bind to 127.0.0.1 or a private network.";

/// What `serve` tells where its address can't be read. Its lines are fixed.
const VALUE_HELP: &str = "\
error: the value for '--listen <ADDR>' is no address, or that for '--server <ADDR>', or one for
'--allow <NETWORK>' is no network, or that for '--size <BYTES>' or '--file-size <BYTES>' no size:
an IP address and a port are wanted, as 127.0.0.1:2049, at most 16 networks, as 10.0.0.0/8, and a
volume of 4M to 1T with files of 16M to 1T, as 40G

For more information, try '--help'.
";

/// An option that has to be given, with its value.
fn option<'a>(alloc: Global, name: &'a str, value: &'a str, help: &'a str) -> Arg<'a> {
    Arg::new(alloc, name)
        .long(name)
        .value_name(value)
        .help(help)
        .required(true)
        .action(ArgAction::Set)
}

/// An option with a number from 1.
fn number<'a>(alloc: Global, name: &'a str, most: i64, help: &'a str) -> Arg<'a> {
    option(alloc, name, "N", help).value_parser(value_parser!(u64).range(1..=most))
}

/// `replay FILE`.
fn replay<'a>(alloc: Global) -> Result<clap::Command<'a>, AllocError> {
    let file = Arg::new(alloc, "FILE")
        .help("The script")
        .required(true)
        .action(ArgAction::Set);
    clap::Command::new(alloc, "replay")
        .about("Runs a script of events, and prints a line for each")
        .after_help(REPLAY_EXAMPLE)
        .arg(file)
}

/// `serve --listen ADDR --volumes N --workers N --connections N`, in any order.
fn serve<'a>(alloc: Global) -> Result<clap::Command<'a>, AllocError> {
    clap::Command::new(alloc, "serve")
        .about("Serves as many connections over TCP as are asked for, and ends with the last")
        .after_help(SERVE_EXAMPLE)
        .arg(option(
            alloc,
            "listen",
            "ADDR",
            "Address and port, as 127.0.0.1:2049",
        ))?
        .arg(number(alloc, "volumes", MOST_VOLUMES, "Volumes, 1 to 8"))?
        .arg(number(
            alloc,
            "workers",
            MOST_WORKERS,
            "Threads that serve, 1 to 64",
        ))?
        .arg(number(
            alloc,
            "connections",
            MOST_CONNECTIONS,
            "Connections until it ends, 1 to 1000000",
        ))
}

/// `version`.
fn version<'a>(alloc: Global) -> clap::Command<'a> {
    clap::Command::new(alloc, "version").about("Prints the version")
}

/// The program's command line, as it is declared.
fn declared<'a>(alloc: Global) -> Result<clap::Command<'a>, AllocError> {
    clap::Command::new(alloc, "filer")
        .about("An NFS version 3 server in memory")
        .after_help(EXAMPLES)
        .subcommand_required(true)
        .subcommand(replay(alloc)?)?
        .subcommand(serve(alloc)?)?
        .subcommand(export(alloc)?)?
        .subcommand(census(alloc)?)?
        .subcommand(grow(alloc)?)?
        .subcommand(stop(alloc)?)?
        .subcommand(version(alloc))
}

/// The script's path.
fn path_in<'a>(matches: &ArgMatches<'a>) -> Command<'a> {
    let path = matches.get_str("FILE").unwrap_or("");
    Command::Replay { path }
}

/// What `serve` is asked to do. The parse gives all of its numbers, each in its range.
fn options_in<'a>(matches: &ArgMatches<'a>) -> Result<Command<'a>, WrongValue<'a>> {
    let address = address_in(matches, "listen", &NoNames)?;
    let volumes = matches.get_one::<u64>("volumes").unwrap_or(0);
    let workers = matches.get_one::<u64>("workers").unwrap_or(0);
    let connections = matches.get_one::<u64>("connections");
    match Options::new(address, volumes as usize, workers as usize, connections) {
        Some(options) => Ok(Command::Serve(options)),
        None => Err(wrong("volumes", "", NUMBER)),
    }
}

/// What was parsed, as a command on a machine.
fn chosen<'a, N: Names>(
    matches: &ArgMatches<'a>,
    machine: Machine,
    names: &N,
) -> Result<Command<'a>, WrongValue<'a>> {
    match matches.subcommand() {
        Some(("replay", inner)) => Ok(path_in(inner)),
        Some(("serve", inner)) => options_in(inner),
        Some(("export", inner)) => {
            let exporting = export_words::exporting_in(inner, machine, names)?;
            Ok(Command::Export(exporting))
        }
        Some(("census", inner)) => admin_words::census_in(inner, names),
        Some(("grow", inner)) => admin_words::grow_in(inner, names),
        Some(("stop", inner)) => admin_words::stop_in(inner, names),
        _ => Ok(Command::Version),
    }
}

fn fault_of(error: &Error) -> ProgramFault {
    match error.kind() {
        ErrorKind::OutOfMemory => ProgramFault::NoMemory,
        _ => ProgramFault::CommandLine,
    }
}

/// Whether the words are about a server or a script whose lines are fixed: its help is no command.
fn is_fixed<S: AsStr>(words: &[S]) -> bool {
    match words.get(1) {
        Some(word) => matches!(word.as_str(), "replay" | "serve"),
        None => false,
    }
}

/// Whether the words ask for the version by an option.
fn asks_version<S: AsStr>(words: &[S]) -> bool {
    match words.get(1) {
        Some(word) => words.len() == 2 && matches!(word.as_str(), "--version" | "-V"),
        None => false,
    }
}

/// Prints the help that the words ask for.
pub(crate) fn print_help<'a, S: AsStr, W: Write>(
    alloc: Global,
    words: &'a [S],
    out: &mut W,
) -> Result<(), ProgramFault> {
    let declared = declared(alloc)?;
    let alone = words.len() <= 1;
    let parsed = if alone {
        declared.try_get_matches_from(&["filer", "--help"])
    } else {
        declared.try_get_matches_from(words)
    };
    match parsed {
        Ok(_matches) => Ok(()),
        Err(error) => write!(out, "{error}").map_err(|_failed| ProgramFault::Output),
    }
}

/// The command that the words ask for; the first word is the program's name. Where no number of
/// workers is named, `export` has four; where no size, its volumes have 1 GiB between them.
///
/// `CommandLine` where the words are no command or ask for the help of `replay` or `serve`,
/// `NoMemory` where memory ran out.
pub fn command<'a, S: AsStr>(alloc: Global, words: &'a [S]) -> Result<Command<'a>, ProgramFault> {
    let machine = Machine {
        processors: USUAL_WORKERS,
        memory: None,
        limit: None,
    };
    command_told(alloc, words, machine, &NoNames, &mut io::sink())
}

/// The same on a machine: where no number of workers is named, `export` has as many as processors,
/// but at most four; where no size, its volumes have a quarter of the memory between them, or half
/// of what a control group of the process may take, where that is less; and hosts may be named, but
/// for `serve`. Where the words are no command it tells for people what is wrong with them and how
/// they would be right, or the help that they ask for.
pub fn command_told<'a, S: AsStr, N: Names, E: Write>(
    alloc: Global,
    words: &'a [S],
    machine: Machine,
    names: &N,
    err: &mut E,
) -> Result<Command<'a>, ProgramFault> {
    if words.len() <= 1 {
        return Ok(Command::Help);
    }
    if asks_version(words) {
        return Ok(Command::Version);
    }
    let declared = declared(alloc)?;
    match declared.try_get_matches_from(words) {
        Ok(matches) => match chosen(&matches, machine, names) {
            Ok(command) => Ok(command),
            Err(wrong) => {
                let _told = if is_fixed(words) {
                    err.write_all(VALUE_HELP.as_bytes())
                } else {
                    writeln!(err, "{wrong}")
                };
                Err(ProgramFault::CommandLine)
            }
        },
        Err(error) => {
            if error.kind() == ErrorKind::DisplayHelp && !is_fixed(words) {
                return Ok(Command::Help);
            }
            let _told = write!(err, "{error}");
            Err(fault_of(&error))
        }
    }
}
