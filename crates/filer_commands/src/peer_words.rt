//! Options of `filer export` that say who may connect, and what callers may do.

use crate::names::{Names, is_name, networks_of};
use crate::wrong_value::{
    ANONYMOUS, HOST, NETWORK, NETWORKS, ROOT_MODE, SQUASH, WrongValue, wrong,
};
use clap::{Arg, ArgAction, ArgMatches};
use nfs_values::{Ownership, Squash, Standing};
use server_options::{AllowedNetwork, MOST_NETWORKS, Network, PeerRules, Peers, root_for};
use std::alloc::{AllocError, Global};

/// The option with which no caller is checked.
const UNCHECKED: &str = "no-permission-checks";

/// The largest mode: twelve bits.
const MOST_MODE: u16 = 0o7777;

/// An option with a value.
fn valued<'a>(alloc: Global, name: &'a str, value: &'a str, help: &'a str) -> Arg<'a> {
    Arg::new(alloc, name)
        .long(name)
        .value_name(value)
        .help(help)
        .action(ArgAction::Set)
}

/// An option without a value.
fn flag<'a>(alloc: Global, name: &'a str, help: &'a str) -> Arg<'a> {
    Arg::new(alloc, name)
        .long(name)
        .help(help)
        .action(ArgAction::SetTrue)
}

/// Options that say who may connect.
pub(crate) fn with_networks<'a>(
    alloc: Global,
    command: clap::Command<'a>,
) -> Result<clap::Command<'a>, AllocError> {
    let allow = valued(
        alloc,
        "allow",
        "NETWORK",
        "Who may connect, as 10.0.0.0/8 or a host [loopback]",
    )
    .action(ArgAction::Append);
    let allow_read = valued(
        alloc,
        "allow-read",
        "NETWORK",
        "Who may connect and change nothing; of several networks the smallest counts [none]",
    )
    .action(ArgAction::Append);
    command.arg(allow)?.arg(allow_read)
}

/// Options that say what callers may do, and who owns the roots.
pub(crate) fn with_callers<'a>(
    alloc: Global,
    command: clap::Command<'a>,
) -> Result<clap::Command<'a>, AllocError> {
    let squash = valued(
        alloc,
        "squash",
        "WHOM",
        "Whose calls are anonymous: none, root or all [none]",
    )
    .conflicts_with(UNCHECKED)?;
    let anonymous = valued(
        alloc,
        "anon",
        "UID:GID",
        "Who is anonymous [65534:65534]",
    ).conflicts_with(UNCHECKED)?;
    let ports = flag(
        alloc,
        "privileged-ports",
        "Takes who comes from a port from 1024 on as anonymous",
    )
    .conflicts_with(UNCHECKED)?;
    let mode = valued(
        alloc,
        "root-mode",
        "OCTAL",
        "The mode of each volume's root, as 1777 [755]",
    );
    let unchecked = flag(
        alloc,
        UNCHECKED,
        "Lets everybody do everything, whatever modes say",
    );
    let command = command.arg(squash)?.arg(anonymous)?;
    command.arg(ports)?.arg(mode)?.arg(unchecked)
}

/// The networks that a value of an option names: one, or the addresses of a host. They stand at the
/// start of a list.
fn networks_in<'a, N: Names>(
    option: &'static str,
    text: &'a str,
    names: &N,
) -> Result<[Option<Network>; MOST_NETWORKS], WrongValue<'a>> {
    if let Some(network) = Network::read(text) {
        let mut networks = [None; MOST_NETWORKS];
        networks[0] = Some(network);
        return Ok(networks);
    }
    if !is_name(text) {
        return Err(wrong(option, text, NETWORK));
    }
    let networks = networks_of(names, text);
    if networks[0].is_none() {
        return Err(wrong(option, text, HOST));
    }
    Ok(networks)
}

/// Puts networks of one kind behind others in a list, and answers whether there is room for all.
fn put_behind(
    allowed: &mut [Option<AllowedNetwork>; MOST_NETWORKS],
    more: [Option<Network>; MOST_NETWORKS],
    reads_only: bool,
) -> bool {
    let mut places = allowed.iter_mut().filter(|place| place.is_none());
    for network in more.into_iter().flatten() {
        match places.next() {
            Some(place) => {
                *place = Some(AllowedNetwork {
                    network,
                    reads_only,
                })
            }
            None => return false,
        }
    }
    true
}

/// Puts the networks of an option into a list.
fn allow<'a, N: Names>(
    matches: &ArgMatches<'a>,
    names: &N,
    option: &'static str,
    reads_only: bool,
    allowed: &mut [Option<AllowedNetwork>; MOST_NETWORKS],
) -> Result<(), WrongValue<'a>> {
    let Some(texts) = matches.get_strs(option) else {
        return Ok(());
    };
    for text in texts {
        if !put_behind(allowed, networks_in(option, text, names)?, reads_only) {
            return Err(wrong(option, text, NETWORKS));
        }
    }
    Ok(())
}

/// Whose connections are served: of the own machine, where no network is named.
fn peers_in<'a, N: Names>(matches: &ArgMatches<'a>, names: &N) -> Result<Peers, WrongValue<'a>> {
    let mut allowed = [None; MOST_NETWORKS];
    allow(matches, names, "allow", false, &mut allowed)?;
    allow(matches, names, "allow-read", true, &mut allowed)?;
    if allowed[0].is_none() {
        return Ok(Peers::Loopback);
    }
    Ok(Peers::Networks(allowed))
}

/// Whose calls are anonymous.
fn squash_in<'a>(matches: &ArgMatches<'a>) -> Result<Squash, WrongValue<'a>> {
    match matches.get_str("squash") {
        None | Some("none") => Ok(Squash::NoOne),
        Some("root") => Ok(Squash::Root),
        Some("all") => Ok(Squash::Everyone),
        Some(text) => Err(wrong("squash", text, SQUASH)),
    }
}

/// A number of a user or a group.
fn id_in(text: &str) -> Option<u32> {
    if text.starts_with('+') {
        return None;
    }
    text.parse::<u32>().ok()
}

/// A uid and a gid.
fn ids_in(text: &str) -> Option<(u32, u32)> {
    let (uid, gid) = text.split_once(':')?;
    Some((id_in(uid)?, id_in(gid)?))
}

/// How callers stand, but for those of whom their address or port says something else.
fn standing_in<'a>(matches: &ArgMatches<'a>) -> Result<Standing, WrongValue<'a>> {
    let mut standing = Standing {
        is_checked: !matches.get_flag(UNCHECKED),
        squash: squash_in(matches)?,
        ..Standing::UNCHECKED
    };
    if let Some(text) = matches.get_str("anon") {
        let Some((uid, gid)) = ids_in(text) else {
            return Err(wrong("anon", text, ANONYMOUS));
        };
        standing.anonymous_uid = uid;
        standing.anonymous_gid = gid;
    }
    Ok(standing)
}

/// Whose connections are served, and how their callers stand.
pub(crate) fn rules_in<'a, N: Names>(
    matches: &ArgMatches<'a>,
    names: &N,
) -> Result<PeerRules, WrongValue<'a>> {
    Ok(PeerRules {
        peers: peers_in(matches, names)?,
        standing: standing_in(matches)?,
        is_port_asked: matches.get_flag("privileged-ports"),
    })
}

/// A mode in octal digits.
fn mode_in(text: &str) -> Option<u16> {
    if text.starts_with('+') {
        return None;
    }
    match u16::from_str_radix(text, 8) {
        Ok(mode) if mode <= MOST_MODE => Some(mode),
        _ => None,
    }
}

/// Who owns the roots, where callers stand so.
pub(crate) fn root_in<'a>(
    matches: &ArgMatches<'a>,
    standing: &Standing,
) -> Result<Ownership, WrongValue<'a>> {
    let Some(text) = matches.get_str("root-mode") else {
        return Ok(root_for(standing, None));
    };
    match mode_in(text) {
        Some(mode) => Ok(root_for(standing, Some(mode))),
        None => Err(wrong("root-mode", text, ROOT_MODE)),
    }
}
