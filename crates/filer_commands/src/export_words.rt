//! The command line of `filer export`.

use crate::byte_size::bytes_in;
use crate::exporting::Exporting;
use crate::limits::{
    FEWEST_INODES, MOST_CONNECTIONS, MOST_IDLE, MOST_INODES, MOST_MINUTES, MOST_RANGES,
    MOST_REPLIES, MOST_VOLUMES, MOST_WORKERS, USUAL_WORKERS,
};
use crate::machine::Machine;
use crate::names::{Names, address_of, is_name};
use crate::peer_words::{root_in, rules_in, with_callers, with_networks};
use crate::wrong_value::{ADDRESS, FILE_SIZE, HOST, NUMBER, OWED, VOLUME_SIZE, WrongValue, wrong};
use clap::{Arg, ArgAction, ArgMatches, value_parser};
use server_options::{
    Admission, IdleTime, LEAST_VOLUME, MOST_BYTES, Options, Period, VolumePlan, WhenFull,
};
use std::alloc::{AllocError, Global};
use std::net::SocketAddr;

/// How connections are let in: 1,024 may be open, and others are closed at once.
const ADMISSION: Admission = Admission {
    most_open: 1_024,
    when_full: WhenFull::IsClosed,
};

/// The bytes that all volumes have between them where no size is named, and the machine's memory
/// can't be read.
const USUAL_BYTES: u64 = 1_073_741_824;

/// Where a server of clients that mount listens where nothing else is said, and is asked.
pub(crate) const USUAL_ADDRESS: &str = "127.0.0.1:2049";

/// The fewest bytes of replies that may be owed to all connections together: 64 MiB.
const LEAST_OWED: u64 = 67_108_864;

/// What stands behind the help of `export`.
const EXAMPLE: &str = "\
Examples:
  filer export
  filer export --listen 127.0.0.1:2049 --size 40G --inodes 1000000
  filer export --listen 192.0.2.1:2049 --volumes 2 --workers 4 --allow 192.0.2.0/24 --squash root
  filer export --root-mode 1777
  mount -t nfs -o vers=3,proto=tcp,port=2049,mountport=2049,mountproto=tcp,nolock \
127.0.0.1:/vol0 /mnt

Callers are checked by the owner, the group and the mode of files, as whom they claim to be. All
files are gone when the program ends.";

/// An option with a number from 1, and what it is without.
fn number<'a>(alloc: Global, name: &'a str, most: i64, default: &'a str, help: &'a str) -> Arg<'a> {
    optional(alloc, name, "N", help)
        .value_parser(value_parser!(u64).range(1..=most))
        .default_value(default)
}

/// An option with a value.
fn optional<'a>(alloc: Global, name: &'a str, value: &'a str, help: &'a str) -> Arg<'a> {
    Arg::new(alloc, name)
        .long(name)
        .value_name(value)
        .help(help)
        .action(ArgAction::Set)
}

/// Options that say who may connect, and for how long.
fn with_guests<'a>(
    alloc: Global,
    command: clap::Command<'a>,
) -> Result<clap::Command<'a>, AllocError> {
    let connections = optional(
        alloc,
        "connections",
        "N",
        "Connections until it ends [none]",
    )
    .value_parser(value_parser!(u64).range(1..=MOST_CONNECTIONS));
    let idle = optional(
        alloc,
        "idle",
        "SECONDS",
        "Silence after which a connection gives way to others, 1 to 86400",
    )
    .value_parser(value_parser!(u64).range(1..=MOST_IDLE))
    .default_value("600");
    let owed = optional(
        alloc,
        "owed",
        "BYTES",
        "Most bytes of replies that peers haven't taken [an eighth of all volumes, at least 64M]",
    );
    let mapper = Arg::new(alloc, "portmap")
        .long("portmap")
        .help("Tells where it listens at port 111, by TCP and UDP")
        .action(ArgAction::SetTrue);
    let command = with_networks(alloc, command.arg(connections)?)?;
    command.arg(idle)?.arg(owed)?.arg(mapper)
}

/// Options that say how large the volumes are.
fn with_sizes<'a>(
    alloc: Global,
    command: clap::Command<'a>,
) -> Result<clap::Command<'a>, AllocError> {
    let ranges = optional(
        alloc,
        "ranges",
        "N",
        "In place of a size: ranges of 4 MiB a volume, 1 to 16, which may grow",
    )
    .value_parser(value_parser!(u64).range(1..=MOST_RANGES))
    .conflicts_with("size")?;
    let size = optional(
        alloc,
        "size",
        "BYTES",
        "Most bytes a volume, 4M to 1T [an even share of a quarter of the memory, or of half of \
what the control group may take]",
    );
    let files = optional(
        alloc,
        "file-size",
        "BYTES",
        "Most bytes of a file, 16M to 1T [as large as the volume]",
    );
    let inodes = optional(
        alloc,
        "inodes",
        "N",
        "Most files and directories a volume, 65536 to 67108864 [one for 16 KiB]",
    )
    .value_parser(value_parser!(u64).range(FEWEST_INODES..=MOST_INODES));
    command.arg(size)?.arg(files)?.arg(inodes)?.arg(ranges)
}

/// Options that say what is told of it, on standard error or by HTTP.
fn with_lines<'a>(
    alloc: Global,
    command: clap::Command<'a>,
) -> Result<clap::Command<'a>, AllocError> {
    let log = Arg::new(alloc, "log")
        .long("log")
        .help("Tells of each connection on standard error")
        .action(ArgAction::SetTrue);
    let statistics = optional(
        alloc,
        "stats",
        "MINUTES",
        "Tells so often what was served, 1 to 1440 [never]",
    )
    .value_parser(value_parser!(u64).range(1..=MOST_MINUTES));
    let metrics = optional(
        alloc,
        "metrics",
        "ADDR",
        "Address and port where metrics are told, by HTTP at /metrics [none]",
    );
    command.arg(log)?.arg(statistics)?.arg(metrics)
}

/// `export [--listen ADDR] [--volumes N] [--workers N] [--size BYTES | --ranges N]
/// [--file-size BYTES] [--inodes N] [--remember N] [--connections N] [--allow NETWORK]..
/// [--allow-read NETWORK].. [--idle SECONDS] [--owed BYTES] [--portmap] [--squash WHOM]
/// [--anon UID:GID] [--privileged-ports] [--root-mode OCTAL] [--no-permission-checks] [--log]
/// [--stats MINUTES] [--metrics ADDR]`, in any order.
pub(crate) fn export<'a>(alloc: Global) -> Result<clap::Command<'a>, AllocError> {
    let listen = optional(alloc, "listen", "ADDR", "Address or host, and port").default_value(
        USUAL_ADDRESS,
    );
    let workers = optional(
        alloc,
        "workers",
        "N",
        "Threads that serve, 1 to 64 [one a processor, at most 4]",
    )
    .value_parser(value_parser!(u64).range(1..=MOST_WORKERS));
    let replies = optional(
        alloc,
        "remember",
        "N",
        "Replies a volume remembers, 0 to 65536, for calls that come again [4096]",
    )
    .value_parser(value_parser!(u64).range(0..=MOST_REPLIES));
    let command = clap::Command::new(alloc, "export")
        .about("Serves clients that mount, until it is ended")
        .after_help(EXAMPLE)
        .arg(listen)?
        .arg(number(alloc, "volumes", MOST_VOLUMES, "1", "Volumes, 1 to 8"))?
        .arg(workers)?
        .arg(replies)?;
    let command = with_guests(alloc, with_sizes(alloc, command)?)?;
    with_lines(alloc, with_callers(alloc, command)?)
}

/// The value of an option that is a number.
fn number_in<'a>(matches: &ArgMatches<'a>, option: &'static str) -> Result<u64, WrongValue<'a>> {
    match matches.get_one::<u64>(option) {
        Some(number) => Ok(number),
        None => Err(wrong(option, "", NUMBER)),
    }
}

/// The bytes of each of this many volumes where no size is named: an even share of what a machine
/// has for them.
fn usual_bytes(volumes: u64, machine: Machine) -> u64 {
    let all = machine.usual_bytes().unwrap_or(USUAL_BYTES);
    (all / volumes.max(1)).clamp(LEAST_VOLUME, MOST_BYTES)
}

/// A plan of volumes of a size that a text names.
fn sized<'a>(text: &'a str) -> Result<VolumePlan, WrongValue<'a>> {
    match bytes_in(text).and_then(VolumePlan::sized) {
        Some(plan) => Ok(plan),
        None => Err(wrong("size", text, VOLUME_SIZE)),
    }
}

/// What each of this many volumes has at the start, on a machine, but for its files and inodes.
fn space_in<'a>(
    matches: &ArgMatches<'a>,
    volumes: u64,
    machine: Machine,
) -> Result<VolumePlan, WrongValue<'a>> {
    if let Some(text) = matches.get_str("size") {
        return sized(text);
    }
    let plan = match matches.get_one::<u64>("ranges") {
        Some(ranges) => u32::try_from(ranges).ok().and_then(VolumePlan::export),
        None => VolumePlan::sized(usual_bytes(volumes, machine)),
    };
    plan.ok_or(wrong("ranges", "", NUMBER))
}

/// What each of this many volumes has at the start, on a machine.
fn plan_in<'a>(
    matches: &ArgMatches<'a>,
    volumes: u64,
    machine: Machine,
) -> Result<VolumePlan, WrongValue<'a>> {
    let mut plan = space_in(matches, volumes, machine)?;
    if let Some(text) = matches.get_str("file-size") {
        plan = match bytes_in(text).and_then(|bytes| plan.with_files(bytes)) {
            Some(plan) => plan,
            None => return Err(wrong("file-size", text, FILE_SIZE)),
        };
    }
    if let Some(inodes) = matches.get_one::<u64>("inodes") {
        let inodes = u32::try_from(inodes).ok();
        plan = match inodes.and_then(|inodes| plan.with_inodes(inodes)) {
            Some(plan) => plan,
            None => return Err(wrong("inodes", "", NUMBER)),
        };
    }
    if let Some(replies) = matches.get_one::<u64>("remember") {
        let replies = u32::try_from(replies).ok();
        plan = match replies.and_then(|replies| plan.with_remembered(replies)) {
            Some(plan) => plan,
            None => return Err(wrong("remember", "", NUMBER)),
        };
    }
    Ok(plan)
}

/// How many bytes of replies may be owed to all connections together: an eighth of what all of this
/// many volumes of a plan have, where nothing else is said.
fn most_owed_in<'a>(
    matches: &ArgMatches<'a>,
    volumes: u64,
    plan: &VolumePlan,
) -> Result<u64, WrongValue<'a>> {
    let Some(text) = matches.get_str("owed") else {
        return Ok((plan.bytes() / 8).saturating_mul(volumes).max(LEAST_OWED));
    };
    match bytes_in(text) {
        Some(bytes) if bytes >= LEAST_OWED => Ok(bytes),
        _ => Err(wrong("owed", text, OWED)),
    }
}

/// A host's name and a port in a text, as `localhost:2049`.
fn host_in(text: &str) -> Option<(&str, u16)> {
    let (host, port) = text.rsplit_once(':')?;
    if !is_name(host) || port.starts_with('+') {
        return None;
    }
    Some((host, port.parse::<u16>().ok()?))
}

/// An address and port that an option names, or those of a host.
pub(crate) fn address_in<'a, N: Names>(
    matches: &ArgMatches<'a>,
    option: &'static str,
    names: &N,
) -> Result<SocketAddr, WrongValue<'a>> {
    let text = matches.get_str(option).unwrap_or("");
    if let Ok(address) = text.parse::<SocketAddr>() {
        return Ok(address);
    }
    let Some((host, port)) = host_in(text) else {
        return Err(wrong(option, text, ADDRESS));
    };
    address_of(names, host, port).ok_or(wrong(option, text, HOST))
}

/// After how long a connection is idle.
fn idle_in<'a>(matches: &ArgMatches<'a>) -> Result<IdleTime, WrongValue<'a>> {
    let seconds = u32::try_from(number_in(matches, "idle")?).ok();
    seconds
        .and_then(IdleTime::new)
        .ok_or(wrong("idle", "", NUMBER))
}

/// How often statistics are told, if they are.
fn period_in(matches: &ArgMatches<'_>) -> Option<Period> {
    let minutes = matches.get_one::<u64>("stats")?;
    Period::new(u32::try_from(minutes).ok()?)
}

/// What a server that clients mount is asked to do, on a machine, but for what it offers, which is
/// of its run: without a number of connections it goes on until it is ended.
fn options_in<'a, N: Names>(
    matches: &ArgMatches<'a>,
    machine: Machine,
    names: &N,
) -> Result<Options, WrongValue<'a>> {
    let address = address_in(matches, "listen", names)?;
    let volumes = number_in(matches, "volumes")?;
    let workers = match matches.get_one::<u64>("workers") {
        Some(workers) => workers as usize,
        None => machine.processors.clamp(1, USUAL_WORKERS),
    };
    let connections = matches.get_one::<u64>("connections");
    let rules = rules_in(matches, names)?;
    let root = root_in(matches, &rules.standing)?;
    let plan = plan_in(matches, volumes, machine)?.with_root(root);
    let idle = idle_in(matches)?;
    let most_owed = most_owed_in(matches, volumes, &plan)?;
    let Some(options) = Options::new(address, volumes as usize, workers, connections) else {
        return Err(wrong("volumes", "", NUMBER));
    };
    let options = options
        .with_admission(ADMISSION)
        .with_rules(rules)
        .with_plan(plan)
        .with_idle(idle)
        .with_most_owed(most_owed)
        .with_log(matches.get_flag("log"));
    match period_in(matches) {
        Some(period) => Ok(options.with_statistics(period)),
        None => Ok(options),
    }
}

/// Where metrics are told, if they are.
fn metrics_in<'a, N: Names>(
    matches: &ArgMatches<'a>,
    names: &N,
) -> Result<Option<SocketAddr>, WrongValue<'a>> {
    match matches.get_str("metrics") {
        Some(_text) => Ok(Some(address_in(matches, "metrics", names)?)),
        None => Ok(None),
    }
}

/// What `export` is asked to do, on a machine.
pub(crate) fn exporting_in<'a, N: Names>(
    matches: &ArgMatches<'a>,
    machine: Machine,
    names: &N,
) -> Result<Exporting, WrongValue<'a>> {
    Ok(Exporting {
        options: options_in(matches, machine, names)?,
        has_port_mapper: matches.get_flag("portmap"),
        metrics: metrics_in(matches, names)?,
    })
}
