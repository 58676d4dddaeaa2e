//! What `filer export` tells people as it starts.

ghost use Rattle.std.specs.Prelude.{◌+◌, ◌*◌, ◌≤◌};

use crate::rule_printing::write_rules;
use affinity::{MEBIBYTE, MOST_VOLUMES};
use nfs_values::BLOCK_BYTES;
use server::ENOUGH_STOCKED;
use server_options::{Options, VolumePlan};
use std::alloc::Global;
use std::fmt;
use std::net::{IpAddr, SocketAddr};

/// The bytes of a block's number.
const NUMBER: u64 = 4;

/// This many numbers come into a volume's stock before it has enough.
const STOCKED: u64 = ENOUGH_STOCKED as u64;

/// The bytes of the words that have this many bits.
fn words_for(bits: u64) -> u64
    requires { bits ≤ 8589934592 }
    ensures { result ≤ bits + 8 }
{
    8 * ((bits + 63) / 64)
}

/// The bytes of the marks of a range of this many blocks, a bit for each, and of what stands above
/// them where they are more than 1,024: a bit for each word, for each word of these, and so on, in
/// three levels.
fn marks_of(blocks: u32) -> u64
    ensures by_blocks { result ≤ 2 * blocks + 64 }
    ensures fits { result ≤ 8589934654 }
{
    let words = words_for(u64::from(blocks));
    if blocks <= 1_024 {
        return words;
    }
    let low = words_for(words / 8);
    words + low + words_for(low / 8) + 8
}

/// The kibibytes that a volume takes for its blocks before a file has one: marks of each block of
/// its 16 ranges, whether it is free and whether it is of a file that is gone; and the numbers that
/// come into the stock soon after the start: of all blocks in use, or 1,048,576.
fn kibibytes_at_start(plan: &VolumePlan) -> u64 {
    let numbers = NUMBER * (plan.bytes() / BLOCK_BYTES).min(STOCKED);
    (2 * 16 * marks_of(plan.range_blocks) + numbers).div_ceil(1_024)
}

/// How clients name a server that listens at an address, and by which protocol they reach it: by
/// its address, or by the machine's name where it listens at all of the machine's addresses.
#[derive(Drop)]
struct Reached<'a> {
    address: SocketAddr,
    host: Option<&'a str>,
}

impl fmt::Display for Reached<'_> {
    fn fmt<W: fmt::Write>(&self, f: &mut fmt::Formatter<W>) -> fmt::Result {
        if let Some(host) = self.host {
            if self.address.ip().is_unspecified() {
                return f.write_str(host);
            }
        }
        match self.address.ip() {
            IpAddr::V4(own) => write!(f, "{own}"),
            IpAddr::V6(own) => write!(f, "[{own}]"),
        }
    }
}

impl Reached<'_> {
    /// The protocol, as options of a mount have it.
    fn protocol(&self) -> &'static str {
        match self.address.ip() {
            IpAddr::V6(own) if !own.is_unspecified() => "tcp6",
            _ => "tcp",
        }
    }
}

/// A line for each volume: its sizes.
fn write_volumes<W: fmt::Write>(lines: &mut W, options: &Options) -> fmt::Result {
    let plan = &options.plan;
    let (size, files, inodes) = (plan.bytes() / MEBIBYTE, plan.mib, plan.inodes);
    let taken = kibibytes_at_start(plan);
    for volume in 0..options.volumes {
        writeln!(
            lines,
            "exported: /vol{volume}, {size} MiB, files of at most {files} MiB, at most {inodes} \
             files and directories; lists of its blocks take {taken} KiB"
        )?;
    }
    Ok(())
}

/// How to mount each volume; of 8 the first, and what to put in place of its number.
fn write_mounts<W: fmt::Write>(
    lines: &mut W,
    volumes: usize,
    reached: &Reached<'_>,
) -> fmt::Result {
    let (protocol, port) = (reached.protocol(), reached.address.port());
    let shown = if volumes < MOST_VOLUMES { volumes } else { 1 };
    for volume in 0..shown {
        writeln!(
            lines,
            "mount -t nfs -o vers=3,proto={protocol},port={port},mountport={port},\
             mountproto={protocol},nolock {reached}:/vol{volume} /mnt"
        )?;
    }
    if shown < volumes {
        let last = volumes.saturating_sub(1);
        writeln!(lines, "and so on, up to {reached}:/vol{last}")?;
    }
    Ok(())
}

/// What is exported, to whom, what callers may do, where metrics are told, if they are, and how to
/// mount it.
fn write_exports<W: fmt::Write>(
    lines: &mut W,
    options: &Options,
    metrics: Option<SocketAddr>,
    reached: &Reached<'_>,
) -> fmt::Result {
    write_volumes(lines, options)?;
    write_rules(lines, options)?;
    if let Some(address) = metrics {
        writeln!(lines, "metrics: http://{address}/metrics")?;
    }
    write_mounts(lines, options.volumes, reached)
}

/// The lines that tell people what is exported, to whom, where metrics are told, and how to mount
/// it, as far as there is memory for them.
pub(crate) fn exports_told(
    alloc: Global,
    options: &Options,
    address: &SocketAddr,
    metrics: Option<SocketAddr>,
    host: Option<&str>,
) -> String {
    let mut lines = String::new(alloc);
    let reached = Reached {
        address: *address,
        host,
    };
    let _told = write_exports(&mut lines, options, metrics, &reached);
    lines
}
