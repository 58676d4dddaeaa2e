//! The text of all metrics.

use crate::lines::{put_family, put_labelled, put_sample};
use crate::measured::{Measured, VolumeUse};
use crate::seconds::Seconds;
use nfs_values::{BLOCK_BYTES, Procedure};
use statistics::{RefusalKind, ReplyKind, Totals};
use std::alloc::Global;
use std::io::{self, Write};

/// The buckets of times end a microsecond before these powers of two, in microseconds: from 15
/// microseconds to 16.8 seconds.
const FIRST_POWER: u32 = 4;

const LAST_POWER: u32 = 24;

/// Whether replies to calls of a procedure are counted as its own; other replies are those of NULL.
fn is_counted(procedure: Procedure) -> bool {
    !matches!(
        procedure,
        Procedure::MountNull | Procedure::AdminNull | Procedure::Unmount | Procedure::UnmountAll
    )
}

/// A sample of a kind of reply, by its name in small letters.
fn put_kind<W: Write>(
    out: &mut W,
    alloc: Global,
    totals: &Totals,
    (metric, label): (&str, &str),
    kind: ReplyKind,
) -> io::Result<()> {
    let name = kind.name().to_ascii_lowercase(alloc)?;
    put_labelled(out, metric, label, &name, totals.replies(kind))
}

/// Calls that were answered, by procedure.
fn put_calls<W: Write>(out: &mut W, alloc: Global, totals: &Totals) -> io::Result<()> {
    let metric = "filer_calls_total";
    put_family(
        out,
        metric,
        "counter",
        "Calls that were answered, by procedure; null has those of all programs, umnt and umntall.",
    )?;
    for procedure in &Procedure::ALL {
        if is_counted(*procedure) {
            let kind = ReplyKind::Answered(*procedure);
            put_kind(out, alloc, totals, (metric, "procedure"), kind)?;
        }
    }
    Ok(())
}

/// Calls that were refused, by kind.
fn put_refusals<W: Write>(out: &mut W, alloc: Global, totals: &Totals) -> io::Result<()> {
    let metric = "filer_refusals_total";
    put_family(
        out,
        metric,
        "counter",
        "Calls that were refused, by kind (RFC 5531 section 9).",
    )?;
    for refusal in &RefusalKind::BUT_STARVED {
        let kind = ReplyKind::Refused(*refusal);
        put_kind(out, alloc, totals, (metric, "kind"), kind)?;
    }
    Ok(())
}

/// How long calls took, by buckets.
fn put_times<W: Write>(out: &mut W, measured: &Measured<'_>) -> io::Result<()> {
    put_family(
        out,
        "filer_call_duration_seconds",
        "histogram",
        "How long calls took, in whole microseconds, from their arrival to their end.",
    )?;
    for power in FIRST_POWER..LAST_POWER + 1 {
        let micros = (1u64 << power) - 1;
        let (bound, calls) = (Seconds { micros }, measured.totals.within(micros));
        writeln!(
            out,
            "filer_call_duration_seconds_bucket{{le=\"{bound}\"}} {calls}"
        )?;
    }
    let (calls, sum) = (
        measured.totals.within(u64::MAX),
        Seconds {
            micros: measured.micros,
        },
    );
    put_labelled(
        out,
        "filer_call_duration_seconds_bucket",
        "le",
        "+Inf",
        calls,
    )?;
    writeln!(out, "filer_call_duration_seconds_sum {sum}")?;
    put_sample(out, "filer_call_duration_seconds_count", calls)
}

/// A metric of one sample.
fn put_one<W: Write>(
    out: &mut W,
    name: &str,
    kind: &str,
    help: &str,
    value: u64,
) -> io::Result<()> {
    put_family(out, name, kind, help)?;
    put_sample(out, name, value)
}

/// What calls met that were not refused.
fn put_waits<W: Write>(out: &mut W, totals: &Totals) -> io::Result<()> {
    put_one(
        out,
        "filer_starved_total",
        "counter",
        "Calls for which there was no memory.",
        totals.replies(ReplyKind::STARVED),
    )?;
    put_one(
        out,
        "filer_busy_total",
        "counter",
        "How often a lane waited for what another had.",
        totals.busy(),
    )?;
    put_one(
        out,
        "filer_repeated_total",
        "counter",
        "Calls that came again and were told the reply that was remembered.",
        totals.repeated(),
    )
}

/// Connections, and what their sockets gave and took.
fn put_connections<W: Write>(out: &mut W, measured: &Measured<'_>) -> io::Result<()> {
    put_one(
        out,
        "filer_connections",
        "gauge",
        "Connections that are open.",
        measured.open,
    )?;
    put_one(
        out,
        "filer_connections_accepted_total",
        "counter",
        "Connections that were accepted.",
        measured.accepted,
    )?;
    put_one(
        out,
        "filer_connections_turned_away_total",
        "counter",
        "Connections that were closed at once, since as many were open as may be.",
        measured.turned_away,
    )?;
    put_one(
        out,
        "filer_received_bytes_total",
        "counter",
        "Bytes that were read of connections.",
        measured.received,
    )?;
    put_one(
        out,
        "filer_sent_bytes_total",
        "counter",
        "Bytes that were written to connections.",
        measured.sent,
    )
}

/// What is told of each volume.
#[derive(Clone, Copy)]
enum Gauge {
    Size,
    Used,
    Inodes,
    UsedInodes,
}

impl Gauge {
    /// Its metric, and what that is.
    fn words(self) -> (&'static str, &'static str) {
        match self {
            Gauge::Size => (
                "filer_volume_size_bytes",
                "Bytes of the blocks of a volume.",
            ),
            Gauge::Used => (
                "filer_volume_used_bytes",
                "Bytes of the blocks of a volume that are in files.",
            ),
            Gauge::Inodes => (
                "filer_volume_inodes",
                "Files and directories that a volume may have.",
            ),
            Gauge::UsedInodes => (
                "filer_volume_used_inodes",
                "Files and directories of a volume.",
            ),
        }
    }

    /// Its value of a volume.
    fn of(self, volume: &VolumeUse) -> u64 {
        match self {
            Gauge::Size => volume.blocks.saturating_mul(BLOCK_BYTES),
            Gauge::Used => volume.used_blocks.saturating_mul(BLOCK_BYTES),
            Gauge::Inodes => volume.inodes,
            Gauge::UsedInodes => volume.used_inodes,
        }
    }
}

/// What is told of each volume, of each.
fn put_volumes<W: Write>(
    out: &mut W,
    alloc: Global,
    volumes: &[VolumeUse],
    gauge: Gauge,
) -> io::Result<()> {
    let (metric, help) = gauge.words();
    put_family(out, metric, "gauge", help)?;
    for volume in volumes {
        let number = format!(in alloc; "{}", volume.volume)?;
        put_labelled(out, metric, "volume", &number, gauge.of(volume))?;
    }
    Ok(())
}

/// The text of all metrics, in Prometheus' text format, version 0.0.4.
pub fn exposition(alloc: Global, measured: &Measured<'_>) -> io::Result<Vec<u8>> {
    let mut out = Vec::new(alloc);
    put_calls(&mut out, alloc, measured.totals)?;
    put_refusals(&mut out, alloc, measured.totals)?;
    put_waits(&mut out, measured.totals)?;
    put_times(&mut out, measured)?;
    put_connections(&mut out, measured)?;
    for gauge in [Gauge::Size, Gauge::Used, Gauge::Inodes, Gauge::UsedInodes] {
        put_volumes(&mut out, alloc, measured.volumes, gauge)?;
    }
    Ok(out)
}
