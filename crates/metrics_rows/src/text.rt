//! The text of metrics. Its lines are those of Prometheus' description of its text format, version
//! 0.0.4: of each metric HELP and TYPE, and then its samples, each in one line; buckets of a
//! histogram are cumulative, the last is that of `+Inf`, and it is the count.

use metrics::{Measured, VolumeUse, exposition};
use nfs_values::{Refusal, Reply};
use statistics::{Tally, Totals};
use std::process::Abort;

/// The text of what was measured.
fn text_of(rt: &(impl Abort + AllocGlobal), measured: &Measured<'_>) -> String {
    let text = exposition(rt.alloc(), measured).expect(rt, "memory");
    String::from_utf8(text).expect(rt, "UTF-8")
}

/// Looks whether these lines stand in a text, one after the other.
fn has(rt: &impl Abort, text: &str, lines: &str) {
    assert!(rt; text.contains(lines), "{lines}");
}

/// What a server measured that has one volume.
fn measured<'a>(totals: &'a Totals, micros: u64, volumes: &'a [VolumeUse]) -> Measured<'a> {
    Measured {
        totals,
        micros,
        open: 3,
        accepted: 18_446_744_073_709_551_615,
        turned_away: 2,
        received: 1_048_576,
        sent: 7,
        volumes,
    }
}

#[test]
fn samples(rt: HostRuntime) {
    let volume = VolumeUse {
        volume: 7,
        blocks: 1_024,
        used_blocks: 1,
        inodes: 65_536,
        used_inodes: 2,
    };
    let (totals, volumes) = (Totals::new(), [volume]);
    let text = text_of(&rt, &measured(&totals, 0, &volumes));
    has(
        &rt,
        &text,
        "# TYPE filer_connections gauge\nfiler_connections 3\n",
    );
    has(
        &rt,
        &text,
        "\nfiler_connections_accepted_total 18446744073709551615\n",
    );
    has(&rt, &text, "\nfiler_connections_turned_away_total 2\n");
    has(&rt, &text, "\nfiler_received_bytes_total 1048576\n");
    has(&rt, &text, "\nfiler_sent_bytes_total 7\n");
    has(
        &rt,
        &text,
        "\nfiler_volume_size_bytes{volume=\"7\"} 4194304\n",
    );
    has(&rt, &text, "\nfiler_volume_used_bytes{volume=\"7\"} 4096\n");
    has(&rt, &text, "\nfiler_volume_inodes{volume=\"7\"} 65536\n");
    has(&rt, &text, "\nfiler_volume_used_inodes{volume=\"7\"} 2\n");
}

#[test]
fn counters_by_label(rt: HostRuntime) {
    let tally = Tally::new();
    tally.count(&Reply::Refused(Refusal::GarbageArguments));
    tally.count(&Reply::Refused(Refusal::SystemError));
    tally.busy();
    tally.repeated(3);
    let totals = tally.read();
    let text = text_of(&rt, &measured(&totals, 0, &[]));
    has(
        &rt,
        &text,
        "\nfiler_refusals_total{kind=\"garbage_args\"} 1\n",
    );
    has(
        &rt,
        &text,
        "\nfiler_refusals_total{kind=\"rpc_mismatch\"} 0\n",
    );
    has(
        &rt,
        &text,
        "# TYPE filer_calls_total counter\nfiler_calls_total{procedure=\"null\"} 0\n\
         filer_calls_total{procedure=\"getattr\"} 0\n",
    );
    has(
        &rt,
        &text,
        "# TYPE filer_starved_total counter\nfiler_starved_total 1\n",
    );
    has(
        &rt,
        &text,
        "# TYPE filer_busy_total counter\nfiler_busy_total 1\n",
    );
    has(
        &rt,
        &text,
        "# TYPE filer_repeated_total counter\nfiler_repeated_total 3\n",
    );
}

#[test]
fn a_histogram(rt: HostRuntime) {
    let tally = Tally::new();
    tally.took(15, 2);
    tally.took(16, 1);
    tally.took(20_000_000, 1);
    let (totals, micros) = (tally.read(), tally.micros());
    let text = text_of(&rt, &measured(&totals, micros, &[]));
    has(
        &rt,
        &text,
        "# TYPE filer_call_duration_seconds histogram\n\
         filer_call_duration_seconds_bucket{le=\"0.000015\"} 2\n\
         filer_call_duration_seconds_bucket{le=\"0.000031\"} 3\n",
    );
    has(
        &rt,
        &text,
        "filer_call_duration_seconds_bucket{le=\"16.777215\"} 3\n\
         filer_call_duration_seconds_bucket{le=\"+Inf\"} 4\n\
         filer_call_duration_seconds_sum 20.000046\n\
         filer_call_duration_seconds_count 4\n",
    );
}
