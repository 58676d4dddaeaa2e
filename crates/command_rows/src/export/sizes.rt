//! How large the volumes of `filer export` are. `trials/command_lines` has sizes that are none.

use super::lines::options_of;
use crate::looking::holds;
use filer_commands::{Command, Machine, NoNames, command_told};
use server_options::VolumePlan;
use std::io;
use std::process::Abort;

/// An option behind `filer export --listen 127.0.0.1:0`, its value, and what volumes have by it:
/// ranges, blocks of each, mebibytes of the largest file, inodes, spare ranges and replies that are
/// remembered.
const LAWFUL: [(&str, &str, [u32; 6]); 27] = [
    ("--size", "4194304", [1, 1_024, 16, 65_536, 0, 4_096]),
    ("--size", "4M", [1, 1_024, 16, 65_536, 0, 4_096]),
    ("--size", "8191K", [1, 1_024, 16, 65_536, 0, 4_096]),
    ("--size", "8M", [2, 1_024, 16, 65_536, 0, 4_096]),
    ("--size", "64M", [16, 1_024, 64, 65_536, 0, 4_096]),
    ("--size", "67112959", [16, 1_024, 64, 65_536, 0, 4_096]),
    ("--size", "67112960", [8, 2_048, 64, 65_536, 0, 4_096]),
    ("--size", "100M", [12, 2_048, 96, 65_536, 0, 4_096]),
    ("--size", "1G", [16, 16_384, 1_024, 65_536, 0, 4_096]),
    (
        "--size",
        "40G",
        [10, 1_048_576, 40_960, 2_621_440, 0, 4_096],
    ),
    (
        "--size",
        "1099511627775",
        [15, 16_777_216, 983_040, 62_914_560, 0, 4_096],
    ),
    (
        "--size",
        "1T",
        [16, 16_777_216, 1_048_576, 67_108_864, 0, 4_096],
    ),
    (
        "--file-size",
        "16777216",
        [16, 16_384, 16, 65_536, 0, 4_096],
    ),
    (
        "--file-size",
        "20971519",
        [16, 16_384, 19, 65_536, 0, 4_096],
    ),
    (
        "--file-size",
        "1099511627775",
        [16, 16_384, 1_048_575, 65_536, 0, 4_096],
    ),
    (
        "--file-size",
        "1T",
        [16, 16_384, 1_048_576, 65_536, 0, 4_096],
    ),
    ("--inodes", "65536", [16, 16_384, 1_024, 65_536, 0, 4_096]),
    ("--inodes", "65537", [16, 16_384, 1_024, 65_537, 0, 4_096]),
    (
        "--inodes",
        "67108863",
        [16, 16_384, 1_024, 67_108_863, 0, 4_096],
    ),
    (
        "--inodes",
        "67108864",
        [16, 16_384, 1_024, 67_108_864, 0, 4_096],
    ),
    ("--ranges", "1", [1, 1_024, 64, 65_536, 128, 4_096]),
    ("--ranges", "2", [2, 1_024, 64, 65_536, 128, 4_096]),
    ("--ranges", "16", [16, 1_024, 64, 65_536, 128, 4_096]),
    ("--volumes", "8", [16, 2_048, 128, 65_536, 0, 4_096]),
    ("--remember", "0", [16, 16_384, 1_024, 65_536, 0, 0]),
    ("--remember", "1", [16, 16_384, 1_024, 65_536, 0, 1]),
    (
        "--remember",
        "65536",
        [16, 16_384, 1_024, 65_536, 0, 65_536],
    ),
];

/// The numbers of a plan whose volumes have 8 stripes, and directories that are known 4,096 deep.
fn numbers_of(rt: &impl Abort, plan: &VolumePlan) -> [u32; 6] {
    assert!(rt; plan.stripes == 8 && plan.most_steps == 4_096);
    [
        plan.ranges,
        plan.range_blocks,
        plan.mib,
        plan.inodes,
        plan.spare,
        plan.remembered,
    ]
}

/// Looks what volumes have by an option.
fn have(rt: &(impl Abort + AllocGlobal), option: &str, value: &str, wanted: &[u32; 6]) {
    let words = ["filer", "export", "--listen", "127.0.0.1:0", option, value];
    let numbers = numbers_of(rt, &options_of(rt, &words).plan);
    assert_eq!(rt; numbers, *wanted, "{option} {value}");
}

#[test]
fn sizes_that_are_some(rt: HostRuntime) {
    for (option, value, wanted) in &LAWFUL {
        have(&rt, option, value, wanted);
    }
}

#[test]
fn ranges_with_files_and_inodes(rt: HostRuntime) {
    let words = [
        "filer",
        "export",
        "--listen",
        "127.0.0.1:0",
        "--inodes",
        "100000",
        "--file-size",
        "1G",
        "--ranges",
        "3",
    ];
    let numbers = numbers_of(&rt, &options_of(&rt, &words).plan);
    holds(&rt, numbers == [3, 1_024, 1_024, 100_000, 128, 4_096]);
}

/// What two volumes have on a machine with so much memory, where a control group of the process may
/// take so much.
fn on_a_machine(
    rt: &(impl Abort + AllocGlobal),
    memory: Option<u64>,
    limit: Option<u64>,
) -> [u32; 6] {
    let words = [
        "filer",
        "export",
        "--volumes",
        "2",
        "--listen",
        "127.0.0.1:0",
    ];
    let machine = Machine {
        processors: 2,
        memory,
        limit,
    };
    match command_told(rt.alloc(), &words, machine, &NoNames, &mut io::sink()) {
        Ok(Command::Export(exporting)) => {
            holds(rt, exporting.options.workers == 2);
            numbers_of(rt, &exporting.options.plan)
        }
        _ => panic!(rt; "no export"),
    }
}

/// So much memory of a machine, and what two volumes have there.
const MACHINES: [(Option<u64>, [u32; 6]); 4] = [
    (None, [16, 8_192, 512, 65_536, 0, 4_096]),
    (Some(24 << 30), [12, 65_536, 3_072, 196_608, 0, 4_096]),
    (Some(1 << 20), [1, 1_024, 16, 65_536, 0, 4_096]),
    (
        Some(1 << 50),
        [16, 16_777_216, 1_048_576, 67_108_864, 0, 4_096],
    ),
];

#[test]
fn a_quarter_of_the_memory(rt: HostRuntime) {
    for (memory, wanted) in &MACHINES {
        holds(&rt, on_a_machine(&rt, *memory, None) == *wanted);
    }
}

#[test]
fn no_more_than_half_of_a_control_group(rt: HostRuntime) {
    let memory = Some(24 << 30);
    let wanted = [16, 8_192, 512, 65_536, 0, 4_096];
    holds(&rt, on_a_machine(&rt, memory, Some(2 << 30)) == wanted);
    holds(&rt, on_a_machine(&rt, None, Some(2 << 30)) == wanted);
    let whole = on_a_machine(&rt, memory, None);
    holds(&rt, on_a_machine(&rt, memory, Some(24 << 30)) == whole);
}
