//! Hosts that are named in place of addresses. `trials/command_lines` has names that aren't known.

use crate::looking::holds;
use filer_commands::{Command, Machine, Names, command_told};
use server_options::Peers;
use std::io;
use std::net::{IpAddr, SocketAddr};
use std::process::Abort;

/// Of `files.example` two addresses are known, and of other hosts none.
struct Known;

/// The addresses of `files.example`.
const ADDRESSES: [&str; 2] = ["2001:db8::7", "192.0.2.7"];

impl Names for Known {
    fn look_up(&self, host: &str, port: u16, found: &mut [SocketAddr]) -> usize {
        if host != "files.example" {
            return 0;
        }
        let mut count = 0usize;
        for (place, text) in found.iter_mut().zip(ADDRESSES) {
            if let Ok(address) = text.parse::<IpAddr>() {
                *place = SocketAddr::new(address, port);
                count = count.saturating_add(1);
            }
        }
        count
    }
}

/// A machine of which nothing is known.
const MACHINE: Machine = Machine {
    processors: 1,
    memory: None,
    limit: None,
};

/// What a command line asks for, where it is one.
fn asked<'a>(rt: &impl AllocGlobal, words: &'a [&'a str]) -> Option<Command<'a>> {
    command_told(rt.alloc(), words, MACHINE, &Known, &mut io::sink()).ok()
}

/// An address and port.
fn address(rt: &impl Abort, text: &str) -> SocketAddr {
    text.parse::<SocketAddr>().ok().expect(rt, "no address")
}

#[test]
fn a_host_is_listened_at_and_asked(rt: HostRuntime) {
    let wanted = address(&rt, "192.0.2.7:2049");
    let listen = ["filer", "export", "--listen", "files.example:2049"];
    match asked(&rt, &listen) {
        Some(Command::Export(exporting)) => holds(&rt, exporting.options.address == wanted),
        _ => panic!(&rt; "no export"),
    }
    match asked(&rt, &["filer", "census", "--server", "files.example:2049"]) {
        Some(Command::Census { server }) => holds(&rt, server == wanted),
        _ => panic!(&rt; "no census"),
    }
}

#[test]
fn all_addresses_of_a_host_are_allowed(rt: HostRuntime) {
    let words = [
        "filer",
        "export",
        "--allow",
        "10.0.0.0/8",
        "--allow",
        "files.example",
    ];
    let Some(Command::Export(exporting)) = asked(&rt, &words) else {
        panic!(&rt; "no export");
    };
    let Peers::Networks(networks) = exporting.options.rules.peers else {
        panic!(&rt; "no networks");
    };
    for text in ["10.1.2.3", "192.0.2.7", "2001:db8::7"] {
        let peer = text.parse::<IpAddr>().ok().expect(&rt, "an address");
        holds(
            &rt,
            networks
                .iter()
                .flatten()
                .any(|allowed| allowed.network.has(&peer)),
        );
    }
    holds(&rt, networks.iter().flatten().count() == 3);
}

/// Lines that name a host which isn't known, one where none may be named, or what is no name.
const REFUSED: [&[&str]; 6] = [
    &["filer", "export", "--listen", "other.example:2049"],
    &["filer", "export", "--listen", "files.example"],
    &["filer", "export", "--listen", "127.1:2049"],
    &["filer", "export", "--allow", "other.example"],
    &["filer", "export", "--allow", "10.0"],
    &["filer", "census", "--server", "files.example:+2049"],
];

#[test]
fn other_names_are_refused(rt: HostRuntime) {
    for words in REFUSED {
        holds(&rt, asked(&rt, words).is_none());
    }
}
