//! Procedures (RFC 1833 sections 2.1 and 3.1), with strings as words: `tcp` is 0x74637000, `tcp6`
//! 0x74637036, `udp` 0x75647000, and `superuser` 0x73757065, 0x72757365 and 0x72000000.

use crate::bytes::{Row, answers, is_reply, own_four, own_six, spelled};
use port_mapper::{Protocol, Registration, answer, netid_of, universal_address};

const MAPPINGS: [Row<'_>; 9] = [
    Row {
        name: "GETPORT of NFS version 3 over TCP",
        request: &[7, 0, 2, 100_000, 2, 3, 0, 0, 0, 0, 100_003, 3, 6, 0],
        reply: Some(&[7, 1, 0, 0, 0, 0, 2_049]),
    },
    Row {
        name: "GETPORT of MOUNT version 3 over TCP",
        request: &[7, 0, 2, 100_000, 2, 3, 0, 0, 0, 0, 100_005, 3, 6, 0],
        reply: Some(&[7, 1, 0, 0, 0, 0, 2_049]),
    },
    Row {
        name: "GETPORT of MOUNT version 1, which isn't registered",
        request: &[7, 0, 2, 100_000, 2, 3, 0, 0, 0, 0, 100_005, 1, 6, 0],
        reply: Some(&[7, 1, 0, 0, 0, 0, 0]),
    },
    Row {
        name: "GETPORT of NFS version 3 over UDP, by which it isn't registered",
        request: &[7, 0, 2, 100_000, 2, 3, 0, 0, 0, 0, 100_003, 3, 17, 0],
        reply: Some(&[7, 1, 0, 0, 0, 0, 0]),
    },
    Row {
        name: "GETPORT of the port mapper over UDP",
        request: &[7, 0, 2, 100_000, 2, 3, 0, 0, 0, 0, 100_000, 2, 17, 0],
        reply: Some(&[7, 1, 0, 0, 0, 0, 111]),
    },
    Row {
        name: "GETPORT without a port",
        request: &[7, 0, 2, 100_000, 2, 3, 0, 0, 0, 0, 100_003, 3, 6],
        reply: Some(&[7, 1, 0, 0, 0, 4]),
    },
    Row {
        name: "SET",
        request: &[7, 0, 2, 100_000, 2, 1, 0, 0, 0, 0, 100_003, 3, 6, 2_050],
        reply: Some(&[7, 1, 0, 0, 0, 0, 0]),
    },
    Row {
        name: "UNSET",
        request: &[7, 0, 2, 100_000, 2, 2, 0, 0, 0, 0, 100_003, 3, 6, 0],
        reply: Some(&[7, 1, 0, 0, 0, 0, 0]),
    },
    Row {
        name: "DUMP of version 2",
        request: &[7, 0, 2, 100_000, 2, 4, 0, 0, 0, 0],
        reply: Some(&[
            7, 1, 0, 0, 0, 0, 1, 100_000, 4, 6, 111, 1, 100_000, 3, 6, 111, 1, 100_000, 2, 6, 111,
            1, 100_000, 4, 17, 111, 1, 100_000, 3, 17, 111, 1, 100_000, 2, 17, 111, 1, 100_003, 3,
            6, 2_049, 1, 100_005, 3, 6, 2_049, 0,
        ]),
    },
];

const BINDINGS: [Row<'_>; 6] = [
    Row {
        name: "GETADDR of NFS version 3 by tcp: 127.0.0.1.8.1",
        request: &[
            7,
            0,
            2,
            100_000,
            4,
            3,
            0,
            0,
            0,
            0,
            100_003,
            3,
            3,
            0x7463_7000,
            0,
            0,
        ],
        reply: Some(&[
            7,
            1,
            0,
            0,
            0,
            0,
            13,
            0x3132_372e,
            0x302e_302e,
            0x312e_382e,
            0x3100_0000,
        ]),
    },
    Row {
        name: "GETADDR by tcp6 of a client over IPv4",
        request: &[
            7,
            0,
            2,
            100_000,
            4,
            3,
            0,
            0,
            0,
            0,
            100_003,
            3,
            4,
            0x7463_7036,
            0,
            0,
        ],
        reply: Some(&[7, 1, 0, 0, 0, 0, 0]),
    },
    Row {
        name: "GETADDR of the port mapper by udp: 127.0.0.1.0.111",
        request: &[
            7,
            0,
            2,
            100_000,
            3,
            3,
            0,
            0,
            0,
            0,
            100_000,
            4,
            3,
            0x7564_7000,
            0,
            0,
        ],
        reply: Some(&[
            7,
            1,
            0,
            0,
            0,
            0,
            15,
            0x3132_372e,
            0x302e_302e,
            0x312e_302e,
            0x3131_3100,
        ]),
    },
    Row {
        name: "GETADDR of a program that isn't registered",
        request: &[
            7,
            0,
            2,
            100_000,
            3,
            3,
            0,
            0,
            0,
            0,
            100_021,
            4,
            3,
            0x7463_7000,
            0,
            0,
        ],
        reply: Some(&[7, 1, 0, 0, 0, 0, 0]),
    },
    Row {
        name: "GETADDR without an owner",
        request: &[
            7,
            0,
            2,
            100_000,
            3,
            3,
            0,
            0,
            0,
            0,
            100_003,
            3,
            3,
            0x7463_7000,
            0,
        ],
        reply: Some(&[7, 1, 0, 0, 0, 4]),
    },
    Row {
        name: "SET of version 4",
        request: &[
            7,
            0,
            2,
            100_000,
            4,
            1,
            0,
            0,
            0,
            0,
            100_003,
            3,
            3,
            0x7463_7000,
            0,
            0,
        ],
        reply: Some(&[7, 1, 0, 0, 0, 0, 0]),
    },
];

const OVER_SIX: [Row<'_>; 2] = [
    Row {
        name: "GETADDR of NFS version 3 by tcp6: ::1.8.1",
        request: &[
            7,
            0,
            2,
            100_000,
            4,
            3,
            0,
            0,
            0,
            0,
            100_003,
            3,
            4,
            0x7463_7036,
            0,
            0,
        ],
        reply: Some(&[7, 1, 0, 0, 0, 0, 7, 0x3a3a_312e, 0x382e_3100]),
    },
    Row {
        name: "GETADDR by tcp of a client over IPv6",
        request: &[
            7,
            0,
            2,
            100_000,
            4,
            3,
            0,
            0,
            0,
            0,
            100_003,
            3,
            3,
            0x7463_7000,
            0,
            0,
        ],
        reply: Some(&[7, 1, 0, 0, 0, 0, 0]),
    },
];

#[test]
fn mappings(rt: HostRuntime) {
    answers(&rt, &own_four(), &MAPPINGS);
}

#[test]
fn bindings(rt: HostRuntime) {
    answers(&rt, &own_four(), &BINDINGS);
    answers(&rt, &own_six(), &OVER_SIX);
}

/// DUMP of version 3, where one program is registered.
#[test]
fn one_binding(rt: HostRuntime) {
    let registered = [Registration {
        program: 100_003,
        version: 3,
        protocol: Protocol::Tcp,
        port: 2_049,
    }];
    let request = spelled(&rt, &[7, 0, 2, 100_000, 3, 4, 0, 0, 0, 0]);
    let reply = answer(rt.alloc(), &registered, &own_six(), &request);
    let reply = reply.expect(&rt, "no memory");
    let bytes = reply.as_ref().map(|reply| reply.as_slice());
    let wanted: &[u32] = &[
        7,
        1,
        0,
        0,
        0,
        0,
        1,
        100_003,
        3,
        4,
        0x7463_7036,
        7,
        0x3a3a_312e,
        0x382e_3100,
        9,
        0x7375_7065,
        0x7275_7365,
        0x7200_0000,
        0,
    ];
    is_reply(&rt, "DUMP of version 3", bytes, Some(wanted));
}

#[test]
fn texts(rt: HostRuntime) {
    assert!(rt; netid_of(Protocol::Udp, &own_six()) == b"udp6".as_slice());
    let address = universal_address(rt.alloc(), &own_four(), 65_535);
    let address = address.expect(&rt, "no memory");
    assert!(rt; address.as_str() == "127.0.0.1.255.255");
}
