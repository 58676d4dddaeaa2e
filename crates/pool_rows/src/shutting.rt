//! Connections of outboxes that threads share: opened up to the most, and shut.

use crate::mail::open_mail;
use nfs_values::ConnectionNumber;

/// The most connections that are open.
const MOST_OPEN: usize = 64;

/// While 64 connections are open no other is opened. One that is shut makes room, and its number is
/// never given again; shut once more it changes nothing, and no record waits for it.
#[test]
fn a_connection_is_shut(rt: HostRuntime) {
    let (mut mail, _lent) = open_mail(&rt);
    let connection = mail.connection;
    for number in 1..MOST_OPEN {
        assert_eq!(&rt; mail.open(&rt), Some(ConnectionNumber(number)));
    }
    assert_eq!(&rt; mail.open(&rt), None);
    mail.shut(&rt, connection);
    mail.shut(&rt, connection);
    assert_eq!(&rt; mail.open(&rt), Some(ConnectionNumber(MOST_OPEN)));
    assert_eq!(&rt; mail.open(&rt), None);
    assert!(&rt; mail.take(&rt).is_none());
}
