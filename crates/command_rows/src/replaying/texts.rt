//! Pieces of a script, and records with their replies, typed from the standards. Numbers are in
//! hex.

/// One aggregate with one volume of one range.
pub(crate) const LAYOUT: &str = "aggregate 1\nvolume 0 1\nstart 1 0102030405060708\n";

/// A NULL call, xid 1.
pub(crate) const NULL: &str = "\
    80000028000000010000000000000002000186a30000000300000000000000000000000000000000\
    00000000";

/// Its reply.
pub(crate) const NULL_REPLY: &str = "80000018000000010000000100000000000000000000000000000000";

/// Its reply where it isn't offered, PROC_UNAVAIL.
pub(crate) const NULL_UNAVAILABLE: &str =
    "80000018000000010000000100000000000000000000000000000003";
