//! What becomes of a call (RFC 5531 section 9).

/// The results of a procedure (RFC 1833 sections 2.1 and 3.1).
#[derive(Clone, Copy, PartialEq, Eq, Debug)]
pub(crate) enum Results {
    /// Of NULL.
    Nothing,
    /// Of SET and UNSET: FALSE, since they change nothing.
    Unchanged,
    /// Of GETPORT: the port, or 0.
    Port(u16),
    /// Of DUMP in version 2: all that is registered.
    Mappings,
    /// Of GETADDR: the universal address of the port, or the empty string.
    Address(Option<u16>),
    /// Of DUMP in versions 3 and 4: all that is registered.
    Bindings,
}

/// What becomes of a call whose head is all there (reply_body, RFC 5531 section 9).
#[derive(Clone, Copy, PartialEq, Eq, Debug)]
pub(crate) enum Outcome {
    /// SUCCESS.
    Done(Results),
    /// PROG_UNAVAIL.
    ProgramUnavailable,
    /// PROG_MISMATCH: versions 2 to 4 are there.
    ProgramMismatch,
    /// PROC_UNAVAIL.
    ProcedureUnavailable,
    /// GARBAGE_ARGS.
    GarbageArguments,
    /// RPC_MISMATCH: version 2 is there.
    RpcMismatch,
    /// AUTH_ERROR with AUTH_BADCRED.
    BadCredential,
}
