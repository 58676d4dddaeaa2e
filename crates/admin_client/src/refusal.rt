//! Why a server does not do a call.

/// Why a server does not do a call (accept_stat, reject_stat and auth_stat, RFC 5531 section 9).
#[derive(Clone, Copy, PartialEq, Eq)]
pub enum CallRefusal {
    /// PROG_UNAVAIL: it has no admin program.
    ProgramUnavailable,
    /// PROG_MISMATCH: it has these versions of it.
    ProgramMismatch { low: u32, high: u32 },
    /// PROC_UNAVAIL: its admin program has no such procedure.
    ProcedureUnavailable,
    /// GARBAGE_ARGS: it can't read the arguments.
    GarbageArguments,
    /// SYSTEM_ERR: memory ran out there, for example.
    SystemError,
    /// RPC_MISMATCH: it has these versions of RPC.
    RpcMismatch { low: u32, high: u32 },
    /// AUTH_ERROR, and the number of what is wrong with the credential.
    AuthError { number: u32 },
}
