//! Kinds of replies.

ghost use Rattle.std.specs.Prelude.{◌≡◌, ◌<◌};
ghost use Rattle.statistics.specs.Kind.{kind_of, kinds_count, place_of};
ghost use Rattle.statistics.specs.Kind.{refusal_kind, refusal_place};

use nfs_values::{PROCEDURES, Procedure, Refusal, Reply};

/// Why a reply gives no results (RFC 5531 section 9).
#[derive(Clone, Copy, PartialEq, Eq, Debug)]
pub enum RefusalKind {
    ProgramUnavailable,
    ProgramMismatch,
    ProcedureUnavailable,
    GarbageArguments,
    RpcMismatch,
    AuthError,
    /// Memory ran out.
    SystemError,
}

/// What a reply tells of: why it gives no results, or else the procedure whose results it gives
/// (RFC 1813 section 3.3 and appendix I, section 5.2). NULL of NFS, of MOUNT and of the admin
/// program, UMNT and UMNTALL have the same reply, and count as NULL of NFS.
#[derive(Clone, Copy)]
pub enum ReplyKind {
    Refused(RefusalKind),
    Answered(Procedure),
}

/// How many kinds of refusals there are.
pub(crate) const REFUSALS: usize = 7;

/// How many kinds there are.
pub(crate) const KINDS: usize = REFUSALS + PROCEDURES;

/// The kind of a reply that gives no results.
fn kind_of_refusal(refusal: Refusal) -> RefusalKind
    ensures { result ≡ refusal_kind refusal }
{
    match refusal {
        Refusal::ProgramUnavailable => RefusalKind::ProgramUnavailable,
        Refusal::ProgramMismatch { low: _, high: _ } => RefusalKind::ProgramMismatch,
        Refusal::ProcedureUnavailable => RefusalKind::ProcedureUnavailable,
        Refusal::GarbageArguments => RefusalKind::GarbageArguments,
        Refusal::SystemError => RefusalKind::SystemError,
        Refusal::RpcMismatch { low: _, high: _ } => RefusalKind::RpcMismatch,
        Refusal::AuthError(_fault) => RefusalKind::AuthError,
    }
}

impl RefusalKind {
    /// All but the one that tells that memory ran out.
    pub const BUT_STARVED: [RefusalKind; 6] = [
        RefusalKind::ProgramUnavailable,
        RefusalKind::ProgramMismatch,
        RefusalKind::ProcedureUnavailable,
        RefusalKind::GarbageArguments,
        RefusalKind::RpcMismatch,
        RefusalKind::AuthError,
    ];

    /// Its place among the refusals.
    fn place(self) -> usize
        ensures place { result ≡ refusal_place self }
        ensures within { result < 7 }
    {
        self as usize
    }

    /// Its name, as in RFC 5531 section 9.
    fn name(self) -> &'static str {
        match self {
            RefusalKind::ProgramUnavailable => "PROG_UNAVAIL",
            RefusalKind::ProgramMismatch => "PROG_MISMATCH",
            RefusalKind::ProcedureUnavailable => "PROC_UNAVAIL",
            RefusalKind::GarbageArguments => "GARBAGE_ARGS",
            RefusalKind::RpcMismatch => "RPC_MISMATCH",
            RefusalKind::AuthError => "AUTH_ERROR",
            RefusalKind::SystemError => "SYSTEM_ERR",
        }
    }
}

impl ReplyKind {
    /// Memory ran out.
    pub const STARVED: ReplyKind = ReplyKind::Refused(RefusalKind::SystemError);

    /// The kind of a reply.
    pub fn of(reply: &Reply) -> ReplyKind
        ensures { result ≡ kind_of reply.now }
    {
        match reply {
            Reply::Success(answer) => ReplyKind::Answered(answer.procedure()),
            Reply::Refused(refusal) => ReplyKind::Refused(kind_of_refusal(*refusal)),
        }
    }

    /// Its place among all of them: refusals, and then the procedures.
    pub(crate) fn place(self) -> usize
        ensures place { result ≡ place_of self }
        ensures within { result < kinds_count }
    {
        match self {
            ReplyKind::Refused(kind) => kind.place(),
            ReplyKind::Answered(procedure) => REFUSALS + procedure.place(),
        }
    }

    /// The name of its procedure or of its refusal, as the standards spell it; those of the admin
    /// program are ours.
    pub fn name(self) -> &'static str {
        match self {
            ReplyKind::Refused(kind) => kind.name(),
            ReplyKind::Answered(procedure) => procedure.name(),
        }
    }
}
