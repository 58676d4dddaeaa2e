//! What `census`, `grow` and `stop` print.

use admin_client::{AdminFault, BlockTotals, CallRefusal, Census, Growth};
use nfs_values::VolumeNumber;
use nfs_values::answer::VolumeCount;
use scripts::ProgramFault;
use std::io::{self, Write};

/// The number of AUTH_TOOWEAK (auth_stat, RFC 5531 section 9).
const TOO_WEAK: u32 = 5;

/// A write that failed.
fn of_output(_failed: io::Error) -> ProgramFault {
    ProgramFault::Output
}

/// Prints the row of a volume.
fn print_volume<W: Write>(out: &mut W, count: &VolumeCount) -> Result<(), ProgramFault> {
    let (volume, total, used) = (count.volume.0, count.total, count.used);
    let free = total.saturating_sub(used);
    writeln!(out, "{volume:<8}{total:>12}{used:>12}{free:>12}").map_err(of_output)
}

/// Prints the row of all volumes.
fn print_totals<W: Write>(out: &mut W, totals: BlockTotals) -> Result<(), ProgramFault> {
    let BlockTotals { total, used } = totals;
    let free = total.saturating_sub(used);
    writeln!(out, "all     {total:>12}{used:>12}{free:>12}").map_err(of_output)
}

/// Prints a row for each volume, and one for all of them: blocks, and those that are in files and
/// that aren't.
pub(crate) fn print_census<W: Write>(out: &mut W, census: &Census) -> Result<(), ProgramFault> {
    out.write_all(b"volume        blocks    in files        free\n")
        .map_err(of_output)?;
    for count in &census.volumes {
        print_volume(out, count)?;
    }
    print_totals(out, census.totals())
}

/// Prints how many ranges a volume was given and how many blocks it has, or why it isn't grown.
/// Whether it is.
pub(crate) fn print_growth<W: Write>(
    out: &mut W,
    volume: VolumeNumber,
    ranges: u32,
    growth: Growth,
) -> Result<bool, ProgramFault> {
    let volume = volume.0;
    let why = match growth {
        Growth::Grown { blocks } => {
            writeln!(
                out,
                "volume {volume}: ranges added {ranges}, blocks now {blocks}"
            )
            .map_err(of_output)?;
            return Ok(true);
        }
        Growth::NoVolume => "NOENT, there is no such volume",
        Growth::NoRange => "INVAL, no range is asked for",
        Growth::TooManyRanges => "FBIG, it would have more than 16 ranges",
        Growth::TooFewSpare => "NOSPC, not so many ranges are spare",
    };
    writeln!(out, "volume {volume} isn't grown: {why}").map_err(of_output)?;
    Ok(false)
}

/// Prints that a server stops.
pub(crate) fn print_stop<W: Write>(out: &mut W) -> Result<(), ProgramFault> {
    out.write_all(b"the server stops\n").map_err(of_output)
}

/// Tells why a server doesn't do a call.
fn tell_refusal<E: Write>(err: &mut E, refusal: CallRefusal) {
    let text = match refusal {
        CallRefusal::ProgramUnavailable => "PROG_UNAVAIL, it has no admin program",
        CallRefusal::ProgramMismatch { .. } =>
            "PROG_MISMATCH, its admin program is another version",
        CallRefusal::ProcedureUnavailable => "PROC_UNAVAIL, its admin program has no such call",
        CallRefusal::GarbageArguments => "GARBAGE_ARGS, it can't read the call's arguments",
        CallRefusal::SystemError => "SYSTEM_ERR, it is out of memory",
        CallRefusal::RpcMismatch { .. } => "RPC_MISMATCH, it speaks another version of RPC",
        CallRefusal::AuthError { number: TOO_WEAK } => {
            "AUTH_TOOWEAK, only root on its machine may ask that"
        }
        CallRefusal::AuthError { .. } => "AUTH_ERROR, it wants another credential",
    };
    let _told = writeln!(err, "the server refuses the call: {text}");
}

/// Tells why a call came to nothing, and what that is to the program.
pub(crate) fn tell_fault<E: Write>(err: &mut E, fault: AdminFault) -> ProgramFault {
    let text = match fault {
        AdminFault::Refused(refusal) => {
            tell_refusal(err, refusal);
            return ProgramFault::CallRefused;
        }
        AdminFault::NoMemory => return ProgramFault::NoMemory,
        AdminFault::Stream => "the connection to the server failed",
        AdminFault::Late => "the server hasn't answered within 10 seconds",
        AdminFault::Cut => "the server ended the connection before it had answered",
        AdminFault::TooLong => "the server's answer is longer than a record may be",
        AdminFault::Malformed(_) => "the server's answer is no reply of an admin program",
        AdminFault::OfAnotherCall => "the server's answer is the reply to another call",
    };
    let _told = writeln!(err, "{text}");
    ProgramFault::Reply
}
