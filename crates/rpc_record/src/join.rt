ghost use Rattle.std.specs.Prelude.{◌≡◌, ◌<◌, ◌≤◌, ◌+◌, ◌++◌, length, take, vec_len, IfOk};
ghost use Rattle.std.specs.Prelude.{OnOk, OnErr};
ghost use Rattle.rpc_record.specs.Machine.{scan};
ghost use Rattle.rpc_record.specs.Position.{state, IsPosition, outcome_of};
ghost use Rattle.rpc_record.specs.declared.position.Turn.TheVariants as turns;

use crate::position::{Position, Turn};
use std::alloc::AllocError;

/// Appends bytes. None, as in a header, cost no copy.
fn append(joined: &mut Vec<u8>, bytes: &[u8]) -> Result<(), AllocError>
    ensures items { OnOk result (joined.new.items ≡ joined.old.items ++ bytes.now) }
    ensures len { OnOk result (vec_len joined.new ≡ vec_len joined.old + length bytes.now) }
    ensures err { OnErr result (joined.new.items ≡ joined.old.items) }
{
    if bytes.is_empty() {
        return Ok(());
    }
    joined.extend_from_slice(bytes)
}

/// Joins the data up to the end of a record or a fault. At a refused growth the data that was there
/// is kept, but more may stand after it, and the position may have moved.
pub(crate) fn join(
    joined: &mut Vec<u8>,
    position: &mut Position,
    bytes: &[u8],
) -> Result<(usize, Turn), AllocError>
    requires sound { IsPosition position.old }
    requires joined { vec_len joined.old ≡ position.old.joined }
    ensures scanned { IfOk result (λ r. scan 0 (state joined.old.items position.old) bytes.now
        ≡ outcome_of r.0 r.1 joined.new.items position.new) }
    ensures within { IfOk result (λ r. r.0 ≤ length bytes.now) }
    ensures some { IfOk result (λ r. r.1 ≡ turns.Ends → 0 < r.0) }
    ensures all { IfOk result (λ r. r.1 ≡ turns.Goes → r.0 ≡ length bytes.now) }
    ensures sound { IsPosition position.new }
    ensures joined { IfOk result (λ _. vec_len joined.new ≡ position.new.joined) }
    ensures kept { take (vec_len joined.old) joined.new.items ≡ joined.old.items }
{
    let mut taken = 0;
    while taken < bytes.len() {
        let rest = &bytes[taken..];
        let data = position.left.min(rest.len());
        append(joined, &rest[..data])?;
        let (size, turn) = position.take(rest);
        taken += size;
        match turn {
            Turn::Goes => {}
            Turn::Ends => return Ok((taken, Turn::Ends)),
            Turn::Faults => return Ok((taken, Turn::Faults)),
        }
    }
    Ok((taken, Turn::Goes))
}
