//! Results of calls.

ghost use Rattle.std.specs.Prelude.{◌≡◌, ◌+◌, ◌*◌, ◌≤◌, ◌<◌, ◌^◌, ◌++◌, length, IsOk, OnOk, OnErr};
ghost use Rattle.std.specs.Prelude.{vec_len, vec_capacity};
ghost use Rattle.nfs_values.specs.Answer.{answer_of};
ghost use Rattle.nfs_values.specs.Status.{status_of};
ghost use Rattle.nfs_types.specs.Results.{absent_bytes, answer_bytes, done, failed, result_bytes};

use crate::encode::{Encode, write_absent};
use nfs_values::{Answer, Status};
use std::alloc::AllocError;

/// NFS3_OK and the OK arm.
fn write_done<T: Encode>(arm: &T, out: &mut Vec<u8>)
    requires short { length (done T.shape (T.value arm.now)) < 2 ^ 32 }
    requires room { vec_len out.old + length (done T.shape (T.value arm.now))
        ≤ vec_capacity out.old }
    ensures items { out.new.items ≡ out.old.items ++ done T.shape (T.value arm.now) }
    ensures capacity { vec_capacity out.old ≤ vec_capacity out.new }
{
    0u32.write(out);
    arm.write(out);
}

/// This many optional parts that are absent.
#[tactic(auto, using(crate::specs::lemmas::Absent::absent))]
fn write_absent_parts(count: u32, out: &mut Vec<u8>)
    requires { vec_len out.old + 4 * count ≤ vec_capacity out.old }
    ensures items { out.new.items ≡ out.old.items ++ absent_bytes count }
    ensures capacity { vec_capacity out.old ≤ vec_capacity out.new }
{
    for _part in 0..count {
        write_absent(out);
    }
}

/// A status and the failure arm, with this many optional parts.
#[tactic(auto, using(crate::specs::lemmas::Absent::absent))]
fn write_failed(status: Status, parts: u32, out: &mut Vec<u8>)
    requires few { parts ≤ 4 }
    requires room { vec_len out.old + length (failed (status_of status) parts)
        ≤ vec_capacity out.old }
    ensures items { out.new.items ≡ out.old.items ++ failed (status_of status) parts }
    ensures capacity { vec_capacity out.old ≤ vec_capacity out.new }
{
    status.word().write(out);
    write_absent_parts(parts, out);
}

/// What was done, or a failure whose arm has this many optional parts.
fn write_either<T: Encode>(outcome: &Result<T, Status>, parts: u32, out: &mut Vec<u8>)
    requires few { parts ≤ 4 }
    requires short { length (result_bytes T.shape T.value parts outcome.now) < 2 ^ 32 }
    requires room { vec_len out.old + length (result_bytes T.shape T.value parts outcome.now)
        ≤ vec_capacity out.old }
    ensures items { out.new.items
        ≡ out.old.items ++ result_bytes T.shape T.value parts outcome.now }
    ensures capacity { vec_capacity out.old ≤ vec_capacity out.new }
{
    match outcome {
        Ok(arm) => write_done(arm, out),
        Err(status) => write_failed(*status, parts, out),
    }
}

/// How many bytes they take.
#[tactic(auto, using(crate::specs::lemmas::Absent::absent))]
fn size_of_either<T: Encode>(outcome: &Result<T, Status>, parts: u32) -> usize
    requires few { parts ≤ 4 }
    requires short { length (result_bytes T.shape T.value parts outcome.now) < 2 ^ 32 }
    ensures { result ≡ length (result_bytes T.shape T.value parts outcome.now) }
{
    match outcome {
        Ok(arm) => 4 + arm.size(),
        Err(_) => 4 + 4 * parts as usize,
    }
}

/// Appends the results (RFC 1813 section 3.3), for which there is room.
#[tactic(auto, using(crate::proofs::Outcomes::outcomes))]
pub fn write_result(answer: &Answer, out: &mut Vec<u8>)
    requires short { length (answer_bytes (answer_of answer.now)) < 2 ^ 32 }
    requires room { vec_len out.old + length (answer_bytes (answer_of answer.now))
        ≤ vec_capacity out.old }
    ensures items { out.new.items ≡ out.old.items ++ answer_bytes (answer_of answer.now) }
    ensures capacity { vec_capacity out.old ≤ vec_capacity out.new }
{
    match answer {
        Answer::Null => (),
        Answer::GetAttributes(outcome) => write_either(outcome, 0, out),
        Answer::SetAttributes(outcome) => write_either(outcome, 2, out),
        Answer::Lookup(outcome) => write_either(outcome, 1, out),
        Answer::CheckAccess(outcome) => write_either(outcome, 1, out),
        Answer::ReadLink(outcome) => write_either(outcome, 1, out),
        Answer::Read(outcome) => write_either(outcome, 1, out),
        Answer::Write(outcome) => write_either(outcome, 2, out),
        Answer::Create(outcome) => write_either(outcome, 2, out),
        Answer::MakeDirectory(outcome) => write_either(outcome, 2, out),
        Answer::MakeSymbolicLink(outcome) => write_either(outcome, 2, out),
        Answer::MakeDevice(outcome) => write_either(outcome, 2, out),
        Answer::Remove(outcome) => write_either(outcome, 2, out),
        Answer::RemoveDirectory(outcome) => write_either(outcome, 2, out),
        Answer::Rename(outcome) => write_either(outcome, 4, out),
        Answer::MakeLink(outcome) => write_either(outcome, 3, out),
        Answer::ReadDirectory(outcome) => write_either(outcome, 1, out),
        Answer::ReadDirectoryPlus(outcome) => write_either(outcome, 1, out),
        Answer::FilesystemStatus(outcome) => write_either(outcome, 1, out),
        Answer::FilesystemInfo(outcome) => write_either(outcome, 1, out),
        Answer::PathConfiguration(outcome) => write_either(outcome, 1, out),
        Answer::Commit(outcome) => write_either(outcome, 2, out),
        Answer::Census(volumes) => volumes.write(out),
        Answer::Grow(outcome) => write_either(outcome, 0, out),
        Answer::Stop => (),
        Answer::Mount(outcome) => write_either(outcome, 0, out),
        Answer::ListMounts => write_absent(out),
        Answer::ListExports(exports) => exports.write(out),
    }
}

/// How many bytes the results take (RFC 1813 section 3.3).
#[tactic(auto, using(crate::proofs::Outcomes::outcomes))]
pub fn size_of_result(answer: &Answer) -> usize
    requires { length (answer_bytes (answer_of answer.now)) < 2 ^ 32 }
    ensures { result ≡ length (answer_bytes (answer_of answer.now)) }
{
    match answer {
        Answer::Null => 0,
        Answer::GetAttributes(outcome) => size_of_either(outcome, 0),
        Answer::SetAttributes(outcome) => size_of_either(outcome, 2),
        Answer::Lookup(outcome) => size_of_either(outcome, 1),
        Answer::CheckAccess(outcome) => size_of_either(outcome, 1),
        Answer::ReadLink(outcome) => size_of_either(outcome, 1),
        Answer::Read(outcome) => size_of_either(outcome, 1),
        Answer::Write(outcome) => size_of_either(outcome, 2),
        Answer::Create(outcome) => size_of_either(outcome, 2),
        Answer::MakeDirectory(outcome) => size_of_either(outcome, 2),
        Answer::MakeSymbolicLink(outcome) => size_of_either(outcome, 2),
        Answer::MakeDevice(outcome) => size_of_either(outcome, 2),
        Answer::Remove(outcome) => size_of_either(outcome, 2),
        Answer::RemoveDirectory(outcome) => size_of_either(outcome, 2),
        Answer::Rename(outcome) => size_of_either(outcome, 4),
        Answer::MakeLink(outcome) => size_of_either(outcome, 3),
        Answer::ReadDirectory(outcome) => size_of_either(outcome, 1),
        Answer::ReadDirectoryPlus(outcome) => size_of_either(outcome, 1),
        Answer::FilesystemStatus(outcome) => size_of_either(outcome, 1),
        Answer::FilesystemInfo(outcome) => size_of_either(outcome, 1),
        Answer::PathConfiguration(outcome) => size_of_either(outcome, 1),
        Answer::Commit(outcome) => size_of_either(outcome, 2),
        Answer::Census(volumes) => volumes.size(),
        Answer::Grow(outcome) => size_of_either(outcome, 0),
        Answer::Stop => 0,
        Answer::Mount(outcome) => size_of_either(outcome, 0),
        Answer::ListMounts => 4,
        Answer::ListExports(exports) => exports.size(),
    }
}

/// Appends the results (RFC 1813 section 3.3), or nothing.
pub fn encode_result(out: &mut Vec<u8>, answer: &Answer) -> Result<(), AllocError>
    requires { length (answer_bytes (answer_of answer.now)) < 2 ^ 32 }
    ensures ok { OnOk result (out.new.items
        ≡ out.old.items ++ answer_bytes (answer_of answer.now)) }
    ensures err { OnErr result (out.new.items ≡ out.old.items) }
    ensures succeeds { vec_len out.old + length (answer_bytes (answer_of answer.now))
        ≤ vec_capacity out.old
        → IsOk result }
    ensures capacity { vec_capacity out.old ≤ vec_capacity out.new }
{
    out.try_reserve(size_of_result(answer))?;
    write_result(answer, out);
    Ok(())
}
