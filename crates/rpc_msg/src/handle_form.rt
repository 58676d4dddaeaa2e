//! How handles are spelled.

ghost use Rattle.std.specs.Prelude.{◌≡◌, length};
ghost use Rattle.std.specs.Int.{w64, to_be_bytes};
ghost use Rattle.nfs_model.specs.Names.{same_name};
ghost use Rattle.rpc_msg.specs.HandleForm.{heard_in_run as heard_so, told_in_run as told_so};

use nfs_values::{FileHandle, HANDLE_BYTES};

/// How a server spells its handles, which are opaque to clients (nfs_fh3, RFC 1813 section 2.6).
#[derive(Clone, Copy)]
pub enum HandleForm {
    /// As they are: volume and fileid.
    Plain,
    /// And then the verifier of the run, which has this number, so that those of another run are
    /// stale.
    OfRun(u64),
}

/// Whether eight bytes are those of a number, the highest first.
fn spell(bytes: &[u8], number: u64) -> bool
    requires { length bytes.now ≡ 8 }
    ensures { result ≡ same_name bytes.now (to_be_bytes w64 number) }
{
    let spelled = u64::from_be_bytes([
        bytes[0], bytes[1], bytes[2], bytes[3], bytes[4], bytes[5], bytes[6], bytes[7],
    ]);
    spelled == number
}

/// What came as a handle, as the server has it in the run of this number.
pub(crate) fn heard_in_run(handle: &FileHandle, run: u64) -> FileHandle
    ensures { result ≡ heard_so run handle.now }
{
    let mut space = [0; HANDLE_BYTES];
    let bytes = handle.bytes_in(&mut space);
    if bytes.len() != 20 {
        return FileHandle::new(&[]);
    }
    if spell(&bytes[HANDLE_BYTES..], run) {
        return FileHandle::new(&bytes[..HANDLE_BYTES]);
    }
    let mut other = [0; HANDLE_BYTES];
    other[..4].copy_from_slice(&bytes[..4]);
    FileHandle::new(&other)
}

/// A handle as it is told in the run of this number.
pub(crate) fn told_in_run(handle: &FileHandle, run: u64) -> FileHandle
    ensures { result ≡ told_so run handle.now }
{
    let mut space = [0; HANDLE_BYTES];
    let bytes = handle.bytes_in(&mut space);
    let size = HANDLE_BYTES.min(bytes.len());
    let mut told = [0; 20];
    told[..size].copy_from_slice(&bytes[..size]);
    told[size..size + 8].copy_from_slice(&run.to_be_bytes());
    FileHandle::new(&told[..size + 8])
}
