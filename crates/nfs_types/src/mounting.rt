//! Results of MOUNT (RFC 1813 appendix I).

ghost use Rattle.std.specs.Prelude.{◌≡◌, ◌+◌, ◌*◌, ◌≤◌, ◌++◌, map};
ghost use Rattle.std.specs.Prelude.{vec_len, vec_capacity};
ghost use Rattle.std.specs.List.{range_with_len};
ghost use Rattle.xdr.specs.Shape.{spelling};
ghost use Rattle.nfs_model.specs.Serial.Mount.{volume_path};
ghost use Rattle.nfs_types.specs.Results.{mounted_shape, mounted_value, export_shape};
ghost use Rattle.nfs_types.specs.Results.{export_value, exports_shape};

use crate::encode::{Encode, write_absent};
use nfs_values::{Exports, MountResults, export_path};
use xdr::put_opaque;

/// AUTH_SYS and AUTH_NONE (RFC 5531 section 8.2).
const AUTH_SYS: u32 = 1;

const AUTH_NONE: u32 = 0;

impl Encode for MountResults {
    ghost shape = { mounted_shape };

    ghost value = { λ r. mounted_value r.handle };

    fn size(&self) -> usize {
        self.handle.size() + 12
    }

    fn write(&self, out: &mut Vec<u8>) {
        self.handle.write(out);
        2u32.write(out);
        AUTH_SYS.write(out);
        AUTH_NONE.write(out);
    }
}

/// The export of a volume, which has no groups: everybody may mount it.
fn write_export(volume: u32, out: &mut Vec<u8>)
    requires few { volume + 1 ≤ 8 }
    requires room { vec_len out.old + 16 ≤ vec_capacity out.old }
    ensures items { out.new.items
        ≡ out.old.items ++ spelling export_shape (export_value (volume_path volume)) }
    ensures len { vec_len out.new ≡ vec_len out.old + 16 }
    ensures capacity { vec_capacity out.old ≤ vec_capacity out.new }
{
    put_opaque(out, &export_path(volume)).unwrap();
    write_absent(out);
}

/// The exports of this many volumes from one on, each behind TRUE, and FALSE at the end.
fn write_exports(first: u32, count: u32, out: &mut Vec<u8>)
    requires few { first + count ≤ 8 }
    requires room { vec_len out.old + 20 * count + 4 ≤ vec_capacity out.old }
    ensures items { out.new.items ≡ out.old.items ++ spelling exports_shape
        (map export_value (map volume_path (range_with_len first count))) }
    ensures capacity { vec_capacity out.old ≤ vec_capacity out.new }
{
    if count == 0 {
        write_absent(out);
        return;
    }
    true.write(out);
    write_export(first, out);
    write_exports(first + 1, count - 1, out);
}

impl Encode for Exports {
    ghost shape = { exports_shape };

    ghost value = { λ e. map export_value
        (map volume_path (range_with_len 0 e.volumes)) };

    fn size(&self) -> usize {
        20 * self.volumes as usize + 4
    }

    fn write(&self, out: &mut Vec<u8>) {
        write_exports(0, self.volumes, out);
    }
}
