//! The arms of results that tell what was done (RFC 1813 section 3.3).

ghost use Rattle.std.specs.Prelude.{length};
ghost use Rattle.nfs_values.specs.Attributes.{shown_of, change_of};
ghost use Rattle.nfs_values.specs.Answer.{space_of};
ghost use Rattle.nfs_types.specs.Results.{lookup_shape, lookup_value, read_shape, read_value};
ghost use Rattle.nfs_types.specs.Results.{access_results_shape, access_value};
ghost use Rattle.nfs_types.specs.Results.{readlink_shape, readlink_value};
ghost use Rattle.nfs_types.specs.Results.{linked_shape, linked_value};
ghost use Rattle.nfs_types.specs.Results.{fsinfo_shape, fsinfo_value};
ghost use Rattle.nfs_types.specs.Results.{pathconf_shape, pathconf_value};
ghost use Rattle.nfs_types.specs.Results.{write_shape, write_value, made_shape, made_value};
ghost use Rattle.nfs_types.specs.Results.{renamed_shape, renamed_value};
ghost use Rattle.nfs_types.specs.Results.{fsstat_shape, fsstat_value, commit_shape, commit_value};

use crate::encode::{
    Encode, append, join, size_of_present, two_words, verifier_bytes, write_absent, write_present,
};
use nfs_values::answer::{
    AccessResults, CommitResults, FilesystemInfoResults, FilesystemStatusResults, LinkResults,
    LookupResults, MakeResults, PathConfigurationResults, ReadLinkResults, ReadResults,
    RenameResults, WriteResults,
};
use nfs_values::{BLOCK_BYTES, COUNT_LIMIT, MOST_LINKS};

/// FILE_SYNC (RFC 1813 section 3.3.7).
const FILE_SYNC: u32 = 2;

/// FALSE, in the place of an optional part that is absent.
const ABSENT: u32 = 0;

impl Encode for LookupResults {
    ghost shape = { lookup_shape };

    ghost value = { λ r. lookup_value r.handle (shown_of r.object) (shown_of r.directory) };

    fn size(&self) -> usize {
        self.handle.size() + size_of_present(&self.object) + size_of_present(&self.directory)
    }

    fn write(&self, out: &mut Vec<u8>) {
        self.handle.write(out);
        write_present(&self.object, out);
        write_present(&self.directory, out);
    }
}

impl Encode for AccessResults {
    ghost shape = { access_results_shape };

    ghost value = { λ r. access_value (shown_of r.object) r.given };

    fn size(&self) -> usize {
        size_of_present(&self.object) + 4
    }

    fn write(&self, out: &mut Vec<u8>) {
        write_present(&self.object, out);
        self.given.write(out);
    }
}

impl Encode for ReadLinkResults {
    ghost shape = { readlink_shape };

    ghost value = { λ r. readlink_value (shown_of r.object) r.text };

    fn size(&self) -> usize {
        size_of_present(&self.object) + self.text.size()
    }

    fn write(&self, out: &mut Vec<u8>) {
        write_present(&self.object, out);
        self.text.write(out);
    }
}

impl Encode for ReadResults {
    ghost shape = { read_shape };

    ghost value = { λ r. read_value (length r.bytes) r.eof r.bytes };

    fn size(&self) -> usize {
        12 + self.bytes.size()
    }

    fn write(&self, out: &mut Vec<u8>) {
        write_absent(out);
        (self.bytes.as_slice().len() as u32).write(out);
        self.eof.write(out);
        self.bytes.write(out);
    }
}

impl Encode for WriteResults {
    ghost shape = { write_shape };

    ghost value = { λ r. write_value r.count r.verifier.0 };

    fn size(&self) -> usize {
        16 + self.verifier.size()
    }

    fn write(&self, out: &mut Vec<u8>) {
        let done = two_words(self.count, FILE_SYNC);
        let behind: [u8; 16] = join(done, verifier_bytes(self.verifier));
        append(out, &join::<8, 16, 24>(two_words(ABSENT, ABSENT), behind));
    }
}

impl Encode for MakeResults {
    ghost shape = { made_shape };

    ghost value = { λ r. made_value r.handle (shown_of r.object) (change_of r.directory) };

    fn size(&self) -> usize {
        size_of_present(&self.handle) + size_of_present(&self.object) + self.directory.size()
    }

    fn write(&self, out: &mut Vec<u8>) {
        write_present(&self.handle, out);
        write_present(&self.object, out);
        self.directory.write(out);
    }
}

impl Encode for RenameResults {
    ghost shape = { renamed_shape };

    ghost value = { λ r. renamed_value (change_of r.from) (change_of r.to) };

    fn size(&self) -> usize {
        self.from.size() + self.to.size()
    }

    fn write(&self, out: &mut Vec<u8>) {
        self.from.write(out);
        self.to.write(out);
    }
}

impl Encode for LinkResults {
    ghost shape = { linked_shape };

    ghost value = { λ r. linked_value (shown_of r.object) (change_of r.directory) };

    fn size(&self) -> usize {
        size_of_present(&self.object) + self.directory.size()
    }

    fn write(&self, out: &mut Vec<u8>) {
        write_present(&self.object, out);
        self.directory.write(out);
    }
}

impl Encode for FilesystemStatusResults {
    ghost shape = { fsstat_shape };

    ghost value = { λ r. fsstat_value (shown_of r.root) (space_of r) };

    fn size(&self) -> usize {
        size_of_present(&self.root) + 6 * 8 + 4
    }

    fn write(&self, out: &mut Vec<u8>) {
        write_present(&self.root, out);
        let inodes = (self.inodes, (self.free_inodes, (self.free_inodes, 0u32)));
        (
            self.total_bytes,
            (self.free_bytes, (self.free_bytes, inodes)),
        )
            .write(out);
    }
}

/// The bytes by whose multiples files are best read and written (RFC 1813 section 3.3.19).
const BEST_MULTIPLE: u32 = BLOCK_BYTES as u32;

/// FSF3_LINK, FSF3_SYMLINK, FSF3_HOMOGENEOUS and FSF3_CANSETTIME (RFC 1813 section 3.3.19).
const PROPERTIES: u32 = 0x0001 + 0x0002 + 0x0008 + 0x0010;

impl Encode for FilesystemInfoResults {
    ghost shape = { fsinfo_shape };

    ghost value = { λ r. fsinfo_value (shown_of r.root) r.largest };

    fn size(&self) -> usize {
        size_of_present(&self.root) + 7 * 4 + 8 + 8 + 4
    }

    fn write(&self, out: &mut Vec<u8>) {
        write_present(&self.root, out);
        let sizes = (COUNT_LIMIT, (COUNT_LIMIT, BEST_MULTIPLE));
        let time_delta = (0u32, 1u32);
        sizes.write(out);
        sizes.write(out);
        (COUNT_LIMIT, (self.largest, (time_delta, PROPERTIES))).write(out);
    }
}

/// The most bytes of a name.
const MOST_NAME: u32 = 255;

impl Encode for PathConfigurationResults {
    ghost shape = { pathconf_shape };

    ghost value = { λ r. pathconf_value (shown_of r.object) r.is_chown_restricted };

    fn size(&self) -> usize {
        size_of_present(&self.object) + 6 * 4
    }

    fn write(&self, out: &mut Vec<u8>) {
        write_present(&self.object, out);
        let no_trunc = true;
        let chown_restricted = self.is_chown_restricted;
        let case_insensitive = false;
        let case_preserving = true;
        let flags = (
            no_trunc,
            (chown_restricted, (case_insensitive, case_preserving)),
        );
        (MOST_LINKS, (MOST_NAME, flags)).write(out);
    }
}

impl Encode for CommitResults {
    ghost shape = { commit_shape };

    ghost value = { λ r. commit_value (change_of r.file) r.verifier.0 };

    fn size(&self) -> usize {
        self.file.size() + self.verifier.size()
    }

    fn write(&self, out: &mut Vec<u8>) {
        self.file.write(out);
        self.verifier.write(out);
    }
}
