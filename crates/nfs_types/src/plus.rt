//! The entries of a READDIRPLUS, and its results (RFC 1813 section 3.3.17).

ghost use Rattle.std.specs.Prelude.{map};
ghost use Rattle.xdr.specs.Shape.{Chain};
ghost use Rattle.nfs_values.specs.Attributes.{shown_of};
ghost use Rattle.nfs_values.specs.Answer.{entry_plus_of};
ghost use Rattle.nfs_types.specs.Results.{entry_plus_shape, entry_plus_value};
ghost use Rattle.nfs_types.specs.Results.{readdirplus_shape, readdirplus_value};

use crate::encode::Encode;
use crate::lists::{size_of_chain, size_of_page, write_chain, write_page};
use nfs_values::answer::{DirectoryEntryPlus, ReadDirectoryPlusResults};

impl Encode for DirectoryEntryPlus {
    ghost shape = { entry_plus_shape };

    ghost value = { λ e. entry_plus_value (entry_plus_of e) };

    fn size(&self) -> usize {
        self.entry.size() + self.attributes.size() + self.handle.size()
    }

    fn write(&self, out: &mut Vec<u8>) {
        self.entry.write(out);
        self.attributes.write(out);
        self.handle.write(out);
    }
}

impl Encode for Vec<DirectoryEntryPlus> {
    ghost shape = { Chain entry_plus_shape };

    ghost value = { λ v. map entry_plus_value (map entry_plus_of v.items) };

    fn size(&self) -> usize {
        size_of_chain(self)
    }

    fn write(&self, out: &mut Vec<u8>) {
        write_chain(self, out);
    }
}

impl Encode for ReadDirectoryPlusResults {
    ghost shape = { readdirplus_shape };

    ghost value = { λ r.
        readdirplus_value (shown_of r.directory) (map entry_plus_of r.entries.items) r.eof };

    fn size(&self) -> usize {
        size_of_page(&self.directory, &self.entries, self.eof)
    }

    fn write(&self, out: &mut Vec<u8>) {
        write_page(&self.directory, &self.entries, self.eof, out);
    }
}
