//! The texts of a volume's symbolic links.

ghost use Rattle.std.specs.Prelude.{◌≡◌, ℕ, OnOk, OnErr};
ghost use Rattle.std.specs.BTreeMap as btree;
ghost use Rattle.std.specs.FinMap.{empty, get, insert, remove};
ghost use Rattle.std.specs.Option.{option_copied};
ghost use Rattle.std.specs.Ordering.{nat_cmp};
ghost use Rattle.filer_state.specs.FileidMap.{Puts};

use nfs_values::{Fileid, Name};
use std::alloc::{AllocError, Global};
use std::collections::BTreeMap;
use std::marker::Model;

/// Texts of symbolic links by their fileids (nfspath3, RFC 1813 section 2.5).
pub struct TextMap {
    by_fileid: BTreeMap<u64, Name>,
}

// By hand, so that crates above have no proof of the drop of each of its parts.
impl Drop for TextMap {
    fn drop(self) {
        let TextMap { by_fileid: _ } = self;
    }
}

impl Model for TextMap {
    ghost use Rattle.std.specs.Prelude.{List, ℕ};
    ghost use Rattle.std.specs.FinMap.{FinMap, from_entries};
    ghost use Rattle.std.specs.FinMap as maps;
    ghost use Rattle.std.specs.Coded.{coded_ℕ, coded_list};
    ghost use Rattle.std.specs.Ordering.{nat_cmp};

    ghost Value = { FinMap nat_cmp (List ℕ) };

    ghost coded = { maps.code coded_ℕ (coded_list coded_ℕ) };

    ghost view = { λ t. from_entries t.by_fileid.entries };
}

impl TextMap {
    /// No text. It takes no memory.
    pub fn new(alloc: Global) -> TextMap
        ensures { result ≡ empty }
    {
        TextMap {
            by_fileid: BTreeMap::new(alloc),
        }
    }

    /// The text of a fileid.
    pub fn get(&self, fileid: Fileid) -> Option<&[u8]>
        ensures { option_copied result ≡ get self.now fileid.0 }
    {
        let text = self.by_fileid.get(&fileid.0)?;
        Some(text.as_bytes())
    }

    /// Puts a text under a fileid. Where there is no memory for it nothing changes.
    pub fn insert(&mut self, fileid: Fileid, text: Name) -> Result<(), AllocError>
        ensures ok { OnOk result (self.new ≡ insert self.old fileid.0 text) }
        ensures err { OnErr result (self.new ≡ self.old) }
    {
        put(&mut self.by_fileid, fileid.0, text)
    }

    /// Removes the text of a fileid, if there is one. It takes no memory.
    pub fn remove(&mut self, fileid: Fileid)
        ensures { self.new ≡ remove self.old fileid.0 }
    {
        self.by_fileid.remove(&fileid.0);
    }
}

/// Puts a text under a fileid.
fn put(by_fileid: &mut BTreeMap<u64, Name>, fileid: u64, text: Name) -> Result<(), AllocError>
    ensures ok { OnOk result (Puts fileid text by_fileid.old by_fileid.new) }
    ensures err { OnErr result
        ((q : ℕ) → btree.get nat_cmp by_fileid.new q ≡ btree.get nat_cmp by_fileid.old q) }
{
    by_fileid.insert(fileid, text)?;
    Ok(())
}
