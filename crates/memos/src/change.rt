//! Calls whose replies are remembered, kept in place.

ghost use Rattle.std.specs.Prelude.{◌≡◌, true, false, is_some};
ghost use Rattle.std.specs.Option.{option_map};
ghost use Rattle.nfs_model.specs.Types as model;
ghost use Rattle.nfs_model.specs.Serial.Once.{change_of, is_short};
ghost use Rattle.nfs_values.specs.Call.{call_of};
ghost use Rattle.nfs_values.specs.Attributes.{kind_of};
ghost use Rattle.nfs_values.specs.Moment.{moment_of};
ghost use Rattle.nfs_values.specs.Set.{mode_of, set_of};
ghost use Rattle.memos.specs.Kept.{asks, change_kept, change_with, name_kept, text_kept};

use crate::entry::{Entry, is_short, is_whole};
use crate::same::{is_same_guard, is_same_kind, is_same_mode, is_same_set};
use crate::text::Text;
use nfs_values::{
    Call, CreateMode, FileHandle, FileKind, MOST_TEXT, Moment, Name, SetAttributes, Target,
};

/// What a call asks, but for its handles, names and text.
#[derive(Clone, Copy)]
pub(crate) enum Asked {
    /// No call is kept.
    Nothing,
    Set {
        set: SetAttributes,
        guard: Option<Moment>,
    },
    Create(CreateMode),
    MakeDirectory(SetAttributes),
    MakeSymbolicLink(SetAttributes),
    MakeDevice {
        kind: FileKind,
        set: SetAttributes,
    },
    Remove,
    RemoveDirectory,
    Rename,
    MakeLink,
}

/// A call with its arguments (RFC 1813 section 3.3), or none.
#[derive(Clone, Copy)]
pub(crate) struct KeptChange {
    asked: Asked,
    /// Its handle, with its name if it has one.
    first: Entry,
    /// The second ones of a RENAME, and the object's handle of a LINK.
    second: Entry,
    /// That of a SYMLINK.
    text: Text,
}

/// Whether replies of this call may be remembered.
pub(crate) fn is_remembered(call: &Call) -> bool
    ensures { result ≡ false → is_some (change_of (call_of call.now)) ≡ false }
{
    match call {
        Call::SetAttributes { .. } => true,
        Call::Create { .. } => true,
        Call::MakeDirectory { .. } => true,
        Call::MakeSymbolicLink { .. } => true,
        Call::MakeDevice { .. } => true,
        Call::Remove(_) => true,
        Call::RemoveDirectory(_) => true,
        Call::Rename { .. } => true,
        Call::MakeLink { .. } => true,
        _ => false,
    }
}

impl KeptChange {
    /// No call.
    pub(crate) const NONE: KeptChange = KeptChange {
        asked: Asked::Nothing,
        first: Entry::EMPTY,
        second: Entry::EMPTY,
        text: Text::EMPTY,
    };

    /// Whether it is this call.
    pub(crate) fn is_of(&self, call: &Call) -> bool
        ensures { result ≡ asks (change_kept self.now) (change_of (call_of call.now)) }
    {
        match call {
            Call::SetAttributes { handle, set, guard } => self.is_set(handle, set, *guard),
            Call::Create { target, mode } => self.is_creation(target, mode),
            Call::MakeDirectory { target, set } => self.is_directory_made(target, set),
            Call::MakeSymbolicLink { target, set, text } => {
                self.is_symbolic_link_made(target, set, text)
            }
            Call::MakeDevice { target, kind, set } => self.is_device_made(target, *kind, set),
            Call::Remove(target) => self.is_removal(target),
            Call::RemoveDirectory(target) => self.is_directory_removed(target),
            Call::Rename { from, to } => self.is_renaming(from, to),
            Call::MakeLink { handle, target } => self.is_link_made(handle, target),
            _ => false,
        }
    }

    /// Whether it is a SETATTR with these arguments.
    fn is_set(&self, handle: &FileHandle, set: &SetAttributes, guard: Option<Moment>) -> bool
        ensures { result ≡ asks (change_kept self.now)
            (change_of (model.Setattr handle.now (set_of set.now) (option_map moment_of guard))) }
    {
        match &self.asked {
            Asked::Set {
                set: kept,
                guard: kept_guard,
            } => {
                self.first.has_handle(handle)
                    && is_same_set(kept, set)
                    && is_same_guard(*kept_guard, guard)
            }
            _ => false,
        }
    }

    /// Whether it is a CREATE with these arguments.
    fn is_creation(&self, target: &Target, mode: &CreateMode) -> bool
        ensures { result ≡ asks (change_kept self.now)
            (change_of (model.Create target.now.directory target.now.name (mode_of mode.now))) }
    {
        match &self.asked {
            Asked::Create(kept) => self.first.is_of(target) && is_same_mode(kept, mode),
            _ => false,
        }
    }

    /// Whether it is a MKDIR with these arguments.
    fn is_directory_made(&self, target: &Target, set: &SetAttributes) -> bool
        ensures { result ≡ asks (change_kept self.now)
            (change_of (model.Mkdir target.now.directory target.now.name (set_of set.now))) }
    {
        match &self.asked {
            Asked::MakeDirectory(kept) => self.first.is_of(target) && is_same_set(kept, set),
            _ => false,
        }
    }

    /// Whether it is a SYMLINK with these arguments.
    fn is_symbolic_link_made(&self, target: &Target, set: &SetAttributes, text: &Name) -> bool
        ensures { result ≡ asks (change_kept self.now) (change_of (model.Symlink
            target.now.directory target.now.name (set_of set.now) text.now)) }
    {
        match &self.asked {
            Asked::MakeSymbolicLink(kept) => {
                self.first.is_of(target) && is_same_set(kept, set) && self.text.is(text.as_bytes())
            }
            _ => false,
        }
    }

    /// Whether it is a MKNOD with these arguments.
    fn is_device_made(&self, target: &Target, kind: FileKind, set: &SetAttributes) -> bool
        ensures { result ≡ asks (change_kept self.now) (change_of (model.Mknod
            target.now.directory target.now.name (kind_of kind) (set_of set.now))) }
    {
        match &self.asked {
            Asked::MakeDevice {
                kind: kept_kind,
                set: kept,
            } => {
                self.first.is_of(target) && is_same_kind(*kept_kind, kind) && is_same_set(kept, set)
            }
            _ => false,
        }
    }

    /// Whether it is a LINK with these arguments.
    fn is_link_made(&self, handle: &FileHandle, target: &Target) -> bool
        ensures { result ≡ asks (change_kept self.now) (change_of (model.Link
            handle.now target.now.directory target.now.name)) }
    {
        match &self.asked {
            Asked::MakeLink => self.second.has_handle(handle) && self.first.is_of(target),
            _ => false,
        }
    }

    /// Whether it is a REMOVE of this.
    fn is_removal(&self, target: &Target) -> bool
        ensures { result ≡ asks (change_kept self.now)
            (change_of (model.Remove target.now.directory target.now.name)) }
    {
        match &self.asked {
            Asked::Remove => self.first.is_of(target),
            _ => false,
        }
    }

    /// Whether it is an RMDIR of this.
    fn is_directory_removed(&self, target: &Target) -> bool
        ensures { result ≡ asks (change_kept self.now)
            (change_of (model.Rmdir target.now.directory target.now.name)) }
    {
        match &self.asked {
            Asked::RemoveDirectory => self.first.is_of(target),
            _ => false,
        }
    }

    /// Whether it is a RENAME with these arguments.
    fn is_renaming(&self, from: &Target, to: &Target) -> bool
        ensures { result ≡ asks (change_kept self.now) (change_of (model.Rename
            from.now.directory from.now.name to.now.directory to.now.name)) }
    {
        match &self.asked {
            Asked::Rename => self.first.is_of(from) && self.second.is_of(to),
            _ => false,
        }
    }

    /// Keeps a call, if its reply is to be remembered, and tells whether it did.
    pub(crate) fn put(&mut self, call: &Call) -> bool
        ensures which { result ≡ is_some (change_of (call_of call.now)) }
        ensures kept { result ≡ true → change_kept self.new ≡ change_of (call_of call.now) }
        ensures unchanged { result ≡ false → self.new ≡ self.old }
    {
        match call {
            Call::SetAttributes { handle, set, guard } => self.put_set(handle, set, *guard),
            Call::Create { target, mode } => self.put_one(Asked::Create(*mode), target),
            Call::MakeDirectory { target, set } => {
                self.put_one(Asked::MakeDirectory(*set), target)
            }
            Call::MakeSymbolicLink { target, set, text } => {
                self.put_symbolic_link(target, set, text)
            }
            Call::MakeDevice { target, kind, set } => {
                self.put_one(
                    Asked::MakeDevice {
                        kind: *kind,
                        set: *set,
                    },
                    target,
                )
            }
            Call::Remove(target) => self.put_one(Asked::Remove, target),
            Call::RemoveDirectory(target) => self.put_one(Asked::RemoveDirectory, target),
            Call::Rename { from, to } => self.put_two(from, to),
            Call::MakeLink { handle, target } => self.put_link(handle, target),
            _ => false,
        }
    }

    /// Keeps a SETATTR, unless its handle names nothing.
    fn put_set(&mut self, handle: &FileHandle, set: &SetAttributes, guard: Option<Moment>) -> bool
        ensures which { result ≡ is_some
            (change_of (model.Setattr handle.now (set_of set.now) (option_map moment_of guard))) }
        ensures kept { result ≡ true → change_kept self.new
            ≡ change_of (model.Setattr handle.now (set_of set.now) (option_map moment_of guard)) }
        ensures unchanged { result ≡ false → self.new ≡ self.old }
    {
        if !is_whole(handle) {
            return false;
        }
        self.asked = Asked::Set { set: *set, guard };
        self.first.put_handle(handle);
        true
    }

    /// Keeps a call on one name, unless it can't succeed.
    fn put_one(&mut self, asked: Asked, target: &Target) -> bool
        ensures which { result ≡ is_short target.now.directory target.now.name }
        ensures kept { result ≡ true → change_kept self.new
            ≡ change_with asked target.now.directory target.now.name
            self.old.second.handle (name_kept self.old.second) (text_kept self.old.text) }
        ensures unchanged { result ≡ false → self.new ≡ self.old }
    {
        if !is_short(target) {
            return false;
        }
        self.asked = asked;
        self.first.put(target);
        true
    }

    /// Keeps a SYMLINK, unless it can't succeed.
    fn put_symbolic_link(&mut self, target: &Target, set: &SetAttributes, text: &Name) -> bool
        ensures which { result ≡ is_some (change_of (model.Symlink
            target.now.directory target.now.name (set_of set.now) text.now)) }
        ensures kept { result ≡ true → change_kept self.new ≡ change_of (model.Symlink
            target.now.directory target.now.name (set_of set.now) text.now) }
        ensures unchanged { result ≡ false → self.new ≡ self.old }
    {
        let bytes = text.as_bytes();
        if !is_short(target) || bytes.len() > MOST_TEXT {
            return false;
        }
        self.asked = Asked::MakeSymbolicLink(*set);
        self.first.put(target);
        self.text.put(bytes);
        true
    }

    /// Keeps a LINK, unless it can't succeed.
    fn put_link(&mut self, handle: &FileHandle, target: &Target) -> bool
        ensures which { result ≡ is_some (change_of (model.Link
            handle.now target.now.directory target.now.name)) }
        ensures kept { result ≡ true → change_kept self.new ≡ change_of (model.Link
            handle.now target.now.directory target.now.name) }
        ensures unchanged { result ≡ false → self.new ≡ self.old }
    {
        if !is_whole(handle) || !is_short(target) {
            return false;
        }
        self.asked = Asked::MakeLink;
        self.first.put(target);
        self.second.put_handle(handle);
        true
    }

    /// Keeps a RENAME, unless it can't succeed.
    fn put_two(&mut self, from: &Target, to: &Target) -> bool
        ensures which { result ≡ is_some (change_of (model.Rename
            from.now.directory from.now.name to.now.directory to.now.name)) }
        ensures kept { result ≡ true → change_kept self.new ≡ change_of (model.Rename
            from.now.directory from.now.name to.now.directory to.now.name) }
        ensures unchanged { result ≡ false → self.new ≡ self.old }
    {
        if !is_short(from) || !is_short(to) {
            return false;
        }
        self.asked = Asked::Rename;
        self.first.put(from);
        self.second.put(to);
        true
    }
}
