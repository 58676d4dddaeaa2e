//! Which procedures are offered.

ghost use Rattle.std.specs.Prelude.{◌≡◌, ◌≢◌, true, false, IfSome, None};

use crate::procedure::{PROCEDURES, Procedure};

/// Which procedures are offered: a set of them. A call of another is refused, as one of a number
/// that no procedure has (PROC_UNAVAIL, RFC 5531 section 9).
#[derive(Clone, Copy)]
pub struct ProcedureSet {
    /// Of each procedure, at its place, whether it is offered.
    has: [bool; PROCEDURES],
}

impl ProcedureSet {
    ghost use Rattle.nfs_values.specs.ProcedureSet.{basic, export, offers, offers_program};
    ghost use Rattle.nfs_values.specs.ProcedureSet.{basic_numbers, export_numbers, is_among};
    ghost use Rattle.nfs_values.specs.Procedure.{numbers_of};
    ghost use Rattle.nfs_values.specs.declared.procedure.Procedure.{Procedure as Known};

    /// The offer of `replay` and `serve`: every procedure but ACCESS, FSINFO, PATHCONF,
    /// READDIRPLUS, those on links and devices, those of MOUNT, and STOP.
    pub fn basic() -> ProcedureSet
        ensures set { result ≡ basic }
        ensures listed { (p : Known)
            → offers result p ≡ is_among basic_numbers (numbers_of p) }
    {
        ProcedureSet {
            has: [
                true, // Null
                true, // GetAttributes
                true, // SetAttributes
                true, // Lookup
                false, // CheckAccess
                false, // ReadLink
                true, // Read
                true, // Write
                true, // Create
                true, // MakeDirectory
                false, // MakeSymbolicLink
                false, // MakeDevice
                true, // Remove
                true, // RemoveDirectory
                true, // Rename
                false, // MakeLink
                true, // ReadDirectory
                false, // ReadDirectoryPlus
                true, // FilesystemStatus
                false, // FilesystemInfo
                false, // PathConfiguration
                true, // Commit
                false, // MountNull
                false, // Mount
                false, // ListMounts
                false, // Unmount
                false, // UnmountAll
                false, // ListExports
                true, // AdminNull
                true, // Census
                true, // Grow
                false, // Stop
            ],
        }
    }

    /// The offer of a server that clients mount: every procedure.
    pub fn export() -> ProcedureSet
        ensures set { result ≡ export }
        ensures listed { (p : Known)
            → offers result p ≡ is_among export_numbers (numbers_of p) }
    {
        ProcedureSet {
            has: [true; PROCEDURES],
        }
    }

    /// The offer with this procedure too.
    pub fn with(self, procedure: Procedure) -> ProcedureSet
        ensures this { offers result procedure ≡ true }
        ensures others { (p : Known) → p ≢ procedure → offers result p ≡ offers self p }
    {
        let ProcedureSet { mut has } = self;
        has[procedure.place()] = true;
        ProcedureSet { has }
    }

    /// The offer without this procedure.
    pub fn without(self, procedure: Procedure) -> ProcedureSet
        ensures this { offers result procedure ≡ false }
        ensures others { (p : Known) → p ≢ procedure → offers result p ≡ offers self p }
    {
        let ProcedureSet { mut has } = self;
        has[procedure.place()] = false;
        ProcedureSet { has }
    }

    /// Whether this procedure is offered.
    pub fn has(self, procedure: Procedure) -> bool
        ensures { result ≡ offers self procedure }
    {
        self.has[procedure.place()]
    }

    /// Whether any procedure of this program is offered.
    pub fn has_program(self, program: u32) -> bool
        ensures { result ≡ offers_program self program }
    {
        Procedure::ALL
            .iter()
            .any(|p| self.has(*p) && p.program() == program)
    }

    /// The procedure of this number in this program, where it is offered.
    pub fn procedure(self, program: u32, number: u32) -> Option<Procedure>
        ensures found { IfSome result
            (λ p. (numbers_of p ≡ (program, number)) × (offers self p ≡ true)) }
        ensures none { result ≡ None
            → (p : Known)
            → offers self p ≡ true
            → numbers_of p ≢ (program, number) }
    {
        let known = Procedure::known(program, number)?;
        if !self.has(known) {
            return None;
        }
        Some(known)
    }
}
