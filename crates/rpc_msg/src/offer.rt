//! What a server offers.

ghost use Rattle.std.specs.Prelude.{◌≡◌, ◌≢◌, true, false, IfSome, None};

use crate::handle_form::HandleForm;
use nfs_values::{Procedure, ProcedureSet};

/// What a server offers: which procedures, and handles that are spelled so.
#[derive(Clone, Copy)]
pub struct Offer {
    procedures: ProcedureSet,
    handles: HandleForm,
}

impl Offer {
    ghost use Rattle.nfs_values.specs.Procedure.{numbers_of};
    ghost use Rattle.nfs_values.specs.declared.procedure.Procedure.{Procedure as Known};
    ghost use Rattle.rpc_msg.specs.Offer.{basic, export, form_of, offers, offers_program};

    /// The offer of `replay` and `serve`: their procedures, and plain handles.
    pub fn basic() -> Offer
        ensures { result ≡ basic }
    {
        Offer {
            procedures: ProcedureSet::basic(),
            handles: HandleForm::Plain,
        }
    }

    /// The offer of a server that clients mount, in the run of this number: every procedure, and
    /// handles of the run.
    pub fn export(run: u64) -> Offer
        ensures { result ≡ export run }
    {
        Offer {
            procedures: ProcedureSet::export(),
            handles: HandleForm::OfRun(run),
        }
    }

    /// How handles are spelled.
    pub fn handles(self) -> HandleForm
        ensures { result ≡ form_of self }
    {
        self.handles
    }

    /// The offer with this procedure too.
    pub fn with(self, procedure: Procedure) -> Offer
        ensures this { offers result procedure ≡ true }
        ensures others { (p : Known) → p ≢ procedure → offers result p ≡ offers self p }
        ensures handles { form_of result ≡ form_of self }
    {
        Offer {
            procedures: self.procedures.with(procedure),
            handles: self.handles,
        }
    }

    /// The offer without this procedure.
    pub fn without(self, procedure: Procedure) -> Offer
        ensures this { offers result procedure ≡ false }
        ensures others { (p : Known) → p ≢ procedure → offers result p ≡ offers self p }
        ensures handles { form_of result ≡ form_of self }
    {
        Offer {
            procedures: self.procedures.without(procedure),
            handles: self.handles,
        }
    }

    /// Whether any procedure of this program is offered.
    pub fn has_program(self, program: u32) -> bool
        ensures { result ≡ offers_program self program }
    {
        self.procedures.has_program(program)
    }

    /// The procedure of this number in this program, where it is offered.
    pub fn procedure(self, program: u32, number: u32) -> Option<Procedure>
        ensures found { IfSome result
            (λ p. (numbers_of p ≡ (program, number)) × (offers self p ≡ true)) }
        ensures none { result ≡ None
            → (p : Known)
            → offers self p ≡ true
            → numbers_of p ≢ (program, number) }
    {
        self.procedures.procedure(program, number)
    }
}
