//! What holds of every procedure's arguments.

ghost use Rattle.std.specs.Prelude.{◌≡◌, ◌<◌, List, ℕ, Ok, slice_index};
ghost use Rattle.nfs_model.specs.Types as model;
ghost use Rattle.nfs_values.specs.declared.procedure.Procedure.{Procedure};
ghost use Rattle.nfs_types.specs.Arguments.{Asks, asked};

/// Bytes ask a call exactly where they spell arguments of it.
pub fn arguments_are_exact()
    ensures found { (procedure : Procedure) (bytes : List ℕ) (call : model.Call)
        → ((i : ℕ) → slice_index bytes i < 256)
        → asked procedure bytes ≡ Ok call
        → Asks procedure bytes call }
    ensures again { (procedure : Procedure) (bytes : List ℕ) (call : model.Call)
        → Asks procedure bytes call
        → asked procedure bytes ≡ Ok call }
{}
