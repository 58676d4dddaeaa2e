//! What holds of every record and of every reply. What is said of `heard` is said of the basic
//! offer, and in a clause `any..` of every offer.

ghost use Rattle.std.specs.Prelude.{◌≡◌, ◌≢◌, ◌⊎◌, ℕ, Bool, ◌≤◌, ◌<◌, List, ◌++◌, length};
ghost use Rattle.std.specs.Prelude.{replicate, take, Result, Ok, Err};
ghost use Rattle.std.specs.Prelude.{slice_index};
ghost use Rattle.nfs_model.specs.Types as model;
ghost use Rattle.nfs_model.specs.World.{Heard, IsDecoded};
ghost use Rattle.rpc_msg.specs.declared.handle_form.HandleForm.{HandleForm};
ghost use Rattle.rpc_msg.specs.declared.handle_form.HandleForm.TheVariants.{OfRun};
ghost use Rattle.rpc_msg.specs.declared.offer.Offer.{Offer};
ghost use Rattle.rpc_msg.specs.HandleForm.{handle_heard, handle_told, verifier_of};
ghost use Rattle.nfs_values.specs.declared.procedure.Procedure.{Procedure};
ghost use Rattle.rpc_msg.specs.Handles.{reply_told};
ghost use Rattle.rpc_msg.specs.Heads.{Call, head_by, head_of};
ghost use Rattle.rpc_msg.specs.Calls.{IsCall, IsCallBy};
ghost use Rattle.rpc_msg.specs.Hearing.{AreBytes, AsksFor, Exactly, HasAnotherFlavor};
ghost use Rattle.rpc_msg.specs.Hearing.{HasBadCredential, HasGarbage, IsAsking};
ghost use Rattle.rpc_msg.specs.Hearing.{IsHeardAs, IsIncomplete, IsNoCall, IsOfAnotherRpc};
ghost use Rattle.rpc_msg.specs.Hearing.{IsOfAnotherVersion, IsOfNoProcedure};
ghost use Rattle.rpc_msg.specs.Hearing.{IsOfNoProgram, Refuses};
ghost use Rattle.rpc_msg.specs.Hearing.{AsksForBy, HasGarbageBy, IsAskingBy, IsHeardBy};
ghost use Rattle.rpc_msg.specs.Hearing.{IsOfAnotherVersionBy, IsOfNoProcedureBy};
ghost use Rattle.rpc_msg.specs.Hearing.{IsOfNoProgramBy, RefusesBy};
ghost use Rattle.rpc_msg.specs.Records.{heard, heard_by};
ghost use Rattle.rpc_msg.specs.Replies.{reply_record, IsRefusal};
ghost use Rattle.rpc_msg.specs.Room.{IsRoomy, refusal_room, reply_room};
ghost use Rattle.nfs_model.specs.Server.{Server, opening};
ghost use Rattle.nfs_model.specs.Tree.{Layout};
ghost use Rattle.nfs_model.specs.Serial.Step.{serial};
ghost use Rattle.nfs_model.specs.Serial.AtOnce.{answer_without_home};

/// The record of the reply to a call takes no more than the call's room, however its handles are
/// told: where it runs on any roomy server, starved or not, and where it is answered without an
/// affinity.
pub fn replies_fit()
    ensures offered { (form : HandleForm) (volumes : ℕ) (server : Server) (call : model.Call)
        (caller : model.Caller) (moment : model.Moment) (starved : Bool) (xid : ℕ)
        → IsRoomy volumes server
        → length (reply_record xid
        (reply_told form (serial server (model.Ask call caller) moment starved).reply))
        ≤ reply_room volumes call }
    ensures at_once { (form : HandleForm) (volumes : ℕ) (layout : Layout) (call : model.Call)
        (xid : ℕ)
        → length (reply_record xid
        (reply_told form (model.Success (answer_without_home layout call))))
        ≤ reply_room volumes call }
{}

/// A handle that a run tells comes back to it as it was. In a run of another verifier it keeps its
/// volume, and names fileid 0, which no file has.
pub fn handles_come_back()
    ensures same { (form : HandleForm) (handle : List ℕ)
        → length handle ≡ 12
        → handle_heard form (handle_told form handle) ≡ handle }
    ensures other { (run other : ℕ) (handle : List ℕ)
        → length handle ≡ 12
        → verifier_of run ≢ verifier_of other
        → handle_heard (OfRun other) (handle_told (OfRun run) handle)
        ≡ take 4 handle ++ replicate 8 0 }
{}

/// A server is roomy as it begins, and each call leaves it so.
pub fn servers_are_roomy()
    ensures begins { (layout : Layout) (verifier : List ℕ)
        → length verifier ≡ 8
        → IsRoomy (length layout.volumes) (opening layout verifier) }
    ensures stays { (volumes : ℕ) (server : Server) (asked : model.Asked) (moment : model.Moment)
        (starved : Bool)
        → IsRoomy volumes server
        → IsRoomy volumes (serial server asked moment starved).server }
{}

/// A reply that refuses a record is no SUCCESS, and the record of such a reply fits its room, as
/// does that of a reply that says that memory ran out.
pub fn refusals_fit()
    ensures refuses { (bytes : List ℕ) (h : Heard) (reply : model.Reply)
        → heard bytes ≡ Ok h
        → h.asked ≡ model.Refused reply
        → IsRefusal reply }
    ensures room { (reply : model.Reply) (xid : ℕ)
        → IsRefusal reply
        → length (reply_record xid reply) ≤ refusal_room }
    ensures any_refuses { (offer : Offer) (bytes : List ℕ) (h : Heard) (reply : model.Reply)
        → heard_by offer bytes ≡ Ok h
        → h.asked ≡ model.Refused reply
        → IsRefusal reply }
{}

/// A record is no call by fault 12 or 13.
pub fn record_faults()
    ensures basic { (bytes : List ℕ) (number : ℕ)
        → heard bytes ≡ Err number
        → (number ≡ 12) ⊎ (number ≡ 13) }
    ensures any { (offer : Offer) (bytes : List ℕ) (number : ℕ)
        → heard_by offer bytes ≡ Err number
        → (number ≡ 12) ⊎ (number ≡ 13) }
{}

/// A record is heard as a fault, a refusal or a call exactly where its spellings say so (RFC 5531
/// sections 8.2 and 9). The laws below are its cases, one by one.
pub fn records_are_spelled()
    ensures found { (bytes : List ℕ) → AreBytes bytes → IsHeardAs bytes (heard bytes) }
    ensures again { (bytes : List ℕ) (r : Result Heard ℕ)
        → AreBytes bytes
        → IsHeardAs bytes r
        → heard bytes ≡ r }
    ensures any_found { (offer : Offer) (bytes : List ℕ)
        → AreBytes bytes
        → IsHeardBy offer bytes (heard_by offer bytes) }
    ensures any_again { (offer : Offer) (bytes : List ℕ) (r : Result Heard ℕ)
        → AreBytes bytes
        → IsHeardBy offer bytes r
        → heard_by offer bytes ≡ r }
{}

/// A record is fault 12 exactly where its head isn't all there, and fault 13 exactly where it is
/// no call (RFC 5531 section 9).
pub fn faults_are_spelled()
    ensures incomplete { (bytes : List ℕ)
        → AreBytes bytes
        → Exactly (heard bytes ≡ Err 12) (IsIncomplete bytes) }
    ensures no_call { (bytes : List ℕ)
        → AreBytes bytes
        → Exactly (heard bytes ≡ Err 13) (IsNoCall bytes) }
    ensures any_incomplete { (offer : Offer) (bytes : List ℕ)
        → AreBytes bytes
        → Exactly (heard_by offer bytes ≡ Err 12) (IsIncomplete bytes) }
    ensures any_no_call { (offer : Offer) (bytes : List ℕ)
        → AreBytes bytes
        → Exactly (heard_by offer bytes ≡ Err 13) (IsNoCall bytes) }
{}

/// AUTH_BADCRED exactly where the credential's body is bad, and AUTH_REJECTEDCRED exactly where
/// its flavor isn't known (RFC 5531 sections 8.2 and 9, appendix A).
pub fn credentials_are_spelled()
    ensures bad { (bytes : List ℕ) (xid : ℕ)
        → AreBytes bytes
        → Exactly (Refuses bytes xid (model.AuthError 1)) (HasBadCredential bytes xid) }
    ensures rejected { (bytes : List ℕ) (xid : ℕ)
        → AreBytes bytes
        → Exactly (Refuses bytes xid (model.AuthError 2)) (HasAnotherFlavor bytes xid) }
    ensures any_bad { (offer : Offer) (bytes : List ℕ) (xid : ℕ)
        → AreBytes bytes
        → Exactly (RefusesBy offer bytes xid (model.AuthError 1)) (HasBadCredential bytes xid) }
    ensures any_rejected { (offer : Offer) (bytes : List ℕ) (xid : ℕ)
        → AreBytes bytes
        → Exactly (RefusesBy offer bytes xid (model.AuthError 2)) (HasAnotherFlavor bytes xid) }
{}

/// RPC_MISMATCH, PROG_UNAVAIL, PROG_MISMATCH and PROC_UNAVAIL, each exactly where the head names
/// what isn't offered (RFC 5531 section 9).
pub fn versions_are_spelled()
    ensures rpc { (bytes : List ℕ) (xid : ℕ)
        → AreBytes bytes
        → Exactly (Refuses bytes xid (model.RpcMismatch 2 2)) (IsOfAnotherRpc bytes xid) }
    ensures program { (bytes : List ℕ) (xid : ℕ)
        → AreBytes bytes
        → Exactly (Refuses bytes xid model.ProgramUnavailable) (IsOfNoProgram bytes xid) }
    ensures version { (bytes : List ℕ) (xid offered : ℕ)
        → AreBytes bytes
        → Exactly (Refuses bytes xid (model.ProgramMismatch offered offered))
        (IsOfAnotherVersion bytes xid offered) }
    ensures procedure { (bytes : List ℕ) (xid : ℕ)
        → AreBytes bytes
        → Exactly (Refuses bytes xid model.ProcedureUnavailable) (IsOfNoProcedure bytes xid) }
    ensures any_rpc { (offer : Offer) (bytes : List ℕ) (xid : ℕ)
        → AreBytes bytes
        → Exactly (RefusesBy offer bytes xid (model.RpcMismatch 2 2)) (IsOfAnotherRpc bytes xid) }
    ensures any_program { (offer : Offer) (bytes : List ℕ) (xid : ℕ)
        → AreBytes bytes
        → Exactly (RefusesBy offer bytes xid model.ProgramUnavailable)
        (IsOfNoProgramBy offer bytes xid) }
    ensures any_version { (offer : Offer) (bytes : List ℕ) (xid offered : ℕ)
        → AreBytes bytes
        → Exactly (RefusesBy offer bytes xid (model.ProgramMismatch offered offered))
        (IsOfAnotherVersionBy offer bytes xid offered) }
    ensures any_procedure { (offer : Offer) (bytes : List ℕ) (xid : ℕ)
        → AreBytes bytes
        → Exactly (RefusesBy offer bytes xid model.ProcedureUnavailable)
        (IsOfNoProcedureBy offer bytes xid) }
{}

/// GARBAGE_ARGS exactly where the arguments are no spelling or bytes are left, and a call exactly
/// where they spell it, made under the record's xid (RFC 5531 section 9).
pub fn arguments_are_spelled()
    ensures garbage { (bytes : List ℕ) (xid : ℕ)
        → AreBytes bytes
        → Exactly (Refuses bytes xid model.GarbageArguments) (HasGarbage bytes xid) }
    ensures call { (bytes : List ℕ) (xid : ℕ) (call : model.Call) (caller : model.Caller)
        → AreBytes bytes
        → Exactly (AsksFor bytes xid call caller) (IsAsking bytes xid call caller) }
    ensures any_garbage { (offer : Offer) (bytes : List ℕ) (xid : ℕ)
        → AreBytes bytes
        → Exactly (RefusesBy offer bytes xid model.GarbageArguments)
        (HasGarbageBy offer bytes xid) }
    ensures any_call { (offer : Offer) (bytes : List ℕ) (xid : ℕ) (call : model.Call)
        (caller : model.Caller)
        → AreBytes bytes
        → Exactly (AsksForBy offer bytes xid call caller) (IsAskingBy offer bytes xid call caller) }
{}

/// A record asks a call or is refused.
pub fn records_are_decoded()
    ensures basic { (bytes : List ℕ) (h : Heard)
        → heard bytes ≡ Ok h
        → IsDecoded h.asked }
    ensures any { (offer : Offer) (bytes : List ℕ) (h : Heard)
        → heard_by offer bytes ≡ Ok h
        → IsDecoded h.asked }
{}

/// A head says a call exactly where the bytes spell one that is offered, and then its arguments.
pub fn call_heads_are_exact()
    ensures found { (bytes : List ℕ) (xid : ℕ) (procedure : Procedure) (who : model.Credential)
        (arguments : List ℕ)
        → ((i : ℕ) → slice_index bytes i < 256)
        → head_of bytes ≡ Call xid procedure who arguments
        → IsCall bytes xid procedure who arguments }
    ensures again { (bytes : List ℕ) (xid : ℕ) (procedure : Procedure) (who : model.Credential)
        (arguments : List ℕ)
        → IsCall bytes xid procedure who arguments
        → head_of bytes ≡ Call xid procedure who arguments }
    ensures any_found { (offer : Offer) (bytes : List ℕ) (xid : ℕ) (procedure : Procedure)
        (who : model.Credential) (arguments : List ℕ)
        → AreBytes bytes
        → head_by offer bytes ≡ Call xid procedure who arguments
        → IsCallBy offer bytes xid procedure who arguments }
    ensures any_again { (offer : Offer) (bytes : List ℕ) (xid : ℕ) (procedure : Procedure)
        (who : model.Credential) (arguments : List ℕ)
        → IsCallBy offer bytes xid procedure who arguments
        → head_by offer bytes ≡ Call xid procedure who arguments }
{}
