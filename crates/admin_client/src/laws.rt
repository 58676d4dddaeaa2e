//! What holds of every call and of every reply.

ghost use Rattle.std.specs.Prelude.{◌≡◌, ◌<◌, ◌^◌, ◌++◌, ℕ, true, List, Ok, Err, map};
ghost use Rattle.xdr.specs.Shape.{Shape, Value, Fits, spelling};
ghost use Rattle.nfs_model.specs.Types as model;
ghost use Rattle.nfs_types.specs.Results.{census_shape, count_value};
ghost use Rattle.rpc_msg.specs.declared.offer.Offer.{Offer};
ghost use Rattle.rpc_msg.specs.Offer.{offers};
ghost use Rattle.rpc_msg.specs.Hearing.{AreBytes, AsksForBy};
ghost use Rattle.rpc_msg.specs.Records.{caller_by};
ghost use Rattle.rpc_msg.specs.Replies.{auth_shape, reply_bytes};
ghost use Rattle.admin_client.specs.declared.call.AdminCall.{AdminCall};
ghost use Rattle.admin_client.specs.declared.call.AdminUser.{AdminUser};
ghost use Rattle.admin_client.specs.declared.fault.AdminFault.TheVariants.{Refused};
ghost use Rattle.admin_client.specs.declared.growth.Growth.{Growth};
ghost use Rattle.admin_client.specs.declared.refusal.CallRefusal.{CallRefusal};
ghost use Rattle.admin_client.specs.Asking.{CallFits, UserFits, acting_for, call_bytes};
ghost use Rattle.admin_client.specs.Asking.{model_call, procedure_of};
ghost use Rattle.admin_client.specs.Telling.{RefusalFits, answer_of, growth_shape, growth_value};
ghost use Rattle.admin_client.specs.Telling.{head_shape, refused_by, success, told_by};

use rpc_msg::call_heads_are_exact;

/// Every server that offers the procedure of a call hears it as that call of its user, under its
/// xid (RFC 5531 section 9).
pub fn calls_are_heard()
    ensures { (offer : Offer) (xid : ℕ) (user : AdminUser) (call : AdminCall)
        → xid < 2 ^ 32
        → UserFits user
        → CallFits call
        → offers offer (procedure_of call) ≡ true
        → AsksForBy offer (call_bytes xid user call) xid (model_call call)
        (caller_by xid (acting_for user)) }
{
    call_heads_are_exact();
}

/// What a server of ours replies is told as it is: the counts of volumes, what became of a growth,
/// and why a call isn't done.
pub fn replies_are_told()
    ensures counts { (xid : ℕ) (counts : List model.VolumeCount)
        → xid < 2 ^ 32
        → Fits census_shape (map count_value counts)
        → told_by census_shape xid (reply_bytes xid (model.Success (model.CensusDone counts)))
        ≡ Ok (map count_value counts) }
    ensures growths { (xid : ℕ) (growth : Growth)
        → xid < 2 ^ 32
        → Fits growth_shape (growth_value growth)
        → told_by growth_shape xid (reply_bytes xid (model.Success (answer_of growth)))
        ≡ Ok (growth_value growth) }
    ensures refusals { (results : Shape) (xid : ℕ) (refusal : CallRefusal)
        → xid < 2 ^ 32
        → RefusalFits refusal
        → told_by results xid (reply_bytes xid (refused_by refusal)) ≡ Err (Refused refusal) }
{}

/// Nothing else is told: a reply that tells results spells a head of its xid that was accepted and
/// done, and then these results and no more (RFC 5531 section 9).
pub fn told_replies_are_spelled()
    ensures { (results : Shape) (xid : ℕ) (bytes : List ℕ) (v : Value results)
        → AreBytes bytes
        → told_by results xid bytes ≡ Ok v
        → (verifier : Value auth_shape)
        × (bytes ≡ spelling head_shape (success xid verifier) ++ spelling results v) }
{}
