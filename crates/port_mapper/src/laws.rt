//! What holds of every call.

ghost use Rattle.std.specs.Prelude.{◌≡◌, List, ℕ, Some};
ghost use Rattle.std.specs.declared.net.ip_addr.IpAddr.{IpAddr};
ghost use Rattle.xdr.specs.Shape.{Value};
ghost use Rattle.port_mapper.specs.declared.registration.Registration.{Registration};
ghost use Rattle.port_mapper.specs.Answers.{reply_to};
ghost use Rattle.port_mapper.specs.Asking.{outcome_of};
ghost use Rattle.port_mapper.specs.Calls.{Call, auth_shape};
ghost use Rattle.port_mapper.specs.Replies.{reply_bytes};
ghost use Rattle.port_mapper.specs.Spelled.{CallFits, call_bytes};

/// Every message that spells a call is answered, by what the call asks: whatever its credential
/// and its verifier are (RFC 5531 section 9).
pub fn calls_are_answered()
    ensures { (registered : List Registration) (reached : IpAddr) (xid : ℕ) (call : Call)
        (credential verifier : Value auth_shape)
        → CallFits xid call credential verifier
        → reply_to registered reached (call_bytes xid call credential verifier)
        ≡ Some (reply_bytes registered reached xid (outcome_of registered reached call)) }
{}
