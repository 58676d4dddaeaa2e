//! What ends the reading of a head.

ghost use Rattle.std.specs.Prelude.{◌≡◌};
ghost use Rattle.rpc_msg.specs.declared.stop.Stop.TheVariants as stops;

use nfs_values::Refusal;

/// Why a call isn't offered.
#[derive(Drop)]
pub(crate) enum Stop {
    /// Its head isn't all there.
    Incomplete,
    /// The reply refuses it.
    Refuse(Refusal),
}

impl From<xdr::Fault> for Stop {
    ghost from_gives = { λ _ stop. stop ≡ stops.Incomplete };

    fn from(_fault: xdr::Fault) -> Stop {
        Stop::Incomplete
    }
}
