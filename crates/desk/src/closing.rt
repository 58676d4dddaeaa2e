//! A desk at the end.

use crate::desk::Desk;
use crate::kinds::NodeKinds;
use depot_rule::machine::Machine;
use parcels::Node;

impl<M: Machine, K: NodeKinds<M::Parcel>> Desk<M, K> {
    ghost use Rattle.nfs_model.specs.Tree as trees;
    ghost use Rattle.parcels.specs.Exact.{HasExactly};
    ghost use Rattle.depot.specs.Words.{all_parcels};
    ghost use Rattle.desk.specs.laws.Calls.{AreIdle, AreSettled};
    ghost use Rattle.desk.specs.Words.{books, IsKept};

    /// Ends the desk, whose workers are idle. All parcels come back, as the finished calls left
    /// them.
    pub fn close(self) -> <K::Serial as Node<M::Parcel>>::Held
        requires kept { IsKept self }
        requires idle { AreIdle (books self) }
        ensures exact { let L = (books self).layout in
            HasExactly M.Parcel.kind L trees.Serial (all_parcels K.Serial.parcels L result) }
        ensures settled { let L = (books self).layout in
            AreSettled (books self) (all_parcels K.Serial.parcels L result) }
    {
        let Desk {
            depot,
            seat,
            slots: _,
        } = self;
        depot.close::<K::Serial>(seat)
    }
}
