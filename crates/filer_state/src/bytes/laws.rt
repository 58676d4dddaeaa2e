//! What follows from the definitions. The functions do nothing: their contracts are theorems.

ghost use Rattle.filer_state.specs.bytes.Laws.{
  LogicalReadIsRight,
  LogicalReadMayStarve,
  StripeReadIsRight,
  StripeReadMayStarve,
};
ghost use Rattle.filer_state.specs.bytes.PermittedLaws.{
  CommitIsPermitted,
  CommitIsRefused,
  LogicalReadIsPermitted,
  LogicalReadIsRefused,
  LogicalWriteIsPermitted,
  LogicalWriteIsRefused,
  StripeReadIsPermitted,
  StripeReadIsRefused,
  StripeWriteClears,
  StripeWriteIsPermitted,
  StripeWriteIsRefused,
  VolumeWriteIsPermitted,
  VolumeWriteIsRefused,
};
ghost use Rattle.filer_state.specs.bytes.WritingLaws.{StripeWriteIsRight};
ghost use Rattle.filer_state.specs.bytes.WritingUpLaws.{
  LogicalWriteIsRight,
  LogicalWriteMayStarve,
  VolumeWriteIsRight,
  VolumeWriteMayStarve,
};

/// On every sound volume with the parcels that are held, READ as it is told by the stripe in which
/// its bytes lie, and by what is under Volume Logical, is the serial server's, changes nothing, and
/// all stays sound. One that gives bytes may find no memory.
pub fn reading_calls_are_right()
    ensures in_stripe { StripeReadIsRight }
    ensures in_stripe_starves { StripeReadMayStarve }
    ensures in_logical { LogicalReadIsRight }
    ensures in_logical_starves { LogicalReadMayStarve }
{}

/// So is WRITE as it is told by the stripe in which its bytes lie: what writes over bytes that are
/// there is done in it, and what would extend the file or fill a hole moves. By what is under
/// Volume Logical the file is extended and its holes are filled where the stock has the blocks, and
/// it moves where the stock is short; by what is under Volume they are filled from all parts of the
/// volume, and it moves where the rest is in hands. One that fills a hole may find no memory.
pub fn writing_calls_are_right()
    ensures in_stripe { StripeWriteIsRight }
    ensures in_logical { LogicalWriteIsRight }
    ensures in_logical_starves { LogicalWriteMayStarve }
    ensures in_volume { VolumeWriteIsRight }
    ensures in_volume_starves { VolumeWriteMayStarve }
{}

/// A READ or a COMMIT that the owner, the group and the mode of the file refuse its caller fails
/// and changes nothing, as the serial server's; any other comes to what it comes to where nothing
/// is asked. Who owns the file is on its card in each stripe, and in its inode.
pub fn reads_are_permitted()
    ensures in_stripe_refused { StripeReadIsRefused }
    ensures in_stripe { StripeReadIsPermitted }
    ensures in_logical_refused { LogicalReadIsRefused }
    ensures in_logical { LogicalReadIsPermitted }
    ensures commit_refused { CommitIsRefused }
    ensures commit { CommitIsPermitted }
{}

/// So does a WRITE. One by a caller that isn't uid 0 ends that the file is run as its owner or its
/// group: by a stripe, which hasn't the other cards, it moves for that where it would write bytes;
/// by what is under Volume Logical, and by what is under Volume, the mode is put once the bytes are
/// written.
pub fn writes_are_permitted()
    ensures in_stripe_refused { StripeWriteIsRefused }
    ensures in_stripe { StripeWriteIsPermitted }
    ensures in_stripe_clears { StripeWriteClears }
    ensures in_logical_refused { LogicalWriteIsRefused }
    ensures in_logical { LogicalWriteIsPermitted }
    ensures in_volume_refused { VolumeWriteIsRefused }
    ensures in_volume { VolumeWriteIsPermitted }
{}
