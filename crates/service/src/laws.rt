//! What follows of the grants of a depot that serves a filer's parcels. The functions do nothing:
//! their contracts are theorems.

ghost use Rattle.service.specs.Laws.{
  GrantsHaveEachBlockOnce,
  WholeGrantsHaveAllBlocks,
  ClosedDepotsHaveAllBlocks,
};

/// No block number is in two places: in the parcels of a grant, as `Depot::begin` answers it, with
/// what is in the seat's hand, none stands twice. The parcels of a grant of the whole tree, or of
/// `Depot::close`, with all hands have each number of each volume, once.
pub fn grants_have_each_block_once()
    ensures grant { GrantsHaveEachBlockOnce }
    ensures whole { WholeGrantsHaveAllBlocks }
    ensures closed { ClosedDepotsHaveAllBlocks }
{}
