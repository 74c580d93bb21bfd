//! A law of the runs of machines that are made: a fact for proofs, which costs nothing to call.
ghost use Rattle.run_summary.specs.Sums.{SumsOperations, TellsSummary};

use core_laws::laws::law_adds;

/// In a complete history of the machine of any number and size, firmware writes as many bytes as its scripts have
/// additions; as many runs of codes are started, and as many notifies are made, as its scripts have pushes; and each
/// cell ends as the sum of what the operations add to it, modulo 256. So every such history tells the same three
/// lines.
pub fn law_summary()
    ensures sums { SumsOperations }
    ensures lines { TellsSummary }
{
    law_adds();
}
