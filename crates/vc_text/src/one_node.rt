//! All processes of a network on one node.
ghost use Rattle.vc_text.specs.OneNode.{JoinsNodes, ReadsAs, ReadsTogether};

use crate::check::read_accepted;
use crate::fault::RunFault;
use std::alloc::Global;
use std::io::Read;
use vc_plan::{Accepted, CheckRefused, LimitWord, Refusal, check, together};

/// The plan of one node that runs all processes of an accepted plan side by side, where the checker accepts it.
fn joined(alloc: Global, accepted: Accepted) -> Result<Accepted, RunFault>
    ensures { JoinsNodes accepted result }
{
    let Some(one) = together(alloc, accepted.plan())? else {
        return Err(RunFault::Plan(Refusal {
            plan: accepted.into_plan(),
            why: CheckRefused::Limit(LimitWord::Vars),
        }));
    };
    match check(alloc, one) {
        Ok(one) => Ok(one),
        Err(refusal) => Err(RunFault::Plan(refusal)),
    }
}

/// The plan of one node for the network that the reader has, where the checker accepts both.
pub(crate) fn read_together<R: Read>(alloc: Global, reader: &mut R) -> Result<Accepted, RunFault>
    ensures { ReadsTogether (R.remaining reader.old) result }
{
    let accepted = read_accepted(alloc, reader)?;
    joined(alloc, accepted)
}

/// The network that the reader has, or the plan of one node for it, where the checker accepts it. It fails where the reader fails, where
/// the file or a plan is refused, and for want of memory.
pub fn read_as<R: Read>(
    alloc: Global,
    reader: &mut R,
    is_together: bool,
) -> Result<Accepted, RunFault>
    ensures { ReadsAs is_together (R.remaining reader.old) result }
{
    if is_together {
        read_together(alloc, reader)
    } else {
        read_accepted(alloc, reader)
    }
}
