//! Reading a network file, whole or in the short form.
ghost use Rattle.std.specs.Prelude.{◌≢◌, Err};
ghost use Rattle.vc_label_text.specs.Short.{IsShort};
ghost use Rattle.vc_reader.specs.declared.refused.ReadRefused.TheVariants.{Memory as OutOfMemory};
ghost use Rattle.vc_reader.specs.NetworkText.{Reads};
ghost use Rattle.vc_text.specs.CheckText.{ReadsFile};

use crate::fault::RunFault;
use std::alloc::Global;
use vc_label_text::{lacks_vlinks, whole_file};
use vc_plan::{Accepted, Plan};
use vc_reader::{ReadRefused, read_network};

/// What a network file has.
#[derive(Drop)]
pub enum NetworkFile {
    /// A whole file, by its plan.
    Whole(Plan),
    /// The short form of a file, by the network of the file that was made of it.
    Short(Accepted),
}

/// Labels the short form of a network file.
#[tactic(auto, using(crate::proofs::Forms::made_accepted))]
fn read_made(alloc: Global, text: &[u8]) -> Result<NetworkFile, RunFault>
    requires { IsShort text.now }
    ensures { ReadsFile text.now result }
{
    match whole_file(alloc, text) {
        Ok(whole) => Ok(NetworkFile::Short(whole.network)),
        Err(refused) => Err(RunFault::from(refused)),
    }
}

/// Reads a text that is refused as a whole file, which may be the short form of one.
#[tactic(auto, using(crate::proofs::Forms::short_of))]
fn read_short(alloc: Global, text: &[u8], refused: ReadRefused) -> Result<NetworkFile, RunFault>
    requires refused { Reads text.now (Err refused) }
    requires known { refused ≢ OutOfMemory }
    ensures { ReadsFile text.now result }
{
    if lacks_vlinks(alloc, text)? {
        read_made(alloc, text)
    } else {
        Err(RunFault::Text(refused))
    }
}

/// Reads a network file. The short form of a file is labelled. The call fails if the text is refused, if the network of a short form can't
/// be labelled or its plan is refused, or when out of memory.
pub fn read_file(alloc: Global, text: &[u8]) -> Result<NetworkFile, RunFault>
    ensures { ReadsFile text.now result }
{
    match read_network(alloc, text) {
        Ok(plan) => Ok(NetworkFile::Whole(plan)),
        Err(ReadRefused::Memory) => Err(RunFault::Memory),
        Err(refused) => read_short(alloc, text, refused),
    }
}
