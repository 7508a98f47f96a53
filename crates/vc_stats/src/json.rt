//! Lists and names in JSON.
ghost use Rattle.std.specs.Prelude.{◌≡◌, ◌++◌, OnOk};
ghost use Rattle.vc_stats.specs.Json.{comma, line_start, named};

use vc_packets::Memory;

/// Adds the comma before the n-th item of a list, if it is not the first.
pub(crate) fn push_comma(out: &mut Vec<u8>, n: usize) -> Result<(), Memory>
    ensures { OnOk result (out.new.items ≡ out.old.items ++ comma n) }
{
    if n != 0 {
        out.push(b',')?;
    }
    Ok(())
}

/// Adds what comes before the n-th item of a list, which has a line of its own.
#[tactic(auto, using(std::proofs::Common::append_assoc))]
pub(crate) fn push_line_start(out: &mut Vec<u8>, n: usize) -> Result<(), Memory>
    ensures { OnOk result (out.new.items ≡ out.old.items ++ line_start n) }
{
    push_comma(out, n)?;
    out.push(b'\n')?;
    Ok(())
}

/// Adds the beginning of the n-th item of a list, an object with a name.
#[tactic(auto, using(std::proofs::Common::append_assoc), unfolding(crate::specs::Json::named))]
pub(crate) fn push_named(out: &mut Vec<u8>, n: usize, name: &[u8]) -> Result<(), Memory>
    ensures { OnOk result (out.new.items ≡ out.old.items ++ named n name.now) }
{
    push_line_start(out, n)?;
    out.extend_from_slice(b"{\"name\":\"")?;
    out.extend_from_slice(name)?;
    out.extend_from_slice(b"\"")?;
    Ok(())
}
