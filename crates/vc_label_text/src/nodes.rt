//! The text of the nodes of a file.
ghost use Rattle.std.specs.Prelude.{◌≡◌, ◌≤◌, IfOk, IfSome, Some, string_bytes, true};
ghost use Rattle.serde_json.specs.Data.{depth};
ghost use Rattle.serde_json.specs.Read.{read as read_text, max_depth};
ghost use Rattle.serde_json.specs.View.{view};
ghost use Rattle.vc_label_text.specs.Labelled.{HasSameNodes};
ghost use Rattle.vc_label_text.specs.Private.Nodes.{AreSame, HasNodes, IsNodesText};

use serde_json::Value;
use std::alloc::Global;
use vc_packets::Memory;

/// The value of a text; none of a text that is no JSON.
pub(crate) fn parse(alloc: Global, text: &[u8]) -> Result<Option<Value>, Memory>
    ensures value { IfOk result (λ found.
        IfSome found (λ v. read_text text.now ≡ Some (view v))) }
    ensures nests { IfOk result (λ found. IfSome found (λ v. depth (view v) ≤ max_depth)) }
{
    match Value::from_slice(alloc, text) {
        Ok(value) => Ok(Some(value)),
        Err(e) => if e.is_memory() { Err(Memory) } else { Ok(None) },
    }
}

/// The text of a file's nodes, if it has any.
fn nodes_text(alloc: Global, file: &Value) -> Result<Option<String>, Memory>
    requires { depth (view file.now) ≤ max_depth }
    ensures { IfOk result (λ found. IfSome found (λ s. IsNodesText (string_bytes s)
        (view file.now))) }
{
    match file.get("nodes") {
        Some(nodes) => Ok(Some(nodes.to_string(alloc)?)),
        None => Ok(None),
    }
}

/// The text of the nodes of a file's text, if it has any.
fn read_nodes(alloc: Global, text: &[u8]) -> Result<Option<String>, Memory>
    ensures { IfOk result (λ found. IfSome found (λ s. HasNodes text.now (string_bytes s))) }
{
    match parse(alloc, text)? {
        Some(file) => nodes_text(alloc, &file),
        None => Ok(None),
    }
}

fn are_same(before: &Option<String>, after: &Option<String>) -> bool
    ensures { result ≡ true → AreSame before.now after.now }
{
    match (before, after) {
        (Some(before), Some(after)) => before.as_str() == after.as_str(),
        _ => false,
    }
}

/// Whether two texts have the same nodes.
pub(crate) fn has_same_nodes(alloc: Global, input: &[u8], made: &[u8]) -> Result<bool, Memory>
    ensures { IfOk result (λ same. same ≡ true → HasSameNodes input.now made.now) }
{
    let before = read_nodes(alloc, input)?;
    let after = read_nodes(alloc, made)?;
    Ok(are_same(&before, &after))
}
