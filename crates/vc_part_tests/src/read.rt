//! Processes from their text. Of their variables `x` and `y` (0 and 1) are numbers, and `s` and `t` (2 and 3) bytes; of their
//! channels `c0` to `c9`, which are numbered so, `c3` carries bytes.
use std::alloc::Global;
use std::test::Fail;
use vc_plan::Plan;
use vc_reader::read_network;

const BEFORE: &str =
    r#"{"version":2,"channels":[{"name":"c0","kind":"int","node":"a"},{"name":"c1","kind":"int","node":"a"},{"name":"c2","kind":"int","node":"a"},{"name":"c3","kind":"bytes","node":"a"},{"name":"c4","kind":"int","node":"a"},{"name":"c5","kind":"int","node":"a"},{"name":"c6","kind":"int","node":"a"},{"name":"c7","kind":"int","node":"a"},{"name":"c8","kind":"int","node":"a"},{"name":"c9","kind":"int","node":"a"}],"nodes":[{"name":"a","vars":[["x","int"],["y","int"],["s","bytes"],["t","bytes"]],"process":"#;

/// The plan of one node that runs this process.
pub(crate) fn read(alloc: Global, process: &str) -> Result<Plan, Fail> {
    let mut text = Vec::from_slice(alloc, BEFORE.as_bytes())?;
    text.extend_from_slice(process.as_bytes())?;
    text.extend_from_slice(b"}]}")?;
    Ok(read_network(alloc, &text)?)
}
