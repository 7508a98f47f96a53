//! Network files that are read, or refused for their first fault.
use crate::networks::HELLO;
use std::alloc::Global;
use std::test::Fail;
use vc_occam::{BytesExpr, Process, Value};
use vc_plan::Plan;
use vc_reader::{ReadRefused, Step, Why, Word, read_network};

/// Whether a process is an output of this literal.
fn sends(process: &Process, text: &[u8]) -> bool {
    match process {
        Process::Send {
            value: Value::Bytes(BytesExpr::Lit(bytes)),
            ..
        } => bytes.as_slice() == text,
        _ => false,
    }
}

/// How many nodes, switches, wires, virtual links and channels there are.
fn counts(plan: &Plan) -> [usize; 5] {
    [
        plan.nodes.len(),
        plan.switches.len(),
        plan.wires.len(),
        plan.vlinks.len(),
        plan.channels.len(),
    ]
}

/// Whether the nodes are `a`, which outputs hello, and one that inputs.
fn has_hello_nodes(plan: &Plan) -> bool {
    match plan.nodes.as_slice() {
        [first, second] => {
            first.name.as_slice() == b"a".as_slice()
                && sends(&first.process, b"hello")
                && matches!(&second.process, Process::Receive { chan: 0, var: 0 })
        }
        _ => false,
    }
}

#[test]
fn reads_the_hello_network(rt: HostRuntime) -> Result<(), Fail> {
    let plan = read_network(rt.alloc(), HELLO.as_bytes())?;
    assert_eq!(rt; (plan.version, counts(&plan)), (2, [2, 0, 1, 1, 1]));
    assert!(rt; has_hello_nodes(&plan));
    Ok(())
}

/// Whether a text is refused as no JSON.
fn is_no_json(alloc: Global, text: &[u8]) -> bool {
    matches!(read_network(alloc, text), Err(ReadRefused::Json))
}

#[test]
fn what_is_no_json_is_refused(rt: HostRuntime) {
    for n in 0..HELLO.len() {
        let front = HELLO.as_bytes().get(..n).unwrap_or(HELLO.as_bytes());
        assert!(rt; is_no_json(rt.alloc(), front), "the first {n} bytes");
    }
    assert!(rt; is_no_json(rt.alloc(), &[255]), "no text");
    assert!(rt;
        is_no_json(rt.alloc(), &[b'['; 200]),
        "200 lists in one another"
    );
}

/// Whether the refusal is of that kind, at the end of these steps.
fn is_at(refused: &ReadRefused, why: Why, steps: &[Step]) -> bool {
    let (here, path) = match refused {
        ReadRefused::Missing(path) => (Why::Missing, path),
        ReadRefused::Kind(path) => (Why::Kind, path),
        ReadRefused::Range(path) => (Why::Range, path),
        ReadRefused::Unknown(path) => (Why::Unknown, path),
        _ => return false,
    };
    if here != why || path.len() != steps.len() {
        return false;
    }
    for n in 0..path.len() {
        if steps.get(n).copied() != Some(path.step(n)) {
            return false;
        }
    }
    true
}

fn refused_at(alloc: Global, text: &str, why: Why, steps: &[Step]) -> bool {
    match read_network(alloc, text.as_bytes()) {
        Ok(_) => false,
        Err(refused) => is_at(&refused, why, steps),
    }
}

const VERSION: &[Step] = &[Step::Field(Word::Version)];

const NODES: &[Step] = &[Step::Field(Word::Nodes)];

/// Texts, and what is wrong first with each, and where.
const FAULTS: &[(&str, Why, &[Step])] = &[
    ("[]", Why::Kind, &[]),
    (r#"{"version":1,"nodes":[],"extra":0}"#, Why::Unknown, &[]),
    (r#"{"version":3,"nodes":[]}"#, Why::Range, VERSION),
    (r#"{"version":1.5,"nodes":[]}"#, Why::Kind, VERSION),
    (r#"{"version":1}"#, Why::Missing, NODES),
];

#[test]
fn names_the_first_fault(rt: HostRuntime) {
    for (text, why, steps) in FAULTS {
        assert!(rt; refused_at(rt.alloc(), text, *why, steps), "{text}");
    }
}
