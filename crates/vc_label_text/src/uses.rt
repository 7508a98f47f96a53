//! How processes use channels.
use serde_json::Value;
use std::alloc::Global;
use std::collections::BTreeMap;
use vc_packets::Memory;
use vc_process::ValueKind;

/// The nodes at an end of a channel: the first one, and another one.
#[derive(Clone, Copy, Drop)]
pub(crate) struct Nodes {
    pub first: Option<u8>,
    pub other: Option<u8>,
}

impl Nodes {
    const NONE: Nodes = Nodes {
        first: None,
        other: None,
    };

    fn add(&mut self, node: u8) {
        match (self.first, self.other) {
            (None, _) => self.first = Some(node),
            (Some(first), None) if first != node => self.other = Some(node),
            _ => {}
        }
    }
}

/// A channel as processes use it.
#[derive(Drop)]
pub(crate) struct Used {
    pub name: Vec<u8>,
    pub kind: Option<ValueKind>,
    pub outputs: Nodes,
    pub inputs: Nodes,
}

/// All channels that processes use, in the order of their first uses.
#[derive(Drop)]
pub(crate) struct Uses {
    pub channels: Vec<Used>,
    numbers: BTreeMap<Vec<u8>, usize>,
}

impl Uses {
    pub(crate) fn new(alloc: Global) -> Uses {
        Uses {
            channels: Vec::new(alloc),
            numbers: BTreeMap::new(alloc),
        }
    }

    /// The use of a name's channel.
    pub(crate) fn find(&self, name: &[u8]) -> Option<&Used> {
        let number = *self.numbers.get(name)?;
        self.channels.get(number)
    }

    /// The number of a name's channel, which is new if it was not used before.
    fn number(&mut self, alloc: Global, name: &[u8]) -> Result<usize, Memory> {
        if let Some(number) = self.numbers.get(name) {
            return Ok(*number);
        }
        let number = self.channels.len();
        self.numbers.insert(Vec::from_slice(alloc, name)?, number)?;
        self.channels.push(Used {
            name: Vec::from_slice(alloc, name)?,
            kind: None,
            outputs: Nodes::NONE,
            inputs: Nodes::NONE,
        })?;
        Ok(number)
    }

    /// Adds a use by a node.
    fn add(&mut self, alloc: Global, node: u8, found: &Use<'_>) -> Result<(), Memory> {
        let number = self.number(alloc, found.channel.as_bytes())?;
        if let Some(used) = self.channels.get_mut(number) {
            if found.is_output {
                used.outputs.add(node);
            } else {
                used.inputs.add(node);
            }
            if used.kind.is_none() {
                used.kind = found.kind;
            }
        }
        Ok(())
    }

    /// Adds all uses of a node's process.
    pub(crate) fn add_node(
        &mut self,
        alloc: Global,
        number: u8,
        node: &Value,
    ) -> Result<(), Memory> {
        let Some(process) = node.get("process") else {
            return Ok(());
        };
        let mut walk = Walk {
            vars: node.get("vars"),
            waiting: Vec::new(alloc),
        };
        walk.waiting.push(process)?;
        for _ in 0..u64::MAX {
            let Some(process) = walk.waiting.pop() else {
                return Ok(());
            };
            for found in walk.uses(alloc, process)?.iter() {
                self.add(alloc, number, found)?;
            }
        }
        Ok(())
    }
}

/// A use of a channel.
#[derive(Drop)]
struct Use<'a> {
    channel: &'a str,
    is_output: bool,
    kind: Option<ValueKind>,
}

/// A walk through a node's process, in the order of its sites.
#[derive(Drop)]
struct Walk<'a> {
    vars: Option<&'a Value>,
    // the parts that are still to be looked at, the next one last
    waiting: Vec<&'a Value>,
}

impl<'a> Walk<'a> {
    /// The kind of a variable.
    fn kind_of(&self, name: &str) -> Option<ValueKind> {
        let vars = self.vars?.as_array()?;
        let var = vars.iter().find(|var| text_at(var, 0) == Some(name))?;
        match text_at(var, 1)? {
            "int" => Some(ValueKind::Int),
            "bytes" => Some(ValueKind::Bytes),
            _ => None,
        }
    }

    /// The kind of a value that is output: of a variable its own, of a form of bytes bytes, else a whole number.
    fn kind_of_value(&self, value: Option<&Value>) -> Option<ValueKind> {
        match value? {
            Value::String(name) => self.kind_of(name.as_str()),
            Value::Object(_) => Some(ValueKind::Bytes),
            _ => Some(ValueKind::Int),
        }
    }

    /// The uses of a process that is an output, an input, a stop or an ALT. Its parts wait to be looked at.
    fn uses(&mut self, alloc: Global, process: &'a Value) -> Result<Vec<Use<'a>>, Memory> {
        let mut uses = Vec::new(alloc);
        let Some((word, body)) = only(process) else {
            return Ok(uses);
        };
        match word {
            "out" => if let Some(channel) = text_at(body, 0) {
                uses.push(Use {
                    channel,
                    is_output: true,
                    kind: self.kind_of_value(body.get(1)),
                })?;
            },
            "in" => if let Some(found) = self.input(body, 0) {
                uses.push(found)?;
            },
            "stopch" => if let Some(channel) = body.as_str() {
                uses.push(Use {
                    channel,
                    is_output: false,
                    kind: None,
                })?;
            },
            "alt" => for guard in items(body) {
                if let Some(found) = self.input(guard, 1) {
                    uses.push(found)?;
                }
            },
            _ => {}
        }
        self.wait(word, body)?;
        Ok(uses)
    }

    /// The input of a list with the channel at an index and the variable after it.
    fn input(&self, list: &'a Value, at: usize) -> Option<Use<'a>> {
        let channel = text_at(list, at)?;
        let kind = match text_at(list, at.saturating_add(1)) {
            Some(name) => self.kind_of(name),
            None => None,
        };
        Some(Use {
            channel,
            is_output: false,
            kind,
        })
    }

    /// Puts the parts of a process at the end, the first of them last.
    fn wait(&mut self, word: &str, body: &'a Value) -> Result<(), Memory> {
        match word {
            "seq" | "par" => self.wait_all(body, None),
            "if" => self.wait_all(body, Some(1)),
            "alt" => self.wait_all(body, Some(3)),
            "while" => self.wait_for(body.get(1)),
            "for" => self.wait_for(body.get(3)),
            _ => Ok(()),
        }
    }

    fn wait_for(&mut self, part: Option<&'a Value>) -> Result<(), Memory> {
        if let Some(part) = part {
            self.waiting.push(part)?;
        }
        Ok(())
    }

    /// The items of a list wait, or what each has at an index.
    fn wait_all(&mut self, list: &'a Value, at: Option<usize>) -> Result<(), Memory> {
        for item in items(list).iter().rev() {
            match at {
                Some(index) => self.wait_for(item.get(index))?,
                None => self.wait_for(Some(item))?,
            }
        }
        Ok(())
    }
}

/// The items of a list; none of any other value.
fn items(value: &Value) -> &[Value] {
    match value {
        Value::Array(items) => items.as_slice(),
        _ => &[],
    }
}

/// The text that a list has at an index.
fn text_at(value: &Value, at: usize) -> Option<&str> {
    value.get(at)?.as_str()
}

/// The one field of an object of one field.
fn only(value: &Value) -> Option<(&str, &Value)> {
    let Value::Object(members) = value else {
        return None;
    };
    let mut members = members.iter();
    match (members.next(), members.next()) {
        (Some((key, member)), None) => Some((key.as_str(), member)),
        _ => None,
    }
}
