//! Readers of processes.
ghost use Rattle.std.specs.Prelude.{◌≡◌};
ghost use Rattle.serde_json.specs.View.{view};
ghost use Rattle.vc_reader.specs.Private.Reading.{Gives};
ghost use Rattle.vc_reader.specs.Reading.{cell as cell_of, read_list};
ghost use Rattle.vc_reader.specs.Processes.{channel_named, variable_named, read_value, read_set, read_send, read_receive, read_stopch, read_plain, read_while, read_count, process_word as process_word_of, field_word, worded_process, named_process, process_step, whole_process};
ghost use Rattle.vc_reader.specs.Private.Processes.{cond_first as cond_first_of, read_input, guard_head as guard_head_of, part_by, branch_by, guard_by};

use crate::bytes::{VariableOf, bytes};
use crate::condition::WholeCond;
use crate::expression::WholeExpr;
use crate::fault::{Stop, Why};
use crate::name::one_of;
use crate::path::Step;
use crate::reader::{Reader, array, beside, boxed, cell, only, row, text, under, with_item, wrong};
use crate::register::Register;
use crate::word::Word;
use serde_json::Value as Json;
use sqlite_items::{Boxed, Items};
use std::alloc::Global;
use vc_plan::{Channel, Variable};
use vc_process::{Branch, Cond, Guard, Process, Value, ValueKind};

/// The word of a process that is an object.
#[derive(Clone, Copy, Drop)]
pub(crate) enum ProcessWord {
    Set,
    Send,
    Receive,
    Stopch,
    Seq,
    Par,
    If,
    While,
    Count,
    Alt,
}

impl ProcessWord {
    /// The field that has this word.
    fn field(self) -> Word
        ensures { result ≡ field_word self }
    {
        match self {
            ProcessWord::Set => Word::Set,
            ProcessWord::Send => Word::Out,
            ProcessWord::Receive => Word::In,
            ProcessWord::Stopch => Word::Stopch,
            ProcessWord::Seq => Word::Seq,
            ProcessWord::Par => Word::Par,
            ProcessWord::If => Word::If,
            ProcessWord::While => Word::While,
            ProcessWord::Count => Word::For,
            ProcessWord::Alt => Word::Alt,
        }
    }
}

fn process_word(alloc: Global, text: &str) -> Result<ProcessWord, Stop>
    ensures { Gives (λ x. x) result (process_word_of text.now) }
{
    match text {
        "set" => Ok(ProcessWord::Set),
        "out" => Ok(ProcessWord::Send),
        "in" => Ok(ProcessWord::Receive),
        "stopch" => Ok(ProcessWord::Stopch),
        "seq" => Ok(ProcessWord::Seq),
        "par" => Ok(ProcessWord::Par),
        "if" => Ok(ProcessWord::If),
        "while" => Ok(ProcessWord::While),
        "for" => Ok(ProcessWord::Count),
        "alt" => Ok(ProcessWord::Alt),
        _ => Err(wrong(alloc, Why::Unknown)),
    }
}

/// A channel, by its name, with its kind.
#[derive(Drop)]
struct ChannelOf<'a>(&'a Register<Channel>);

impl Reader for ChannelOf<'_> {
    type Out = (u16, ValueKind);

    ghost meaning = { λ r. channel_named r.0.now };

    fn read(&self, alloc: Global, value: &Json) -> Result<(u16, ValueKind), Stop> {
        let (number, channel) = one_of(alloc, self.0, value)?;
        Ok((number.min(65535) as u16, channel.kind))
    }
}

/// A variable, by its name, with its kind.
#[derive(Drop)]
struct AnyVariable<'a>(&'a Register<Variable>);

impl Reader for AnyVariable<'_> {
    type Out = (u8, ValueKind);

    ghost meaning = { λ r. variable_named r.0.now };

    fn read(&self, alloc: Global, value: &Json) -> Result<(u8, ValueKind), Stop> {
        let (number, var) = one_of(alloc, self.0, value)?;
        Ok((number.min(255) as u8, var.kind))
    }
}

/// What a variable or a channel of a kind takes.
#[derive(Drop)]
struct ValueOf<'a> {
    kind: ValueKind,
    vars: &'a Register<Variable>,
}

impl Reader for ValueOf<'_> {
    type Out = Value;

    ghost meaning = { λ r. read_value r.kind r.vars.now };

    fn read(&self, alloc: Global, value: &Json) -> Result<Value, Stop> {
        match self.kind {
            ValueKind::Int => WholeExpr(self.vars).read(alloc, value).map(Value::Int),
            ValueKind::Bytes => bytes(alloc, self.vars, value).map(Value::Bytes),
        }
    }
}

/// SKIP or STOP.
fn plain(alloc: Global, word: &str) -> Result<Process, Stop>
    ensures { Gives (λ x. x) result (read_plain word.now) }
{
    match word {
        "skip" => Ok(Process::Skip),
        "stop" => Ok(Process::Stop),
        _ => Err(wrong(alloc, Why::Kind)),
    }
}

/// A process over these variables and channels.
#[derive(Drop)]
pub(crate) struct WholeProcess<'a> {
    pub vars: &'a Register<Variable>,
    pub channels: &'a Register<Channel>,
}

impl WholeProcess<'_> {
    /// An assignment.
    fn set(&self, alloc: Global, value: &Json) -> Result<Process, Stop>
        ensures { Gives (λ x. x) result (read_set self.now.vars.now (view value.now)) }
    {
        let vars = self.vars;
        row(alloc, 2, value)?;
        let (var, kind) = cell(alloc, 0, &AnyVariable(vars), value)?;
        let value = cell(alloc, 1, &ValueOf { kind, vars }, value)?;
        Ok(Process::Set { var, value })
    }

    /// An output.
    fn send(&self, alloc: Global, value: &Json) -> Result<Process, Stop>
        ensures { Gives (λ x. x) result
            (read_send self.now.vars.now self.now.channels.now (view value.now)) }
    {
        let vars = self.vars;
        row(alloc, 2, value)?;
        let (chan, kind) = cell(alloc, 0, &ChannelOf(self.channels), value)?;
        let value = cell(alloc, 1, &ValueOf { kind, vars }, value)?;
        Ok(Process::Send { chan, value })
    }

    /// The channel of a guard's input, and the variable that takes what comes.
    fn input(&self, alloc: Global, value: &Json) -> Result<(u16, u8), Stop>
        ensures { Gives (λ x. x) result
            (read_input self.now.vars.now self.now.channels.now (view value.now)) }
    {
        let vars = self.vars;
        let (chan, kind) = cell(alloc, 1, &ChannelOf(self.channels), value)?;
        let var = cell(alloc, 2, &VariableOf { kind, vars }, value)?;
        Ok((chan, var))
    }

    /// An input.
    fn receive(&self, alloc: Global, value: &Json) -> Result<Process, Stop>
        ensures { Gives (λ x. x) result
            (read_receive self.now.vars.now self.now.channels.now (view value.now)) }
    {
        let vars = self.vars;
        row(alloc, 2, value)?;
        let (chan, kind) = cell(alloc, 0, &ChannelOf(self.channels), value)?;
        let var = cell(alloc, 1, &VariableOf { kind, vars }, value)?;
        Ok(Process::Receive { chan, var })
    }

    /// The stop of a channel.
    fn stopch(&self, alloc: Global, value: &Json) -> Result<Process, Stop>
        ensures { Gives (λ x. x) result (read_stopch self.now.channels.now (view value.now)) }
    {
        let (chan, _) = ChannelOf(self.channels).read(alloc, value)?;
        Ok(Process::Stopch { chan })
    }

    /// The condition at the head of a list of so many items.
    fn cond_first(&self, alloc: Global, wanted: usize, value: &Json) -> Result<Cond, Stop>
        ensures { Gives (λ x. x) result
            (cond_first_of wanted self.now.vars.now (view value.now)) }
    {
        row(alloc, wanted, value)?;
        cell(alloc, 0, &WholeCond(self.vars), value)
    }

    /// What a guard has before its body: its condition, and its input.
    fn guard_head(&self, alloc: Global, value: &Json) -> Result<(Cond, (u16, u8)), Stop>
        ensures { Gives (λ x. x) result
            (guard_head_of self.now.vars.now self.now.channels.now (view value.now)) }
    {
        let cond = self.cond_first(alloc, 4, value)?;
        beside(cond, self.input(alloc, value))
    }

    /// A process that nests no deeper than so many parts in one another.
    #[cycle(process)]
    fn process(&self, alloc: Global, depth: usize, value: &Json) -> Result<Process, Stop>
        ensures { Gives (λ x. x) result
            (part_by self.now depth (view value.now)) }
    {
        if depth == 0 {
            return plain(alloc, text(alloc, value)?);
        }
        self.step(alloc, depth - 1, value)
    }

    /// A process whose parts nest no deeper.
    #[cycle(process)]
    fn step(&self, alloc: Global, depth: usize, value: &Json) -> Result<Process, Stop>
        ensures { Gives (λ x. x) result
            (process_step (part_by self.now depth) self.now.vars.now self.now.channels.now
            (view value.now)) }
    {
        if let Json::String(word) = value {
            return plain(alloc, word.as_str());
        }
        match only(value) {
            Some((word, part)) => self.named(alloc, depth, word, part),
            None => Err(wrong(alloc, Why::Kind)),
        }
    }

    /// A process by its word's name.
    #[cycle(process)]
    fn named(&self, alloc: Global, depth: usize, name: &str, value: &Json) -> Result<Process, Stop>
        ensures { Gives (λ x. x) result
            (named_process (part_by self.now depth) self.now.vars.now self.now.channels.now name.now
            (view value.now)) }
    {
        let word = process_word(alloc, name)?;
        let read = self.worded(alloc, depth, word, value);
        under(Step::Field(word.field()), read)
    }

    /// A process of that word.
    #[cycle(process)]
    fn worded(
        &self,
        alloc: Global,
        depth: usize,
        word: ProcessWord,
        value: &Json,
    ) -> Result<Process, Stop>
        ensures { Gives (λ x. x) result
            (worded_process (part_by self.now depth) self.now.vars.now self.now.channels.now word
            (view value.now)) }
    {
        match word {
            ProcessWord::Set => self.set(alloc, value),
            ProcessWord::Send => self.send(alloc, value),
            ProcessWord::Receive => self.receive(alloc, value),
            ProcessWord::Stopch => self.stopch(alloc, value),
            ProcessWord::Seq => self.parts(alloc, depth, value).map(Process::Seq),
            ProcessWord::Par => self.parts(alloc, depth, value).map(Process::Par),
            ProcessWord::If => self.branches(alloc, depth, value).map(Process::If),
            ProcessWord::While => self.repeated(alloc, depth, value),
            ProcessWord::Count => self.counted(alloc, depth, value),
            ProcessWord::Alt => self.guards(alloc, depth, value).map(Process::Alt),
        }
    }

    /// A list of processes.
    #[cycle(process)]
    fn parts(&self, alloc: Global, depth: usize, value: &Json) -> Result<Items<Process>, Stop>
        ensures { Gives (λ x. x) result
            (read_list (λ _. part_by self.now depth) (view value.now)) }
    {
        let mut read = Items::new(alloc);
        for item in array(alloc, value)? {
            read = with_item(read, self.process(alloc, depth, item))?;
        }
        Ok(read)
    }

    /// The branches of an IF.
    #[cycle(process)]
    fn branches(&self, alloc: Global, depth: usize, value: &Json) -> Result<Items<Branch>, Stop>
        ensures { Gives (λ x. x) result
            (read_list (λ _. branch_by self.now depth) (view value.now)) }
    {
        let mut read = Items::new(alloc);
        for item in array(alloc, value)? {
            read = with_item(read, self.branch(alloc, depth, item))?;
        }
        Ok(read)
    }

    /// A branch of an IF.
    #[cycle(process)]
    fn branch(&self, alloc: Global, depth: usize, value: &Json) -> Result<Branch, Stop>
        ensures { Gives (λ x. x) result
            (branch_by self.now depth (view value.now)) }
    {
        let cond = self.cond_first(alloc, 2, value)?;
        let (cond, body) = beside(cond, self.part(alloc, depth, 1, value))?;
        Ok(Branch { cond, body })
    }

    /// A WHILE.
    #[cycle(process)]
    fn repeated(&self, alloc: Global, depth: usize, value: &Json) -> Result<Process, Stop>
        ensures { Gives (λ x. x) result
            (read_while (part_by self.now depth) self.now.vars.now (view value.now)) }
    {
        let cond = self.cond_first(alloc, 2, value)?;
        let (cond, body) = beside(cond, self.boxed_part(alloc, depth, 1, value))?;
        Ok(Process::While { cond, body })
    }

    /// A replicated SEQ.
    #[cycle(process)]
    fn counted(&self, alloc: Global, depth: usize, value: &Json) -> Result<Process, Stop>
        ensures { Gives (λ x. x) result
            (read_count (part_by self.now depth) self.now.vars.now (view value.now)) }
    {
        let index = VariableOf {
            kind: ValueKind::Int,
            vars: self.vars,
        };
        row(alloc, 4, value)?;
        let var = cell(alloc, 0, &index, value)?;
        let base = cell(alloc, 1, &WholeExpr(self.vars), value)?;
        let count = cell(alloc, 2, &WholeExpr(self.vars), value)?;
        let body = self.boxed_part(alloc, depth, 3, value)?;
        Ok(Process::Count {
            var,
            base,
            count,
            body,
        })
    }

    /// The guards of an ALT.
    #[cycle(process)]
    fn guards(&self, alloc: Global, depth: usize, value: &Json) -> Result<Items<Guard>, Stop>
        ensures { Gives (λ x. x) result
            (read_list (λ _. guard_by self.now depth) (view value.now)) }
    {
        let mut read = Items::new(alloc);
        for item in array(alloc, value)? {
            read = with_item(read, self.guard(alloc, depth, item))?;
        }
        Ok(read)
    }

    /// A guard of an ALT.
    #[cycle(process)]
    fn guard(&self, alloc: Global, depth: usize, value: &Json) -> Result<Guard, Stop>
        ensures { Gives (λ x. x) result
            (guard_by self.now depth (view value.now)) }
    {
        let head = self.guard_head(alloc, value)?;
        let (head, body) = beside(head, self.part(alloc, depth, 3, value))?;
        let (cond, (chan, var)) = head;
        Ok(Guard {
            cond,
            chan,
            var,
            body,
        })
    }

    /// A part of a process.
    #[cycle(process)]
    fn part(&self, alloc: Global, depth: usize, index: usize, value: &Json) -> Result<Process, Stop>
        ensures { Gives (λ x. x) result
            (cell_of index (part_by self.now depth) (view value.now)) }
    {
        let read = match value.get(index) {
            Some(item) => self.process(alloc, depth, item),
            None => Err(wrong(alloc, Why::Missing)),
        };
        under(Step::Index(index), read)
    }

    /// A part of a process, in a box of its own.
    #[cycle(process)]
    fn boxed_part(
        &self,
        alloc: Global,
        depth: usize,
        index: usize,
        value: &Json,
    ) -> Result<Boxed<Process>, Stop>
        ensures { Gives (λ x. x) result
            (cell_of index (part_by self.now depth) (view value.now)) }
    {
        boxed(alloc, self.part(alloc, depth, index, value))
    }
}

impl Reader for WholeProcess<'_> {
    type Out = Process;

    ghost meaning = { λ r. whole_process r.vars.now r.channels.now };

    fn read(&self, alloc: Global, value: &Json) -> Result<Process, Stop> {
        self.process(alloc, 127, value)
    }
}
