//! Readers of switches without tables.
ghost use Rattle.serde_json.specs.View.{view};
ghost use Rattle.vc_reader.specs.Private.Reading.{Gives};
ghost use Rattle.vc_reader.specs.Bare.{name_or_object, read_bare_switch};

use crate::fault::Stop;
use crate::node::Head;
use crate::reader::{NamedReader, Reader, field, object};
use crate::register::Register;
use crate::switch::NewPlace;
use crate::word::Word;
use serde_json::Value;
use sqlite_items::Items;
use std::alloc::Global;
use vc_plan::{Name, SwitchPlan};

/// A name, or an object that has a name and nothing else.
fn name_or_object<R: Reader<Out = Name>>(
    alloc: Global,
    reader: &R,
    value: &Value,
) -> Result<Name, Stop>
    ensures { Gives (λ x. x) result (name_or_object (R.meaning reader.now) (view value.now)) }
{
    match value {
        Value::String(_) => reader.read(alloc, value),
        _ => {
            object(alloc, &[Word::Name], value)?;
            field(alloc, Word::Name, reader, value)
        }
    }
}

/// A switch that has a name and no table.
#[derive(Drop)]
pub(crate) struct BareSwitchReader<'a>(pub &'a Register<Head>);

impl NamedReader for BareSwitchReader<'_> {
    type Out = SwitchPlan;

    ghost meaning = { λ r. read_bare_switch r.0.now };

    fn read(
        &self,
        alloc: Global,
        before: &Register<SwitchPlan>,
        value: &Value,
    ) -> Result<SwitchPlan, Stop> {
        let place = NewPlace {
            nodes: self.0,
            switches: before,
        };
        let name = name_or_object(alloc, &place, value)?;
        Ok(SwitchPlan {
            name,
            rows: Items::new(alloc),
            delete: Items::new(alloc),
            random: Items::new(alloc),
        })
    }
}
