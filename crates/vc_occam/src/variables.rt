//! Variables of a running process, and how they change.
ghost use Rattle.std.specs.Prelude.{◌≡◌, ◌<◌, IfOk, length, map};
ghost use Rattle.vc_process.specs.Messages.{number_bytes, received};
ghost use Rattle.vc_occam.specs.Opening.{empty_of};
ghost use Rattle.vc_process.specs.Terms.{store};
ghost use Rattle.vc_occam.specs.Traces.{set};

use std::alloc::Global;
use vc_packets::{Bytes, Memory};
use vc_process::{Datum, ValueKind};

/// Variables of these kinds, which are 0 or without bytes.
pub(crate) fn empty_variables(alloc: Global, kinds: &[ValueKind]) -> Result<Vec<Datum>, Memory>
    ensures { IfOk result (λ vars. vars.items ≡ map empty_of kinds.now) }
{
    let mut vars = Vec::new(alloc);
    for kind in kinds {
        vars.push(match kind {
            ValueKind::Int => Datum::Int(0),
            ValueKind::Bytes => Datum::Bytes(Bytes::new(alloc)),
        })?;
    }
    Ok(vars)
}

/// A variable is changed.
#[inline(always)]
pub(crate) fn set_variable(vars: &mut Vec<Datum>, var: u8, datum: Datum)
    requires { var < length vars.old.items }
    ensures value { store vars.new.items ≡ set (store vars.old.items) var datum }
    ensures length { length vars.new.items ≡ length vars.old.items }
{
    vars[usize::from(var)] = datum;
}

/// A variable takes a message of its kind.
#[inline(always)]
pub(crate) fn put(vars: &mut Vec<Datum>, var: u8, message: Bytes)
    requires { var < length vars.old.items }
    ensures value { store vars.new.items ≡
        set (store vars.old.items) var (received (store vars.old.items var) message) }
    ensures length { length vars.new.items ≡ length vars.old.items }
{
    let place = usize::from(var);
    let datum = vars[place].receive(message);
    vars[place] = datum;
}

/// A variable takes the message that carries a number; where it holds a number, no message is made.
#[inline(always)]
pub(crate) fn put_number(alloc: Global, vars: &mut Vec<Datum>, var: u8, number: i64)
    requires { var < length vars.old.items }
    ensures value { store vars.new.items ≡
        set (store vars.old.items) var (received (store vars.old.items var) (number_bytes number)) }
    ensures length { length vars.new.items ≡ length vars.old.items }
{
    if let Datum::Int(_) = &vars[usize::from(var)] {
        return set_variable(vars, var, Datum::Int(number));
    }
    put(vars, var, number_message(alloc, number));
}

/// The message that carries a number, which takes no memory of its own.
#[tactic(auto, unfolding(vc_process::specs::Messages::number_bytes))]
pub(crate) fn number_message(alloc: Global, number: i64) -> Bytes
    ensures { result ≡ number_bytes number }
{
    match Bytes::from_array(alloc, number.to_le_bytes()) {
        Ok(message) => message,
        Err(_) => unreachable!(),
    }
}
