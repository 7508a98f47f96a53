//! What a run says of a program on a network whose ports have ranks.
ghost use Rattle.std.specs.Prelude.{◌≡◌, ◌≢◌, ◌<◌, ℕ, true, List, Ok, IfOk};
ghost use Rattle.vc_core.specs.PossibleEvents.{NetworkState};
ghost use Rattle.vc_core.specs.declared.close.Close.{Close as Closing};
ghost use Rattle.vc_core.specs.declared.close.Close.TheVariants.{Quiet};
ghost use Rattle.vc_core.specs.declared.event.Event.{Event};
ghost use Rattle.vc_plan.specs.Dependencies.{HasRanks};
ghost use Rattle.vc_plan.specs.declared.plan.Plan.{Plan};
ghost use Rattle.vc_program.specs.Program.{NeverStuck};
ghost use Rattle.vc_text.specs.CheckText.{ReadsAccepted};
ghost use Rattle.vc_text.specs.RunText.{IsRunWithin};
ghost use Rattle.vc_text.specs.declared.schedule.Schedule.TheVariants.{InTurn};

use std::alloc::Global;
use std::io::{Read, Write};
use vc_core::Close;
use vc_explore_text::{Finding, run_explore};
use vc_free::free_placements_never_stop;
use vc_stats::Form;
use vc_text::{Meter, RunFault, run_step};

/// Runs a network event by event, and reports how the run ended. If the network's ports have ranks, and no schedule of its program gets
/// stuck, the run is not quiet: every process has ended, or as many events were made as were allowed.
pub fn close_of_run<R: Read, W: Write>(
    alloc: Global,
    reader: &mut R,
    writer: &mut W,
    limit: u64,
) -> Result<Close, RunFault>
    ensures { IfOk result (λ close. (plan : Plan) ×
        ReadsAccepted (R.remaining reader.old) (Ok plan) ×
        (HasRanks plan → NeverStuck plan → close ≢ Quiet)) }
{
    free_placements_never_stop();
    let report = run_step(alloc, reader, writer, limit)?;
    Ok(report.close)
}

/// Explores the schedules of a network's program, and reports whether its runs are known never to be quiet: whatever the limit, a run
/// event by event goes on until every process has ended, or until as many events were made as are allowed.
pub fn is_never_quiet<R: Read, W: Write>(
    alloc: Global,
    reader: &mut R,
    writer: &mut W,
    most: usize,
) -> Result<bool, RunFault>
    requires { 0 < most }
    ensures { IfOk result (λ never. never ≡ true → (plan : Plan) ×
        ReadsAccepted (R.remaining reader.old) (Ok plan) ×
        ((limit : ℕ) (events : List Event) (end : NetworkState) (close : Closing) →
        IsRunWithin plan InTurn limit events end close → close ≢ Quiet)) }
{
    let finding = run_explore(alloc, reader, writer, most, Form::Lines, &Meter::new())?;
    match finding {
        Finding::Free => Ok(true),
        Finding::MayStop | Finding::Open => Ok(false),
    }
}
