//! The actors of a plan, with a ring for each way between them.
ghost use Rattle.std.specs.Prelude.{◌≡◌, ◌≢◌, ◌≤◌, ◌<◌, ◌++◌, [], ◌∷◌, IfOk, OnOk, length, map};
ghost use Rattle.std.specs.List.{All, AllByRecursion};
ghost use Rattle.vc_actor.specs.Begin.{AreFirst};
ghost use Rattle.vc_actor.specs.Turns.{actors as actors_in};
ghost use Rattle.vc_plan.specs.Accepted.{IsAccepted};
ghost use Rattle.vc_threads.specs.Private.Jobs.{IsFit};
ghost use Rattle.vc_threads.specs.Private.Rings.{AddsRing, AreBare, AreWired, CanAddRing, outs_in, ins_in};
ghost use Rattle.vc_threads.specs.Private.Threads.{AreNumbered, actor_in, who};
ghost use Rattle.vc_threads.specs.Private.Works.{IsOfSomePlan};

use crate::link::{Ends, In, LinkRule, Out, PLACES};
use crate::spawn::Job;
use rtrb::RingBuffer;
use std::alloc::Global;
use vc_core::{Actor, actor_of, actors};
use vc_packets::Memory;
use vc_plan::{Accepted, Plan, Port};

// The job of an actor that has no links yet.
fn job_of(alloc: Global, id: u8, actor: Actor) -> Job
    requires { IsOfSomePlan actor }
    ensures who { who result ≡ record { id = id; actor = actor } }
    ensures fit { IsFit result }
    ensures bare { (outs_in result ≡ []) × (ins_in result ≡ []) }
{
    let outs = Vec::new(alloc);
    let ins = Vec::new(alloc);
    Job {
        id,
        actor,
        ends: Ends { outs, ins },
    }
}

// A job for each actor, without links, numbered from 0 on.
fn jobs_of(alloc: Global, actors: Vec<Actor>) -> Result<Vec<Job>, Memory>
    requires few { length actors.items ≤ 64 }
    requires actors { AllByRecursion IsOfSomePlan actors.items }
    ensures fit { IfOk result (λ jobs. All IsFit jobs.items) }
    ensures numbered { IfOk result (λ jobs. AreNumbered 0 (map who jobs.items)) }
    ensures actors { IfOk result (λ jobs. map actor_in jobs.items ≡ actors.items) }
    ensures bare { IfOk result (λ jobs. AreBare jobs.items) }
{
    let mut jobs = Vec::new(alloc);
    for actor in actors {
        let id = jobs.len() as u8;
        jobs.push(job_of(alloc, id, actor))?;
    }
    Ok(jobs)
}

// Gives an actor the end of a ring that goes out by a link of its own.
fn add_out(job: &mut Job, link: u8, producer: Out) -> Result<(), Memory>
    requires fit { IsFit job.old }
    requires low { link < 32 }
    requires fresh { All (λ o. o.0 ≢ link) (outs_in job.old) }
    ensures fit { IsFit job.new }
    ensures same { who job.new ≡ who job.old }
    ensures outs { OnOk result (outs_in job.new ≡ outs_in job.old ++ (link, producer) ∷ []) }
    ensures ins { ins_in job.new ≡ ins_in job.old }
{
    job.ends.outs.push((link, producer))?;
    Ok(())
}

// Gives an actor the end of a ring that comes in by a link of its own.
fn add_in(job: &mut Job, link: u8, consumer: In) -> Result<(), Memory>
    requires fit { IsFit job.old }
    requires fresh { All (λ i. i.0 ≢ link) (ins_in job.old) }
    ensures fit { IsFit job.new }
    ensures same { who job.new ≡ who job.old }
    ensures ins { OnOk result (ins_in job.new ≡ ins_in job.old ++ (link, consumer) ∷ []) }
    ensures outs { outs_in job.new ≡ outs_in job.old }
{
    job.ends.ins.push((link, consumer))?;
    Ok(())
}

// Makes the ring of the way from one port to another.
fn add_ring(
    alloc: Global,
    jobs: &mut Vec<Job>,
    nodes: usize,
    from: Port,
    to: Port,
) -> Result<(), Memory>
    requires nodes { nodes ≤ 32 }
    requires fit { All IsFit jobs.old.items }
    requires free { CanAddRing nodes jobs.old.items from to }
    ensures fit { OnOk result (All IsFit jobs.new.items) }
    ensures same { OnOk result (map who jobs.new.items ≡ map who jobs.old.items) }
    ensures ring { OnOk result (AddsRing nodes jobs.old.items from to jobs.new.items) }
{
    let source = actor_of(from.spot, nodes);
    let sink = actor_of(to.spot, nodes);
    let Ok((producer, consumer)) = RingBuffer::with_protocol::<Global, LinkRule>(alloc, PLACES)
    else {
        return Err(Memory);
    };
    add_out(&mut jobs[source], from.link, producer)?;
    add_in(&mut jobs[sink], to.link, consumer)?;
    Ok(())
}

// Makes a ring for each way of each wire.
fn add_rings(alloc: Global, jobs: &mut Vec<Job>, plan: &Plan) -> Result<(), Memory>
    requires plan { IsAccepted plan.now }
    requires count { length jobs.old.items ≡ actors_in plan.now }
    requires fit { All IsFit jobs.old.items }
    requires bare { AreBare jobs.old.items }
    ensures fit { OnOk result (All IsFit jobs.new.items) }
    ensures same { OnOk result (map who jobs.new.items ≡ map who jobs.old.items) }
    ensures wired { OnOk result (AreWired plan.now (length plan.now.wires) jobs.new.items) }
{
    let nodes = plan.nodes.len();
    for wire in plan.wires.as_slice() {
        add_ring(alloc, jobs, nodes, wire.one, wire.two)?;
        add_ring(alloc, jobs, nodes, wire.two, wire.one)?;
    }
    Ok(())
}

/// A job for each actor of an accepted plan, which begins, with the ends of its rings: one for each way of the plan, from the actor at
/// its near end to the one at its far end.
pub(crate) fn make_jobs(alloc: Global, accepted: &Accepted) -> Result<Vec<Job>, Memory>
    ensures fit { IfOk result (λ jobs. All IsFit jobs.items) }
    ensures numbered { IfOk result (λ jobs. AreNumbered 0 (map who jobs.items)) }
    ensures begins { IfOk result
        (λ jobs. AreFirst accepted.now (actors_in accepted.now) (map actor_in jobs.items)) }
    ensures wired { IfOk result
        (λ jobs. AreWired accepted.now (length accepted.now.wires) jobs.items) }
{
    let plan = accepted.plan();
    let mut jobs = jobs_of(alloc, actors(alloc, accepted)?)?;
    add_rings(alloc, &mut jobs, plan)?;
    Ok(jobs)
}
