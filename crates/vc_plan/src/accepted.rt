//! Plans that were accepted.
use crate::plan::Plan;
use std::marker::Model;

/// A plan that the checker accepted; nothing else makes one.
#[derive(Drop)]
pub struct Accepted {
    plan: Plan,
}

impl Model for Accepted {
    ghost use Rattle.std.specs.Coded.{codes};
    ghost use Rattle.vc_process.specs.contracts.process.Process as process;
    ghost use Rattle.vc_plan.specs.Accepted.{IsAccepted};
    ghost use Rattle.vc_plan.specs.declared.plan.Plan.{Plan};

    ghost Value = { Plan };

    ghost coded = { Prim.hlevel (codes, process.the_row.coded) };

    ghost view = { λ a. a.plan };

    ghost invariant = { λ a. IsAccepted a.plan };
}

impl Accepted {
    ghost use Rattle.std.specs.Prelude.{◌≡◌};
    ghost use Rattle.vc_plan.specs.Accepted.{IsAccepted};
    ghost use Rattle.vc_plan.specs.Private.Check.{PassesUse};

    /// A plan that is found to be in order.
    pub(crate) fn of(plan: Plan) -> Accepted
        requires { PassesUse plan }
        ensures plan { result ≡ plan }
        ensures accepted { IsAccepted plan }
    {
        Accepted { plan }
    }

    /// The plan that the checker was given.
    pub fn plan(&self) -> &Plan
        ensures plan { result.now ≡ self.now }
        ensures accepted { IsAccepted self.now }
    {
        &self.plan
    }
    /// The plan alone, from here on for anybody to change.
    pub fn into_plan(self) -> Plan
        ensures plan { result ≡ self }
        ensures accepted { IsAccepted self }
    {
        self.plan
    }
}
