//! The two versions of a plan.
ghost use Rattle.std.specs.Prelude.{◌≡◌};
ghost use Rattle.vc_plan.specs.Versions.{IsVersionOne, VersionsAgree, version_two};

use crate::plan::Plan;

/// The same network as a plan of version 2, of a plan of version 1 without portals and random inputs. It takes no memory.
pub fn as_version_two(plan: Plan) -> Plan
    requires { IsVersionOne plan }
    ensures { result ≡ version_two plan }
{
    let mut plan = plan;
    plan.version = 2;
    plan
}

/// A plan and the same in version 2: packets make the same hops by them, and are delivered alike; and of a plan of version 1 the one
/// is accepted exactly where the other is.
pub fn versions_agree()
    ensures { VersionsAgree }
{}
