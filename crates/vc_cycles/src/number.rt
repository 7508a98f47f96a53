//! Ports of switches by their numbers.
ghost use Rattle.std.specs.Prelude.{◌≡◌, ◌<◌};
ghost use Rattle.vc_cycles.specs.Private.Graph.{port_number, port_at as port_of_number};

use vc_plan::{Port, Spot};

/// How many switches a plan may have, and how many links each of them.
const LINKS: u8 = 32;

/// How many ports these have.
pub(crate) const PORTS: usize = 1024;

/// The number of a switch's port; none for a node's.
pub(crate) fn number_of(port: Port) -> Option<u16>
    ensures { result ≡ port_number port }
{
    match port.spot {
        Spot::Switch(switch) if switch < LINKS && port.link < LINKS => {
            Some(u16::from(switch) * u16::from(LINKS) + u16::from(port.link))
        }
        _ => None,
    }
}

/// The port of a number.
pub(crate) fn port_at(number: u16) -> Port
    requires { number < 1024 }
    ensures { result ≡ port_of_number number }
{
    Port {
        spot: Spot::Switch((number / u16::from(LINKS)) as u8),
        link: (number % u16::from(LINKS)) as u8,
    }
}
