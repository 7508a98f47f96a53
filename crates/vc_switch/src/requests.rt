//! What the packets at the inputs ask for, as bits.
ghost use Rattle.std.specs.Prelude.{◌≡◌, ◌<◌, ℕ, get_or, replicate};
ghost use Rattle.vc_switch.specs.Private.Requests.{AreRouted, OthersAskTheSame};

use crate::bits::{has_more, lowest, told};
use crate::opening::LINKS;
use std::marker::Model;

/// For each input a bit for each output that its packet asks for.
#[derive(Drop)]
pub(crate) struct Requests {
    // by the input's link, of which there are so many
    outputs: [u32; 32],
    // a bit for each input whose packet asks for an output
    asking: u32,
}

impl Model for Requests {
    ghost use Rattle.std.specs.Prelude.{ℕ, List};
    ghost use Rattle.vc_switch.specs.Private.Requests.{AreAsking};

    ghost Value = { List ℕ };

    ghost view = { λ x. x.outputs };

    ghost invariant = { λ x. AreAsking x.outputs x.asking };
}

// No output for any input.
fn no_outputs() -> [u32; 32]
    ensures { result ≡ replicate 32 0 }
{
    [0; 32]
}

impl Requests {
    /// No input asks for any output.
    pub(crate) fn new() -> Requests
        ensures { (k : ℕ) → get_or result k 0 ≡ 0 }
    {
        Requests {
            outputs: no_outputs(),
            asking: 0,
        }
    }

    /// A bit for each output that an input's packet asks for.
    pub(crate) fn of(&self, input: u8) -> u32
        requires { input < 32 }
        ensures { result ≡ get_or self.now input 0 }
    {
        self.outputs[usize::from(input)]
    }

    /// From now on an input's packet asks for these outputs.
    pub(crate) fn set(&mut self, input: u8, outputs: u32)
        requires { input < 32 }
        ensures it { get_or self.new input 0 ≡ outputs }
        ensures others { OthersAskTheSame input self.old self.new }
    {
        self.outputs[usize::from(input)] = outputs;
        self.asking = told(self.asking, input, outputs != 0);
    }

    /// A bit for each input whose packet asks for an output that is not busy.
    pub(crate) fn asking(&self, busy: u32) -> u32
        ensures { AreRouted self.now busy result }
    {
        let mut routes = 0;
        let mut left = self.asking;
        for _ in 0..LINKS {
            let Some(link) = lowest(left) else {
                return routes;
            };
            left = told(left, link, false);
            routes = told(routes, link, has_more(self.of(link), busy));
        }
        routes
    }
}
