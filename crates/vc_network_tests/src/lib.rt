//! Tests of nodes, switches and networks, of the reader and of runs in threads, over the libraries' public calls.
#![tactic(auto)]

#[cfg(test)]
mod choices;
#[cfg(test)]
mod events;
#[cfg(test)]
mod gates;
#[cfg(test)]
mod memory;
#[cfg(test)]
mod networks;
#[cfg(test)]
mod overtaking;
#[cfg(test)]
mod plan;
#[cfg(test)]
mod play;
#[cfg(test)]
mod reader;
#[cfg(test)]
mod refusals;
#[cfg(test)]
mod switch;
#[cfg(test)]
mod turns;
#[cfg(test)]
mod vcp;
#[cfg(test)]
mod workers;
#[cfg(test)]
mod wormhole;
