//! Tests of what is under nodes, switches and networks, over the libraries' public calls: packets, tokens, credit, the halves of a
//! virtual link, interval tables; and of the processes of vc_occam an example for each word and each fault as it runs, what meets
//! inside a node, and which use is lawful. These processes are written as in a network file, and each is a row of a table, so that the
//! prover sees a few functions and not one for each example.
#![tactic(auto)]

#[cfg(test)]
mod blocks;
#[cfg(test)]
mod choices;
#[cfg(test)]
mod credit;
#[cfg(test)]
mod expressions;
#[cfg(test)]
mod labels;
#[cfg(test)]
mod logs;
#[cfg(test)]
mod loops;
#[cfg(test)]
mod meetings;
#[cfg(test)]
mod packets;
#[cfg(test)]
mod parts;
#[cfg(test)]
mod play;
#[cfg(test)]
mod questions;
#[cfg(test)]
mod read;
#[cfg(test)]
mod tokens;
#[cfg(test)]
mod usage;
#[cfg(test)]
mod words;
