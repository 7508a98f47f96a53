//! Tests of texts in and out, of runs by rounds and in threads from the bytes that are read to those that are written, and of what the
//! words of the command line ask for, over the libraries' public calls.
#![tactic(auto)]

#[cfg(test)]
mod event_lists;
#[cfg(test)]
mod files;
#[cfg(test)]
mod limits;
#[cfg(test)]
mod line;
#[cfg(test)]
mod memory;
#[cfg(test)]
mod networks;
#[cfg(test)]
mod order;
#[cfg(test)]
mod readers;
#[cfg(test)]
mod streams;
#[cfg(test)]
mod text;
#[cfg(test)]
mod words;
