//! Labels networks: makes the tables of switches, the virtual links and the headers.
//!
//! [`label`] takes the wires and channels of a network by the numbers of its nodes and switches. Switches joined by wires are a part. If
//! the switches of a part are a product of paths (rows, grids of any dimension, hypercubes), packets correct one coordinate after the
//! other, the last axis first. Elsewhere the switches are numbered, so that each but the first has an earlier neighbour, and packets go
//! to earlier switches and then to later ones. In both cases no packets come to wait for one another in a circle, and each hop comes
//! nearer. Some 96 numberings are tried. The one by which the channels pass the fewest switches is used.
//!
//! Nothing of that is promised here. The layer above reads the file that is made, and `check` and `find_cycle` judge it.
#![tactic(auto)]

mod axis;
mod column;
mod coordinates;
mod dimension;
mod distances;
mod ends;
mod fabric;
mod grid;
mod group;
mod labelling;
mod loads;
mod numbering;
mod part;
mod ranking;
mod request;
mod rows;
mod search;
mod set;
mod tables;
mod up_and_down;

pub use ends::{LabelledEnd, LabelledLink};
pub use group::Group;
pub use labelling::{LabelFault, Labelling, label};
pub use request::Request;
pub use rows::TableRow;
