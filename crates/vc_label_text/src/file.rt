//! A whole file that was made.
use vc_plan::Accepted;

/// A network file that was made of one without labelling.
#[derive(Drop)]
pub struct WholeFile {
    /// Its text.
    pub text: Vec<u8>,
    /// The network of that text.
    pub network: Accepted,
}
