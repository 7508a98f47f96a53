//! Laws of pieces and packets. A law is a function that does nothing, whose contract is the law.
ghost use Rattle.vc_packets.specs.Laws.{EachHasPieces, PiecesAreOne, PacketsTell};

/// Each message has pieces: 32 bytes each, and then what is left.
pub fn a_message_has_pieces()
    ensures { EachHasPieces }
{}

/// A message has only one list of pieces.
pub fn the_pieces_are_one()
    ensures { PiecesAreOne }
{}

/// If the packets of a message begin those of another, bytes and marks, the two messages are the same.
pub fn packets_tell_the_message()
    ensures { PacketsTell }
{}
