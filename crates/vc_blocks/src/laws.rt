//! Laws of the halves. A law is a function that does nothing, whose contract is the law.
ghost use Rattle.vc_blocks.specs.WholeMessages.{MessagesArriveWhole};

/// An input half that gets the packets of a message in order gives the message whole, with its last piece: all pieces are stored as
/// they arrive where a process inputs, and else the first is held until one does.
pub fn messages_arrive_whole()
    ensures { MessagesArriveWhole }
{}
