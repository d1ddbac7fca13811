//! What is shown of a report, in other words. Each law is the contract of a function with an empty body.

ghost use Rattle.am_lab_drawings.specs.View.Laws.{EachReceiptHasItsArrow, LanesAreTheStates, MessagePicturesAreOfMessages, ReceiptsAreThoseOfReasons};

/// The spans of each lane, spread out line by line, say where its endpoint lies, how many records are out and how many
/// messages are received and not polled, in its state before the lines and in that behind each of them; and they go on
/// without a gap.
pub fn lanes_are_the_states()
    ensures { LanesAreTheStates }
{}

/// A packet has a cross where `why` says of it that it was never received.
pub fn receipts_are_those_of_reasons()
    ensures { ReceiptsAreThoseOfReasons }
{}

/// In the picture of a whole history there is just one arrow for each entry that receives a packet, in their order.
pub fn each_receipt_has_its_arrow()
    ensures { EachReceiptHasItsArrow }
{}

/// The picture of a message has a row for each entry that touches the message, as `why` tells them, in order and each in its
/// line, and its arrows and crosses are those of the journal.
pub fn message_pictures_are_of_messages()
    ensures { MessagePicturesAreOfMessages }
{}
