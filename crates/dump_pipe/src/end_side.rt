//! What the ends of a pipe know.
use crate::message::Message;
use std::collections::LinkedList;

/// The knowledge of an end of a pipe: the messages sent, those received, both, or nothing. No value of it is made.
pub enum EndSide {
    /// Both ends as one: the messages sent and those received.
    Both(LinkedList<Message>, LinkedList<Message>),
    /// The end that sends: the messages sent.
    Sends(LinkedList<Message>),
    /// The end that receives: the messages received.
    Gets(LinkedList<Message>),
    /// No end.
    Spent,
}
