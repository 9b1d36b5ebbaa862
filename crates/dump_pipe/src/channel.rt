//! A channel of few messages, with one end that sends and one that receives.
ghost use Rattle.std.specs.Prelude.{◌≡◌, ◌≤◌, ◌∷◌, ◌++◌, [], IfOk};
ghost use Rattle.crossbeam_channel.specs.Claims.{view, IsSeatAt};
ghost use Rattle.crossbeam_channel.specs.Ends.{sends_on, receives_on};
ghost use Rattle.dump_pipe.specs.declared.end_side.EndSide.TheVariants.{Sends, Gets};
ghost use Rattle.dump_pipe.specs.Pipes.{weigh, list_of, byte_limit, IsSending, IsReceiving};

use crate::end_side::EndSide;
use crate::message::Message;
use crossbeam_channel::protocol::{Join, Lesson, Outcome, Protocol, Split};
use crossbeam_channel::{Pass, RuledReceiver, RuledSender, bounded_with};
use std::alloc::{AllocError, Global};
use std::sync::Wait;

/// The largest number of messages in a pipe.
pub const PIPE_LIMIT: usize = 8;

/// The rule: what was received, and then what the pipe holds, is what was sent.
pub struct InOrder;

impl Protocol<Message, EndSide> for InOrder {
    ghost use Rattle.std.specs.Prelude.{[]};
    ghost use Rattle.dump_pipe.specs.declared.end_side.EndSide.TheVariants.{Both};
    ghost use Rattle.dump_pipe.specs.Pipes.{IsInOrder};

    ghost holds = { IsInOrder };

    ghost first = { Both [] [] };
}

/// The split of a pipe's one end into two, and their join.
pub struct Ends;

impl Split<EndSide> for Ends {
    ghost use Rattle.dump_pipe.specs.Pipes.{sends_of, gets_of};

    ghost left = { sends_of };

    ghost right = { gets_of };
}

impl Join<EndSide> for Ends {
    ghost use Rattle.dump_pipe.specs.declared.end_side.EndSide.TheVariants.{Spent};
    ghost use Rattle.dump_pipe.specs.Pipes.{both_of};

    ghost both = { both_of };

    ghost spent = { Spent };
}

/// The fact that both ends together know: the messages received are a beginning of those sent.
pub struct Order;

impl Lesson<Message, EndSide> for Order {
    ghost use Rattle.dump_pipe.specs.Pipes.{HasOrder};

    ghost fact = { HasOrder };
}

/// The outcome that a message was sent.
pub struct Sent;

impl Outcome<Message, EndSide> for Sent {
    ghost use Rattle.dump_pipe.specs.Pipes.{HasSent};

    ghost then = { HasSent };
}

impl Lesson<Message, EndSide> for Sent {
    ghost fact = { λ v items. Unit {0} };
}

/// The outcome that a message was received.
pub struct Got;

impl Outcome<Message, EndSide> for Got {
    ghost use Rattle.dump_pipe.specs.Pipes.{HasGot};

    ghost then = { HasGot };
}

impl Lesson<Message, EndSide> for Got {
    ghost fact = { λ v items. Unit {0} };
}

/// The end that sends.
pub type Sender = RuledSender<Message, EndSide, InOrder>;

/// The end that receives.
pub type Receiver = RuledReceiver<Message, EndSide, InOrder>;

/// The knowledge of an end. It has no bytes.
pub type End = Pass<Message, EndSide>;

/// The two ends of a pipe.
#[derive(Drop)]
pub struct BothEnds {
    /// The end that sends.
    pub sender: Sender,
    /// The end that receives.
    pub receiver: Receiver,
}

/// The knowledge of both ends of a pipe.
#[derive(Drop)]
pub struct Knowledge {
    /// That of the end that sends.
    pub one: End,
    /// That of the end that receives.
    pub other: End,
}

/// Creates an empty pipe for the messages of one dump, with the knowledge of its two ends. Fails if the allocation fails.
pub fn pipe(alloc: Global) -> Result<(BothEnds, Knowledge), AllocError>
    ensures ends { IfOk result (λ p. receives_on p.0.receiver ≡ sends_on p.0.sender) }
    ensures sender { IfOk result
        (λ p. IsSeatAt (sends_on p.0.sender) p.1.one × (view p.1.one ≡ Sends [])) }
    ensures receiver { IfOk result
        (λ p. IsSeatAt (receives_on p.0.receiver) p.1.other × (view p.1.other ≡ Gets [])) }
{
    let (sender, receiver, mut one) = bounded_with(alloc, PIPE_LIMIT)?;
    let other = sender.another::<Ends>(&mut one);
    Ok((BothEnds { sender, receiver }, Knowledge { one, other }))
}

/// Sends a message. Waits while the pipe is full. A message that comes back is sent again.
pub fn send<R: Wait>(rt: &R, sender: &Sender, end: &mut End, message: Message)
    requires end { IsSeatAt (sends_on sender.now) end.old × IsSending (view end.old) }
    requires room { weigh (list_of (view end.old) ++ message ∷ []) ≤ byte_limit }
    ensures end { IsSeatAt (sends_on sender.now) end.new }
    ensures sent { view end.new ≡ Sends (list_of (view end.old) ++ message ∷ []) }
{
    let mut next = message;
    for _ in rt.forever() {
        match sender.send_as::<Sent, R>(rt, end, next) {
            Ok(()) => return,
            Err(error) => next = error.into_inner(),
        }
    }
    unreachable!()
}

/// Receives a message. Waits while there is none. A receive that gives none is tried again.
pub fn receive<R: Wait>(rt: &R, receiver: &Receiver, end: &mut End) -> Message
    requires { IsSeatAt (receives_on receiver.now) end.old × IsReceiving (view end.old) }
    ensures end { IsSeatAt (receives_on receiver.now) end.new }
    ensures got { view end.new ≡ Gets (list_of (view end.old) ++ result ∷ []) }
    ensures room { weigh (list_of (view end.old) ++ result ∷ []) ≤ byte_limit }
{
    for _ in rt.forever() {
        if let Ok(message) = receiver.recv_as::<Got, R>(rt, end) {
            return message;
        }
    }
    unreachable!()
}
