//! The end of a pipe that sends.
ghost use Rattle.std.specs.Prelude.{◌≡◌, ◌<◌, []};
ghost use Rattle.crossbeam_channel.specs.Claims.{view, IsSeatAt};
ghost use Rattle.crossbeam_channel.specs.Ends.{sends_on};
ghost use Rattle.dump_pipe.specs.declared.end_side.EndSide.TheVariants.{Sends};
ghost use Rattle.dump_pipe.specs.Feeds.{IsFed};

use crate::channel::{End, Sender, send};
use crate::message::Message;
use dump_pump::{Next, Source, SourceEnd};
use std::sync::Wait;

/// Sends the parts of a source, in order, and then how the source ended, which it also returns. Waits while the pipe is full.
pub fn feed<S: Source, R: Wait>(rt: &R, source: &mut S, sender: &Sender, end: &mut End) -> SourceEnd
    requires source { 0 < (S.seen source.old).left }
    requires end { IsSeatAt (sends_on sender.now) end.old × (view end.old ≡ Sends []) }
    ensures end { IsSeatAt (sends_on sender.now) end.new }
    ensures fed { IsFed (S.seen source.old) (S.seen source.new) (view end.new) result }
    ensures kept { S.kept source.new ≡ S.kept source.old }
{
    // Its contract bounds the number of parts that are left.
    let _most = source.parts_left();
    loop {
        match source.next() {
            Next::Part(piece) => {
                let last = piece.last;
                send(rt, sender, end, Message::Part(piece));
                if last {
                    send(rt, sender, end, Message::End(SourceEnd::Whole));
                    return SourceEnd::Whole;
                }
            }
            Next::Lost(cause) => {
                send(rt, sender, end, Message::End(SourceEnd::Lost(cause)));
                return SourceEnd::Lost(cause);
            }
            Next::Cancelled => {
                send(rt, sender, end, Message::End(SourceEnd::Cancelled));
                return SourceEnd::Cancelled;
            }
        }
    }
}
