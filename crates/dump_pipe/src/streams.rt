//! Dumps through a pipe between two threads.
ghost use Rattle.std.specs.Prelude.{◌≡◌, ◌<◌, [], Some, is_some};
ghost use Rattle.crossbeam_channel.specs.Claims.{view, IsSeatAt};
ghost use Rattle.crossbeam_channel.specs.Ends.{sends_on, receives_on};
ghost use Rattle.dump_pump.specs.Pumps.{bytes_of};
ghost use Rattle.dump_pipe.specs.Seats.{HasDumpRoom, after_bytes};
ghost use Rattle.dump_pipe.specs.declared.end_side.EndSide.TheVariants.{Sends, Gets};
ghost use Rattle.dump_pipe.specs.Starts.{was_told};
ghost use Rattle.dump_pipe.specs.Streams.{IsStreamed, CanFeed, CanDrain, MayFeed, MayDrain, MayStream, drained_bytes};

use crate::channel::{BothEnds, End, Ends, Knowledge, Order, Receiver, Sender, pipe};
use crate::counter::Counter;
use crate::drainer::drain_pipe;
use crate::feeder::feed;
use crate::pumps::pump_counted;
use crate::start::{NewStart, Start};
use crate::start_seats::{BeginSeat, WaitSeat};
use dump_pump::{Outlet, Pumped, Source, SourceEnd};
use std::alloc::Global;
use std::sync::Wait;
use std::thread::{Threads, join_mut};

/// Puts out the parts of a source as `pump` does, while a second thread asks the source for the next ones, and counts their
/// bytes. If a pipe or a start can't be allocated, or the thread hasn't begun in time, the caller's thread does both. Waits for the source
/// and for the outlet; both threads have ended when it returns. The sum has room for the bytes of a dump.
pub fn stream_parts<S: Source + Send, O: Outlet, R: Threads + Wait + Sync>(
    rt: &R,
    alloc: Global,
    source: &mut S,
    outlet: &mut O,
    counter: &mut Counter<'_>,
) -> Pumped
    requires source { 0 < (S.seen source.old).left }
    requires room { HasDumpRoom counter.old }
    ensures streamed { IsStreamed (S.seen source.old) (S.seen source.new) (O.seen outlet.old)
        (O.seen outlet.new) result }
    ensures kept { S.kept source.new ≡ S.kept source.old }
    ensures counted { counter.new ≡ after_bytes counter.old (bytes_of result) }
{
    let Ok((ends, mut known)) = pipe(alloc) else {
        return pump_counted(source, outlet, counter);
    };
    let Some(pumped) = pass_parts(rt, alloc, &ends, &mut known, source, outlet, counter) else {
        return pump_counted(source, outlet, counter);
    };
    let Knowledge { mut one, other } = known;
    ends.sender.absorb::<Ends>(&mut one, other);
    ends.sender.learn_as::<Order>(&mut one);
    pumped
}

// Feeds in a new thread, and drains in the caller's. Returns None if a start can't be allocated, or if the thread was given up;
// then neither did anything.
fn pass_parts<S: Source + Send, O: Outlet, R: Threads + Wait + Sync>(
    rt: &R,
    alloc: Global,
    ends: &BothEnds,
    known: &mut Knowledge,
    source: &mut S,
    outlet: &mut O,
    counter: &mut Counter<'_>,
) -> Option<Pumped>
    requires source { 0 < (S.seen source.old).left }
    requires one { IsSeatAt (sends_on ends.now.sender) known.old.one
        × (view known.old.one ≡ Sends []) }
    requires other { IsSeatAt (receives_on ends.now.receiver) known.old.other
        × (view known.old.other ≡ Gets []) }
    requires room { HasDumpRoom counter.old }
    ensures one { IsSeatAt (sends_on ends.now.sender) known.new.one }
    ensures other { IsSeatAt (receives_on ends.now.receiver) known.new.other }
    ensures passed { MayStream (S.seen source.old) (S.seen source.new) (view known.new.one)
        (view known.new.other) (O.seen outlet.old) (O.seen outlet.new) result }
    ensures kept { S.kept source.new ≡ S.kept source.old }
    ensures counted { counter.new ≡ after_bytes counter.old (drained_bytes result) }
{
    let NewStart {
        start,
        mut beginner,
        mut waiter,
    } = Start::new(alloc).ok()?;
    let (sender, receiver) = (&ends.sender, &ends.receiver);
    let (one, other) = (&mut known.one, &mut known.other);
    let mut feeder = || -> Option<SourceEnd>
        requires { CanFeed (S.seen source.now) (view one.now)
            × IsSeatAt (sends_on sender.now) one.now
            × (beginner.start ≡ start) }
    { begin_feed(rt, &start, &mut beginner, source, sender, one) };
    let mut drainer = || -> Option<Pumped>
        requires { CanDrain (view other.now) counter.now
            × IsSeatAt (receives_on receiver.now) other.now
            × (waiter.start ≡ start) }
    { drain_begun(rt, &start, &mut waiter, receiver, other, outlet, counter) };
    let (_, drained) = join_mut(rt, &mut feeder, &mut drainer);
    start.settle(beginner, waiter);
    drained
}

// Begins and feeds. Returns None if the thread was given up.
fn begin_feed<S: Source, R: Wait>(
    rt: &R,
    start: &Start,
    seat: &mut BeginSeat,
    source: &mut S,
    sender: &Sender,
    end: &mut End,
) -> Option<SourceEnd>
    requires seat { seat.old.start ≡ start.now }
    requires source { 0 < (S.seen source.old).left }
    requires end { IsSeatAt (sends_on sender.now) end.old × (view end.old ≡ Sends []) }
    ensures told { seat.new ≡ was_told start.now (Some (is_some result)) }
    ensures end { IsSeatAt (sends_on sender.now) end.new }
    ensures fed { MayFeed (S.seen source.old) (S.seen source.new) (view end.new) result }
    ensures kept { S.kept source.new ≡ S.kept source.old }
{
    if !start.begin(seat) {
        return None;
    }
    Some(feed(rt, source, sender, end))
}

// Drains once the other end has begun. Returns None if that was given up.
fn drain_begun<O: Outlet, R: Wait>(
    rt: &R,
    start: &Start,
    seat: &mut WaitSeat,
    receiver: &Receiver,
    end: &mut End,
    outlet: &mut O,
    counter: &mut Counter<'_>,
) -> Option<Pumped>
    requires seat { seat.old.start ≡ start.now }
    requires end { IsSeatAt (receives_on receiver.now) end.old × (view end.old ≡ Gets []) }
    requires room { HasDumpRoom counter.old }
    ensures told { seat.new ≡ was_told start.now (Some (is_some result)) }
    ensures end { IsSeatAt (receives_on receiver.now) end.new }
    ensures drained { MayDrain (view end.new) (O.seen outlet.old) (O.seen outlet.new) result }
    ensures counted { counter.new ≡ after_bytes counter.old (drained_bytes result) }
{
    if !start.is_begun(rt, seat) {
        return None;
    }
    Some(drain_pipe(rt, receiver, end, outlet, counter))
}
