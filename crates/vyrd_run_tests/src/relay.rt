//! Each public call once with ample memory, with the answers at a full and an empty queue, and two
//! threads.

ghost use Rattle.std.specs.Prelude.{◌≡◌, ◌+◌, ◌<◌, ◌≤◌, ◌^◌, true, false, [], length, IfOk};
ghost use Rattle.std.specs.List.{All};

use std::alloc::{AllocError, Global};
use std::sync::Wait;
use std::test::Fail;
use std::thread;
use std::thread::{Threads, join};
use vyrd_base::{Did, Stamped};
use vyrd_relay::{Full, Parcel, Receiver, Relay, Reorder, Sender};

/// An event of caller 0.
fn event(number: u64) -> Stamped
    ensures caller { result.caller ≡ 0 }
    ensures number { result.number ≡ number }
{
    Stamped {
        number,
        caller: 0,
        did: Did::Read(1, number),
    }
}

/// A relay with one sender.
fn one(alloc: Global, capacity: u64) -> Result<(Relay, Sender, Receiver), AllocError>
    requires { (1 ≤ capacity) × (capacity ≤ 65536) }
    ensures sender { IfOk result
        (λ r. r.1 ≡ record { queue = r.0.queue; senders = 1; caller = 0; sent = [] }) }
    ensures receiver { IfOk result (λ r. r.2.queue ≡ r.0.queue) }
{
    let (relay, mut senders, receiver) = Relay::new(alloc, capacity, 1)?;
    let Some(sender) = senders.pop() else {
        return Err(AllocError);
    };
    Ok((relay, sender, receiver))
}

/// Whether a relay of one place takes an event and no second one, and gives it back.
fn has_one_place<R: Wait>(
    rt: &R,
    relay: &Relay,
    sender: &mut Sender,
    receiver: &mut Receiver,
) -> bool
    requires sender { (sender.old.queue ≡ relay.now.queue) × (sender.old.caller ≡ 0)
        × (sender.old.sent ≡ []) }
    requires receiver { receiver.old.queue ≡ relay.now.queue }
    ensures sender { sender.new.queue ≡ sender.old.queue }
    ensures receiver { receiver.new.queue ≡ receiver.old.queue }
{
    is_pushed(rt, relay, sender, 0, 7)
        && is_full(rt, relay, sender, &[event_of(0, 8)])
        && is_popped(rt, relay, receiver, &[event_of(0, 7)])
        && is_nothing_popped(rt, relay, receiver)
}

/// Puts an event that wasn't put before. It answers whether it did.
fn is_put(reorder: &mut Reorder, number: u64) -> bool
    requires { number < 2 ^ 62 }
{
    !reorder.had(number) && reorder.put(event(number)).is_ok()
}

/// Whether two events that are put the wrong way round come in their order.
fn puts_in_order(reorder: &mut Reorder) -> bool {
    is_put(reorder, 1)
        && reorder.next_in_order() == None
        && reorder.had(1)
        && is_put(reorder, 0)
        && reorder.next_in_order() == Some(event(0))
        && reorder.next_in_order() == Some(event(1))
        && reorder.next_in_order() == None
        && reorder.had(0)
        && !reorder.had(2)
}

#[test]
fn relay_and_reorder(rt: HostRuntime) -> Result<(), Fail> {
    let (relay, mut sender, mut receiver) = one(rt.alloc(), 1)?;
    assert!(rt; has_one_place(&rt, &relay, &mut sender, &mut receiver));
    assert!(rt; relay.settle(&rt, &mut receiver, sender) == 1);

    let mut reorder = Reorder::new(rt.alloc())?;
    assert!(rt; puts_in_order(&mut reorder));
    Ok(())
}

/// An event of that caller.
fn event_of(caller: u32, number: u64) -> Stamped
    ensures { result.caller ≡ caller }
{
    Stamped {
        number,
        caller,
        did: Did::Read(1, number),
    }
}

/// A relay with two senders, the first caller's first.
fn two(alloc: Global, capacity: u64) -> Result<(Relay, Sender, Sender, Receiver), AllocError>
    requires { (1 ≤ capacity) × (capacity ≤ 65536) }
    ensures first { IfOk result
        (λ r. r.1 ≡ record { queue = r.0.queue; senders = 2; caller = 0; sent = [] }) }
    ensures second { IfOk result
        (λ r. r.2 ≡ record { queue = r.0.queue; senders = 2; caller = 1; sent = [] }) }
    ensures receiver { IfOk result (λ r. r.3.queue ≡ r.0.queue) }
{
    let (relay, mut senders, receiver) = Relay::new(alloc, capacity, 2)?;
    let Some(second) = senders.pop() else {
        return Err(AllocError);
    };
    let Some(first) = senders.pop() else {
        return Err(AllocError);
    };
    Ok((relay, first, second, receiver))
}

/// Pushes an event alone, if there is room. It answers whether there was.
fn is_pushed<R: Wait>(rt: &R, relay: &Relay, sender: &mut Sender, caller: u32, number: u64) -> bool
    requires sender { (sender.old.queue ≡ relay.now.queue) × (sender.old.caller ≡ caller) }
    requires few { length sender.old.sent < 2 ^ 62 }
    ensures same { (sender.new.queue ≡ sender.old.queue) × (sender.new.caller ≡ sender.old.caller) }
    ensures one { result ≡ true → length sender.new.sent ≡ length sender.old.sent + 1 }
    ensures none { result ≡ false → sender.new ≡ sender.old }
{
    let Some(parcel) = relay.pack(rt, &[event_of(caller, number)]) else {
        return false;
    };
    match relay.push_next(rt, sender, parcel) {
        Ok(()) => true,
        Err(Full) => false,
    }
}

/// Whether these events, which are packed, find the queue full.
fn is_full<R: Wait>(rt: &R, relay: &Relay, sender: &mut Sender, events: &[Stamped]) -> bool
    requires sender { sender.old.queue ≡ relay.now.queue }
    requires caller { All (λ e. e.caller ≡ sender.old.caller) events.now }
    requires few { length sender.old.sent < 2 ^ 62 }
    ensures same { (sender.new.queue ≡ sender.old.queue) × (sender.new.caller ≡ sender.old.caller) }
    ensures few { length sender.new.sent ≤ length sender.old.sent + 32 }
{
    let Some(parcel) = relay.pack(rt, events) else {
        return false;
    };
    relay.push_next(rt, sender, parcel) == Err(Full)
}

/// Whether a parcel of just these events is popped.
fn is_popped<R: Wait>(rt: &R, relay: &Relay, receiver: &mut Receiver, wanted: &[Stamped]) -> bool
    requires { receiver.old.queue ≡ relay.now.queue }
    ensures { receiver.new.queue ≡ receiver.old.queue }
{
    let parcel = relay.pop(rt, receiver);
    is_packed(rt, relay, parcel, wanted)
}

/// Whether a parcel has just these events. Its room is given back.
fn holds<R: Wait>(rt: &R, relay: &Relay, parcel: Parcel, wanted: &[Stamped]) -> bool {
    let same = parcel.len() == wanted.len() && parcel.events() == wanted;
    relay.give_back(rt, parcel);
    same
}

/// Whether there is nothing to pop.
fn is_nothing_popped<R: Wait>(rt: &R, relay: &Relay, receiver: &mut Receiver) -> bool
    requires { receiver.old.queue ≡ relay.now.queue }
    ensures { receiver.new.queue ≡ receiver.old.queue }
{
    relay.pop(rt, receiver).is_none()
}

/// Whether there is room for two parcels of an event, whoever sends them, and for one more where
/// one was popped.
fn has_two_places<R: Wait>(
    rt: &R,
    relay: &Relay,
    first: &mut Sender,
    second: &mut Sender,
    receiver: &mut Receiver,
) -> bool
    requires first { (first.old.queue ≡ relay.now.queue) × (first.old.caller ≡ 0)
        × (first.old.sent ≡ []) }
    requires second { (second.old.queue ≡ relay.now.queue) × (second.old.caller ≡ 1)
        × (second.old.sent ≡ []) }
    requires receiver { receiver.old.queue ≡ relay.now.queue }
{
    is_pushed(rt, relay, first, 0, 5)
        && is_pushed(rt, relay, second, 1, 6)
        && is_full(rt, relay, first, &[event_of(0, 7)])
        && is_full(rt, relay, second, &[event_of(1, 8)])
        && is_popped(rt, relay, receiver, &[event_of(0, 5)])
        && is_pushed(rt, relay, second, 1, 8)
        && is_full(rt, relay, first, &[event_of(0, 7)])
        && is_popped(rt, relay, receiver, &[event_of(1, 6)])
        && is_popped(rt, relay, receiver, &[event_of(1, 8)])
        && is_nothing_popped(rt, relay, receiver)
}

/// What no clause can say where there is more than one sender: a push finds no room only when as
/// many parcels are queued as there may be, whoever sent them.
#[test]
fn two_senders_fill_the_relay(rt: HostRuntime) -> Result<(), Fail> {
    let (relay, mut first, mut second, mut receiver) = two(rt.alloc(), 2)?;
    assert!(rt; has_two_places(&rt, &relay, &mut first, &mut second, &mut receiver));
    Ok(())
}

/// Pushes the first of these events, as many as go at once, if there is room. It answers how many
/// went.
fn pushed<R: Wait>(rt: &R, relay: &Relay, sender: &mut Sender, events: &[Stamped]) -> usize
    requires sender { sender.old.queue ≡ relay.now.queue }
    requires caller { All (λ e. e.caller ≡ sender.old.caller) events.now }
    requires few { length sender.old.sent < 2 ^ 62 }
    ensures same { (sender.new.queue ≡ sender.old.queue) × (sender.new.caller ≡ sender.old.caller) }
    ensures few { length sender.new.sent ≤ length sender.old.sent + 32 }
{
    let Some(parcel) = relay.pack(rt, events) else {
        return 0;
    };
    let count = parcel.len();
    match relay.push_next(rt, sender, parcel) {
        Ok(()) => count,
        Err(Full) => 0,
    }
}

/// Events of caller 0, from one number up to another.
fn events_from(alloc: Global, first: u64, past: u64) -> Result<Vec<Stamped>, AllocError>
    ensures { IfOk result (λ events. All (λ e. e.caller ≡ 0) events.items) }
{
    let mut events = Vec::new(alloc);
    for number in first..past {
        events.push(event(number))?;
    }
    Ok(events)
}

/// Whether 36 events go as the first 32 and then the rest, fill a relay of two places, and come as
/// they went.
fn go_as_two_parcels<R: Wait>(
    rt: &R,
    relay: &Relay,
    sender: &mut Sender,
    receiver: &mut Receiver,
    all: &[Stamped],
    first: &[Stamped],
    rest: &[Stamped],
) -> bool
    requires sender { (sender.old.queue ≡ relay.now.queue) × (sender.old.caller ≡ 0)
        × (sender.old.sent ≡ []) }
    requires receiver { receiver.old.queue ≡ relay.now.queue }
    requires all { All (λ e. e.caller ≡ 0) all.now }
    requires rest { All (λ e. e.caller ≡ 0) rest.now }
    ensures sender { sender.new.queue ≡ sender.old.queue }
    ensures receiver { receiver.new.queue ≡ receiver.old.queue }
{
    pushed(rt, relay, sender, all) == 32
        && pushed(rt, relay, sender, rest) == 4
        && is_full(rt, relay, sender, &[event_of(0, 36)])
        && is_popped(rt, relay, receiver, first)
        && is_popped(rt, relay, receiver, rest)
        && is_nothing_popped(rt, relay, receiver)
}

#[test]
fn many_events_go_as_two_parcels(rt: HostRuntime) -> Result<(), Fail> {
    let (relay, mut sender, mut receiver) = one(rt.alloc(), 2)?;
    assert!(rt; relay.pack(&rt, &[]).is_none());
    let all = events_from(rt.alloc(), 0, 36)?;
    let first = events_from(rt.alloc(), 0, 32)?;
    let rest = events_from(rt.alloc(), 32, 36)?;
    assert!(rt; go_as_two_parcels(&rt, &relay, &mut sender, &mut receiver, &all, &first, &rest));
    assert!(rt; relay.settle(&rt, &mut receiver, sender) == 36);
    Ok(())
}

/// Whether the parcels of two senders come whole, in the order in which they went.
fn come_whole<R: Wait>(
    rt: &R,
    relay: &Relay,
    first: &mut Sender,
    second: &mut Sender,
    receiver: &mut Receiver,
) -> bool
    requires first { (first.old.queue ≡ relay.now.queue) × (first.old.caller ≡ 0)
        × (first.old.sent ≡ []) }
    requires second { (second.old.queue ≡ relay.now.queue) × (second.old.caller ≡ 1)
        × (second.old.sent ≡ []) }
    requires receiver { receiver.old.queue ≡ relay.now.queue }
{
    pushed(
        rt,
        relay,
        first,
        &[event_of(0, 0), event_of(0, 3), event_of(0, 4)],
    ) == 3
        && pushed(rt, relay, second, &[event_of(1, 1), event_of(1, 2)]) == 2
        && pushed(rt, relay, first, &[event_of(0, 5), event_of(0, 6)]) == 2
        && is_full(rt, relay, second, &[event_of(1, 7), event_of(1, 8)])
        && is_popped(
            rt,
            relay,
            receiver,
            &[event_of(0, 0), event_of(0, 3), event_of(0, 4)],
        )
        && is_popped(rt, relay, receiver, &[event_of(1, 1), event_of(1, 2)])
        && is_popped(rt, relay, receiver, &[event_of(0, 5), event_of(0, 6)])
        && is_nothing_popped(rt, relay, receiver)
}

#[test]
fn parcels_of_two_senders_come_whole(rt: HostRuntime) -> Result<(), Fail> {
    let (relay, mut first, mut second, mut receiver) = two(rt.alloc(), 3)?;
    assert!(rt; come_whole(&rt, &relay, &mut first, &mut second, &mut receiver));
    Ok(())
}

/// Whether that many events, each alone, go through the relay one after another.
fn go_one_by_one<R: Wait>(
    rt: &R,
    relay: &Relay,
    sender: &mut Sender,
    receiver: &mut Receiver,
    count: u64,
) -> bool
    requires sender { (sender.old.queue ≡ relay.now.queue) × (sender.old.caller ≡ 0)
        × (sender.old.sent ≡ []) }
    requires receiver { receiver.old.queue ≡ relay.now.queue }
    requires few { count < 2 ^ 32 }
{
    let mut right = true;
    for number in 0..count {
        right = goes_through(rt, relay, sender, receiver, number) && right;
    }
    right
}

/// Whether an event alone goes through an empty relay of one place, and finds it full if it is sent
/// once more meanwhile.
fn goes_through<R: Wait>(
    rt: &R,
    relay: &Relay,
    sender: &mut Sender,
    receiver: &mut Receiver,
    number: u64,
) -> bool
    requires sender { (sender.old.queue ≡ relay.now.queue) × (sender.old.caller ≡ 0) }
    requires receiver { receiver.old.queue ≡ relay.now.queue }
    requires few { length sender.old.sent + 64 < 2 ^ 62 }
    ensures sender { (sender.new.queue ≡ sender.old.queue)
        × (sender.new.caller ≡ sender.old.caller) }
    ensures few { length sender.new.sent ≤ length sender.old.sent + 33 }
    ensures receiver { receiver.new.queue ≡ receiver.old.queue }
{
    is_pushed(rt, relay, sender, 0, number)
        && is_full(rt, relay, sender, &[event_of(0, number)])
        && is_popped(rt, relay, receiver, &[event_of(0, number)])
}

/// What no clause can say: rooms come back, of parcels that were popped and of those that found the
/// relay full. A relay of one place and one sender has three.
#[test]
fn rooms_come_back(rt: HostRuntime) -> Result<(), Fail> {
    let (relay, mut sender, mut receiver) = one(rt.alloc(), 1)?;
    assert!(rt; go_one_by_one(&rt, &relay, &mut sender, &mut receiver, 20));
    Ok(())
}

/// Whether a relay of one place and one sender packs three parcels, no fourth one, and another one
/// when the room of one of them was given back.
fn has_three_rooms<R: Wait>(rt: &R, relay: &Relay) -> bool {
    let first = relay.pack(rt, &[event(1)]);
    let second = relay.pack(rt, &[event(2)]);
    let third = relay.pack(rt, &[event(3)]);
    relay.pack(rt, &[event(4)]).is_none()
        && is_packed(rt, relay, second, &[event(2)])
        && is_packed(rt, relay, relay.pack(rt, &[event(5)]), &[event(5)])
        && is_packed(rt, relay, first, &[event(1)])
        && is_packed(rt, relay, third, &[event(3)])
}

/// Whether there is a parcel, of just these events. Its room is given back.
fn is_packed<R: Wait>(rt: &R, relay: &Relay, parcel: Option<Parcel>, wanted: &[Stamped]) -> bool {
    match parcel {
        Some(parcel) => holds(rt, relay, parcel, wanted),
        None => false,
    }
}

/// What no clause can say: a parcel is packed if a room is free, and none if not.
#[test]
fn no_parcel_without_a_free_room(rt: HostRuntime) -> Result<(), Fail> {
    let (relay, _, _) = one(rt.alloc(), 1)?;
    assert!(rt; has_three_rooms(&rt, &relay));
    Ok(())
}

/// Sends that many events, each alone, waiting for room.
fn send_all<R: Wait>(rt: &R, relay: &Relay, sender: Sender, count: u64) -> Sender
    requires sender { (sender.queue ≡ relay.now.queue) × (sender.caller ≡ 0) × (sender.sent ≡ []) }
    requires few { count < 2 ^ 32 }
    ensures { result.queue ≡ relay.now.queue }
{
    let mut sender = sender;
    for number in 0..count {
        send(rt, relay, &mut sender, number);
    }
    sender
}

/// Sends one event alone, waiting for room.
fn send<R: Wait>(rt: &R, relay: &Relay, sender: &mut Sender, number: u64)
    requires sender { (sender.old.queue ≡ relay.now.queue) × (sender.old.caller ≡ 0) }
    requires few { length sender.old.sent < 2 ^ 62 }
    ensures same { (sender.new.queue ≡ sender.old.queue) × (sender.new.caller ≡ sender.old.caller) }
    ensures one { length sender.new.sent ≡ length sender.old.sent + 1 }
{
    for _ in rt.forever() {
        if is_pushed(rt, relay, sender, 0, number) {
            return;
        }
        thread::yield_now();
    }
    unreachable!()
}

/// Receives that many parcels, and answers whether they held one event each, of the numbers 0, 1, 2
/// and so on.
fn receive_all<R: Wait>(rt: &R, relay: &Relay, receiver: Receiver, count: u64) -> bool
    requires { receiver.queue ≡ relay.now.queue }
{
    let mut receiver = receiver;
    let mut right = true;
    for number in 0..count {
        let parcel = receive(rt, relay, &mut receiver);
        right = holds(rt, relay, parcel, &[event(number)]) && right;
    }
    right
}

/// Receives one parcel, waiting for it.
fn receive<R: Wait>(rt: &R, relay: &Relay, receiver: &mut Receiver) -> Parcel
    requires { receiver.old.queue ≡ relay.now.queue }
    ensures { receiver.new.queue ≡ receiver.old.queue }
{
    for _ in rt.forever() {
        if let Some(parcel) = relay.pop(rt, receiver) {
            return parcel;
        }
        thread::yield_now();
    }
    unreachable!()
}

fn send_and_receive<R: Threads + Wait + Sync>(
    rt: &R,
    relay: &Relay,
    sender: Sender,
    receiver: Receiver,
) -> bool
    requires sender { (sender.queue ≡ relay.now.queue) × (sender.caller ≡ 0) × (sender.sent ≡ []) }
    requires receiver { receiver.queue ≡ relay.now.queue }
{
    join(
        rt,
        || send_all(rt, relay, sender, 100_000),
        || receive_all(rt, relay, receiver, 100_000),
    )
    .1
}

#[test]
fn two_threads_keep_the_order(rt: HostRuntime) -> Result<(), Fail> {
    let (relay, sender, receiver) = one(rt.alloc(), 64)?;
    assert!(rt; send_and_receive(&rt, &relay, sender, receiver));
    Ok(())
}
