//! Worked cases of the queue, by hand from memberlist's rules.
use crate::{BroadcastQueue, Carrier, message_length, room_for};
use base::MemberId;
use incarnation::{Claim, Update};

// A claim of its own accuser about a member.
fn claim(subject: u16, claim: Claim) -> Update {
    Update {
        subject: MemberId(subject),
        claim,
        inc: 0,
        accuser: MemberId(subject),
    }
}

// The first update is sent, and the queue is empty in the midst of that, so the second update gets
// the same id. Both are sent once then, and have one key.
#[test]
fn an_id_that_comes_twice_loses_an_item(rt: HostRuntime) {
    let mut queue = BroadcastQueue::new(rt.alloc());
    queue.put(claim(3, Claim::Alive), 59).expect(&rt, "memory");
    queue.pick(1, 2).expect(&rt, "memory");
    if queue.has_id() {
        queue.put(claim(4, Claim::Alive), 59).expect(&rt, "memory");
    }
    queue.pick(1, 2).expect(&rt, "memory");
    assert!(rt; queue.of(MemberId(3)).is_none());
    assert!(rt; queue.of(MemberId(4)).is_some());
    queue.pick(1, 2).expect(&rt, "memory");
    assert!(rt; queue.is_empty());
}

// 198 bytes: the newer long message takes 163, the older one doesn't fit into the rest, but the
// short one does.
#[test]
fn a_short_message_fits_where_a_long_one_does_not(rt: HostRuntime) {
    let mut queue = BroadcastQueue::new(rt.alloc());
    queue
        .put(claim(2, Claim::Suspect), 33)
        .expect(&rt, "memory");
    if queue.has_id() {
        queue.put(claim(3, Claim::Alive), 161).expect(&rt, "memory");
    }
    if queue.has_id() {
        queue.put(claim(4, Claim::Alive), 161).expect(&rt, "memory");
    }
    let packed = queue
        .pick_by_bytes(room_for(200, Carrier::Gossip), 2)
        .expect(&rt, "memory");
    assert!(rt; packed.updates.len() == 2);
    assert!(rt; packed.updates[0].subject.0 == 4);
    assert!(rt; packed.updates[1].subject.0 == 2);
    assert!(rt; packed.room == 0);
    let next = queue.pick_by_bytes(197, 2).expect(&rt, "memory");
    assert!(rt; next.updates.len() == 1);
    assert!(rt; next.updates[0].subject.0 == 3);
}

#[test]
fn lengths_of_messages(rt: HostRuntime) {
    let rows = [
        (3, 0, 59),
        (3, 31, 90),
        (3, 32, 93),
        (32, 0, 90),
        (32, 31, 121),
        (32, 32, 124),
    ];
    for (name, tags, wanted) in rows {
        assert!(rt; message_length(Claim::Alive, 0, name, 3, tags) == wanted);
    }
    assert!(rt; message_length(Claim::Suspect, 0, 3, 3, 100) == 33);
    assert!(rt; message_length(Claim::Confirm, 128, 3, 32, 0) == 65);
    assert!(rt; room_for(1400, Carrier::Ping(3, 32)) == 1300);
    assert!(rt; room_for(100, Carrier::AckWithCoordinate) == 0);
}
