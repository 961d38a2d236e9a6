//! How many bytes memberlist's messages take, and the room for updates in its packets.
ghost use Rattle.std.specs.Prelude.{◌≡◌, ◌<◌, ◌^◌};
ghost use Rattle.broadcast_queue.specs.Lengths.{carrier_bytes, message_bytes, number_bytes, room_in, text_bytes};

use incarnation::Claim;

/// A message on which updates ride, with the lengths of the names in it, in bytes.
#[derive(Clone, Copy, Debug, PartialEq, Eq)]
pub enum Carrier {
    /// A packet of gossip.
    Gossip,
    /// A ping, with the names of its receiver and its sender.
    Ping(u32, u32),
    /// A ping-req, with the names of its target and its sender.
    PingReq(u32, u32),
    /// An ack.
    Ack,
    /// Serf's ack to a ping, with which a coordinate goes along.
    AckWithCoordinate,
}

/// The bytes of the message that makes a claim with its incarnation number, by the lengths of the
/// names of its subject and its accuser and of the subject's tags.
pub fn message_length(claim: Claim, inc: u64, subject: u32, accuser: u32, tags: u32) -> u64
    ensures { result ≡ message_bytes claim inc subject accuser tags }
{
    match claim {
        Claim::Alive => 53 + number_length(inc) + text_length(subject) + text_length(tags),
        _ => 24 + number_length(inc) + text_length(subject) + text_length(accuser),
    }
}

/// The bytes that a packet of so many has for updates, with this message in it.
pub fn room_for(packet: u64, carrier: Carrier) -> u64
    ensures { result ≡ room_in packet carrier }
{
    packet.saturating_sub(2 + carrier_length(carrier))
}

// The bytes of a number.
fn number_length(number: u64) -> u64
    ensures is { result ≡ number_bytes number }
    ensures short { result < 10 }
{
    if number < 128 {
        1
    } else if number < 256 {
        2
    } else if number < 65536 {
        3
    } else if number < 1 << 32 {
        5
    } else {
        9
    }
}

/// The bytes of a text of so many, with its length.
pub fn text_length(length: u32) -> u64
    ensures is { result ≡ text_bytes length }
    ensures short { result < 2 ^ 33 }
{
    let length = u64::from(length);
    if length < 32 { length + 1 } else { length + 3 }
}

// The bytes of a message before updates ride on it.
fn carrier_length(carrier: Carrier) -> u64
    ensures is { result ≡ carrier_bytes carrier }
    ensures short { result < 2 ^ 35 }
{
    match carrier {
        Carrier::Gossip => 0,
        Carrier::Ping(receiver, sender) => 59 + text_length(receiver) + text_length(sender),
        Carrier::PingReq(target, sender) => 85 + text_length(target) + text_length(sender),
        Carrier::Ack => 22,
        Carrier::AckWithCoordinate => 154,
    }
}
