//! Lays rows as lines of CSV at the end of a room of bytes, from the last row to the first, each from its last field.
ghost use Rattle.std.specs.Prelude.{◌≡◌, ◌+◌, ◌-◌, ◌*◌, ◌++◌, ◌∷◌, ◌<◌, ◌≤◌, [], decimal, length, get_or, drop, IfSome, All};
ghost use Rattle.std.specs.List.{join_with_byte};
ghost use Rattle.trace.specs.Text.{line_of, fields_of, rows_text, about_text, word_of, lost_text, NamesMembers};
ghost use Rattle.scenario.specs.Setup.{member_count, name_of};

use crate::row::{Row, What};
use base::MemberId;
use itoa::write_digits;
use scenario::Scenario;

/// Room for any line: three numbers of at most 20 digits, three names, a word, a digit, seven commas and a
/// line feed.
pub(crate) const ROOM: usize = 369;

/// Lays the lines of rows at the end of the room, from the last to the first, and answers where they start.
pub(crate) fn lay_lines(rows: &[Row], scenario: &Scenario, room: &mut [u8]) -> usize
    requires named { All (NamesMembers scenario.now) rows.now }
    requires room { 369 * length rows.now ≤ length room.old }
    ensures start { result ≤ length room.old }
    ensures laid { drop result room.new ≡ rows_text scenario.now rows.now }
{
    let mut start = room.len();
    let mut left = rows.len();
    while left > 0 {
        left -= 1;
        start = lay_line(&rows[left], scenario, room, start);
    }
    start
}

/// Lays a row's line before a place, and answers where it starts.
fn lay_line(row: &Row, scenario: &Scenario, room: &mut [u8], end: usize) -> usize
    requires named { NamesMembers scenario.now row.now }
    requires room { (369 ≤ end) × (end ≤ length room.old) }
    ensures start { (result < end) × (end ≤ result + 369) }
    ensures laid { drop result room.new ≡ line_of scenario.now row.now ++ drop end room.old }
{
    let end = lay_byte(b'\n', room, end);
    lay_fields(row, scenario, room, end)
}

/// Lays a row's fields before a place, from the last to the first, and answers where they start.
fn lay_fields(row: &Row, scenario: &Scenario, room: &mut [u8], end: usize) -> usize
    requires named { NamesMembers scenario.now row.now }
    requires room { (368 ≤ end) × (end ≤ length room.old) }
    ensures start { (result < end) × (end ≤ result + 368) }
    ensures laid { drop result room.new ≡ join_with_byte 44 (fields_of scenario.now row.now) ++ drop end room.old }
{
    let end = lay_byte(lost_digit(row.lost), room, end);
    let end = lay_number(row.value, room, end);
    let end = lay_about(row.about, scenario, room, end);
    let end = lay_word(row.what, room, end);
    let end = lay_number(row.number, room, end);
    let end = lay_name(row.from, scenario, room, end);
    let end = lay_name(row.member, scenario, room, end);
    lay_number(row.at.ticks(), room, end)
}

/// Lays a number in decimal and a comma before a place, and answers where they start.
fn lay_number(number: u64, room: &mut [u8], end: usize) -> usize
    requires { (21 ≤ end) × (end ≤ length room.old) }
    ensures start { (result < end) × (end ≤ result + 21) }
    ensures laid { drop result room.new ≡ decimal number ++ 44 ∷ drop end room.old }
{
    let end = lay_byte(b',', room, end);
    write_digits(number, room, end)
}

/// Lays the name of the member that a row is about, or nothing, and a comma before a place, and answers where they
/// start.
fn lay_about(about: Option<MemberId>, scenario: &Scenario, room: &mut [u8], end: usize) -> usize
    requires named { IfSome about (λ member. member < member_count scenario.now) }
    requires room { (98 ≤ end) × (end ≤ length room.old) }
    ensures start { (result < end) × (end ≤ result + 98) }
    ensures laid { drop result room.new ≡ about_text scenario.now about ++ 44 ∷ drop end room.old }
{
    match about {
        Some(member) => lay_name(member, scenario, room, end),
        None => lay_byte(b',', room, end),
    }
}

/// Lays a member's name and a comma before a place, and answers where they start.
#[inline(always)]
fn lay_name(member: MemberId, scenario: &Scenario, room: &mut [u8], end: usize) -> usize
    requires named { member < member_count scenario.now }
    requires room { (98 ≤ end) × (end ≤ length room.old) }
    ensures start { (result < end) × (end ≤ result + 98) }
    ensures laid { drop result room.new ≡ name_of scenario.now member ++ 44 ∷ drop end room.old }
{
    let end = lay_byte(b',', room, end);
    let label = scenario.label(member);
    let held = usize::from(label[0]);
    if held == 0 {
        lay_long_name(member, scenario, room, end)
    } else {
        lay_label(label, held, room, end)
    }
}

/// Lays the word for what a row reports and a comma before a place, and answers where they start.
#[inline(always)]
fn lay_word(what: What, room: &mut [u8], end: usize) -> usize
    requires { (17 ≤ end) × (end ≤ length room.old) }
    ensures start { (result < end) × (end ≤ result + 10) }
    ensures laid { drop result room.new ≡ word_of what ++ 44 ∷ drop end room.old }
{
    let end = lay_byte(b',', room, end);
    let label = label_of(what);
    lay_label(label, usize::from(label[0]), room, end)
}

/// The word for what a row reports at the end of 16 bytes, the first of which is its length.
fn label_of(what: What) -> &'static [u8; 16]
    ensures length { get_or result.now 0 0 ≡ length (word_of what) }
    ensures short { length (word_of what) ≤ 9 }
    ensures word { drop (16 - length (word_of what)) result.now ≡ word_of what }
{
    match what {
        What::Start => b"\x05----------start",
        What::Crash => b"\x05----------crash",
        What::Joined => b"\x06---------joined",
        What::Join => b"\x04-----------join",
        What::Welcome => b"\x07--------welcome",
        What::Ping => b"\x04-----------ping",
        What::PingReq => b"\x08-------ping-req",
        What::Ack => b"\x03------------ack",
        What::Nack => b"\x04-----------nack",
        What::Fail => b"\x04-----------fail",
        What::Health => b"\x06---------health",
        What::Alive => b"\x05----------alive",
        What::Suspect => b"\x07--------suspect",
        What::Confirm => b"\x07--------confirm",
        What::Accuse => b"\x06---------accuse",
        What::Refute => b"\x06---------refute",
        What::Dead => b"\x04-----------dead",
        What::Leave => b"\x05----------leave",
        What::Bye => b"\x03------------bye",
        What::Gossip => b"\x06---------gossip",
        What::Call => b"\x04-----------call",
        What::Answer => b"\x06---------answer",
        What::Push => b"\x04-----------push",
        What::Pull => b"\x04-----------pull",
        What::Restart => b"\x07--------restart",
        What::Exit => b"\x04-----------exit",
        What::Left => b"\x04-----------left",
        What::Forget => b"\x06---------forget",
        What::Reconnect => b"\x09------reconnect",
    }
}

/// Lays the last bytes of a label, as many as its name has, before a place, and answers where they start. What
/// stands before them may change.
#[inline(always)]
fn lay_label(label: &[u8; 16], held: usize, room: &mut [u8], end: usize) -> usize
    requires label { held ≤ 16 }
    requires room { (16 ≤ end) × (end ≤ length room.old) }
    ensures start { result + held ≡ end }
    ensures laid { drop result room.new ≡ drop (16 - held) label.now ++ drop end room.old }
{
    lay_bytes(label, room, end);
    end - held
}

/// Lays a name that is in no label before a place, and answers where it starts.
fn lay_long_name(member: MemberId, scenario: &Scenario, room: &mut [u8], end: usize) -> usize
    requires named { member < member_count scenario.now }
    requires room { (97 ≤ end) × (end ≤ length room.old) }
    ensures start { (result ≤ end) × (end ≤ result + 97) }
    ensures laid { drop result room.new ≡ name_of scenario.now member ++ drop end room.old }
{
    lay_bytes(member_name(member, scenario).as_bytes(), room, end)
}

/// Lays bytes before a place, and answers where they start.
#[inline(always)]
fn lay_bytes(bytes: &[u8], room: &mut [u8], end: usize) -> usize
    requires { (length bytes.now ≤ end) × (end ≤ length room.old) }
    ensures start { result + length bytes.now ≡ end }
    ensures laid { drop result room.new ≡ bytes.now ++ drop end room.old }
{
    let start = end - bytes.len();
    room[start..end].copy_from_slice(bytes);
    start
}

/// Lays a byte before a place, and answers where it is.
fn lay_byte(byte: u8, room: &mut [u8], end: usize) -> usize
    requires { (0 < end) × (end ≤ length room.old) }
    ensures start { result + 1 ≡ end }
    ensures laid { drop result room.new ≡ byte ∷ drop end room.old }
{
    room[end - 1] = byte;
    end - 1
}

/// A member's name, which is short.
fn member_name(member: MemberId, scenario: &Scenario) -> &str
    requires { member < member_count scenario.now }
    ensures value { result.now ≡ name_of scenario.now member }
    ensures short { length result.now ≤ 97 }
{
    scenario.name(member)
}

/// Whether what was sent was lost, as a digit.
fn lost_digit(lost: bool) -> u8
    ensures { result ∷ [] ≡ lost_text lost }
{
    if lost { b'1' } else { b'0' }
}
