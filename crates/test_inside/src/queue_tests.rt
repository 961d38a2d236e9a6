//! Both queues of events side by side: the wheel, by which the program runs, and the tree.
ghost use Rattle.std.specs.Prelude.{◌≡◌, ◌<◌, true, ℕ};
ghost use Rattle.std.specs.FinMap.{contains_key};
ghost use Rattle.base.specs.declared.key.Key.{Key};

use base::{Key, Keyed, MemberId, Memory, Moment};
use std::process::Abort;
use std::test::Fail;
use worker_queue::{EventQueue, TreeQueue, WheelQueue};

/// An event that is a key alone.
#[derive(Clone, Copy, Debug)]
struct Note {
    key: Key,
}

impl Keyed for Note {
    ghost key = { λ note. note.key };

    fn key(&self) -> Key {
        self.key
    }
}

/// A queue whose events have rising numbers in the order pushed, so that no key is pushed twice.
#[derive(Drop)]
struct Numbered<Q: EventQueue<Note>> {
    queue: Q,
    next: u64,
    ghost numbered: { (q : Key) → contains_key (Q.set queue) q ≡ true → q.number < next },
}

impl<Q: EventQueue<Note>> Numbered<Q> {
    /// Pushes an event with the next number: 1 for the first. `Memory` where it is refused.
    fn push(&mut self, at: u64, to: u16, from: u16) -> Result<(), Memory> {
        let number = self.next;
        let Some(next) = number.checked_add(1) else {
            return Err(Memory);
        };
        let key = Key {
            at: Moment(at),
            to: MemberId(to),
            from: MemberId(from),
            number,
        };
        match self.queue.push(Note { key }) {
            Ok(()) => {}
            Err(_) => return Err(Memory),
        }
        self.next = next;
        Ok(())
    }

    /// Pops, and answers the number of what came out.
    fn pop_below(&mut self, bound: u64) -> Option<u64> {
        match self.queue.pop_below(Moment(bound)) {
            Some(note) => Some(note.key.number),
            None => None,
        }
    }

    /// The moment of the least event.
    fn least(&self) -> Option<u64> {
        match self.queue.least() {
            Some(key) => Some(key.at.ticks()),
            None => None,
        }
    }
}

fn tree(rt: &HostRuntime) -> Numbered<TreeQueue<Note>> {
    Numbered {
        queue: TreeQueue::new(rt.alloc()),
        next: 1,
    }
}

fn wheel(rt: &HostRuntime) -> Result<Numbered<WheelQueue<Note>>, Memory> {
    let queue = WheelQueue::new(rt.alloc())?;
    Ok(Numbered { queue, next: 1 })
}

/// Numbers that seem drawn by chance: the high bits of a linear congruence.
#[derive(Clone, Copy)]
struct Draws(u64);

impl Draws {
    /// A number below `many`.
    fn below(&mut self, many: u64) -> u64
        requires { 0 < many }
        ensures { result < many }
    {
        self.0 = self
            .0
            .wrapping_mul(6_364_136_223_846_793_005)
            .wrapping_add(1_442_695_040_888_963_407);
        (self.0 >> 33) % many
    }
}

/// Pushes to both queues, or pops from both, and compares what they answer.
fn do_alike(
    rt: &impl Abort,
    one: &mut Numbered<TreeQueue<Note>>,
    other: &mut Numbered<WheelQueue<Note>>,
    draws: &mut Draws,
    now: &mut u64,
) -> Result<(), Fail> {
    let (kind, member) = (draws.below(16), draws.below(5) as u16);
    let at = match kind {
        0 => draws.below(3000),
        1 => now.saturating_add(draws.below(3000)),
        2..=6 => now.saturating_add(draws.below(40)),
        _ => {
            let bound = now.saturating_add(draws.below(60));
            let popped = one.pop_below(bound);
            assert!(rt; other.pop_below(bound) == popped);
            if popped.is_none() {
                *now = bound;
            }
            return Ok(());
        }
    };
    one.push(at, member, 0)?;
    other.push(at, member, 0)?;
    Ok(())
}

#[test]
fn both_queues_answer_alike(rt: HostRuntime) -> Result<(), Fail> {
    let (mut one, mut other, mut now) = (tree(&rt), wheel(&rt)?, 0);
    let mut draws = Draws(1);
    for _ in 0..10_000 {
        do_alike(&rt, &mut one, &mut other, &mut draws, &mut now)?;
        assert!(rt; other.least() == one.least());
        assert!(rt; other.queue.len() == one.queue.len());
    }
    assert!(rt; now > 5000);
    Ok(())
}
