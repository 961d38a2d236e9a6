//! A thread sleeps until another one notifies it, and no notification is missed between its last look and its sleep.
use crossbeam_utils::CachePadded;
use std::sync::Wait;
use std::sync::atomic::{AtomicU64, AtomicUsize, Ordering};

/// Counts the notifications of a thread, and wakes it: another thread notifies it whenever something came for it.
#[derive(Drop)]
pub(crate) struct EventCount {
    // apart from those of other threads, since each is written all the time
    wakes: CachePadded<Wakes>,
}

#[derive(Drop)]
struct Wakes {
    notifications: AtomicU64,
    // 1 while its thread sleeps, or is about to
    asleep: AtomicUsize,
}

impl EventCount {
    /// Nothing came yet.
    pub(crate) const fn new() -> Self {
        EventCount {
            wakes: CachePadded::new(Wakes {
                notifications: AtomicU64::new(0),
                asleep: AtomicUsize::new(0),
            }),
        }
    }

    /// Something came: the thread is woken if it sleeps, or is about to.
    pub(crate) fn notify(&self) {
        if self.wakes.asleep.load(Ordering::SeqCst) > 0 {
            self.wakes.notifications.fetch_add(1, Ordering::SeqCst);
            self.wakes.notifications.wake_all();
        }
    }

    /// The thread is about to sleep, and looks once more for what came: how often it was notified. What comes from now on
    /// notifies it. It ends by `wait` or `cancel_wait`, or the thread itself ends, after a fault.
    pub(crate) fn prepare_wait(&self) -> u64 {
        self.wakes.asleep.fetch_add(1, Ordering::SeqCst);
        self.wakes.notifications.load(Ordering::SeqCst)
    }

    /// The thread found something, and doesn't sleep.
    pub(crate) fn cancel_wait(&self) {
        self.wakes.asleep.fetch_sub(1, Ordering::SeqCst);
    }

    /// Sleeps until the thread is notified again after so many times. It may also wake for no reason.
    pub(crate) fn wait(&self, rt: &impl Wait, seen: u64) {
        self.wakes
            .notifications
            .park(rt, (seen & 0xffff_ffff) as u32);
        self.cancel_wait();
    }
}
