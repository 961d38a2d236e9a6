//! A life: it takes no memory as long as there is nothing to keep, as in versions 1 to 3 of the format.
ghost use Rattle.std.specs.Prelude.{◌≡◌, ◌≤◌, ◌<◌, ◌^◌, true, None, IfOk, OnOk, All, is_some};
ghost use Rattle.lives.specs.Lives.{first_life, kept_state, life_begun, life_of};
ghost use Rattle.std.specs.Box.{box_value};
ghost use Rattle.lives.specs.Regards.{failed_among, gone_now, is_marked, reaped, regarded};

use crate::kept::Kept;
use crate::leaving::Leaving;
use crate::regards::{
    Regard, clear_regard, gone_now, is_marked, list_failed, reap_all, regard_at, set_regard,
};
use base::{MemberId, Memory, Moment};
use broadcast_queue::BroadcastQueue;
use piggyback::Buffer;
use std::alloc::Global;

/// What a member keeps through one life.
#[derive(Drop)]
pub struct Life {
    pub(crate) kept: Option<Box<Kept>>,
}

/// What is kept of a life that begins with this number, of a member that asks somebody, or nobody.
fn kept_of(alloc: Global, birth: u64, contact: Option<MemberId>) -> Result<Box<Kept>, Memory>
    ensures { IfOk result (λ kept. kept_state (box_value kept) ≡ life_begun birth contact) }
{
    let kept = Kept {
        birth,
        contact,
        leaving: Leaving::Stays,
        regards: Vec::new(alloc),
        intents: Buffer::new(alloc)?,
        queue: BroadcastQueue::new(alloc),
    };
    match Box::new(alloc, kept) {
        Ok(kept) => Ok(kept),
        Err(_) => Err(Memory),
    }
}

impl Life {
    /// The first life. It takes no memory.
    pub fn first() -> Self
        ensures { life_of result ≡ first_life }
    {
        Life { kept: None }
    }

    /// A life that begins with this number, of a member that asks somebody, or nobody.
    pub fn begun(alloc: Global, birth: u64, contact: Option<MemberId>) -> Result<Self, Memory>
        ensures { IfOk result (λ life. life_of life ≡ life_begun birth contact) }
    {
        let kept = kept_of(alloc, birth, contact)?;
        Ok(Life { kept: Some(kept) })
    }

    /// Has a place for what is to be kept.
    pub(crate) fn reach(&mut self, alloc: Global) -> Result<(), Memory>
        ensures same { life_of self.new ≡ life_of self.old }
        ensures place { OnOk result (is_some self.new.kept ≡ true) }
    {
        if self.kept.is_none() {
            self.kept = Some(kept_of(alloc, 0, None)?);
        }
        Ok(())
    }

    /// The number from which on the member's timers are of this life.
    pub fn birth(&self) -> u64
        ensures { result ≡ (life_of self.now).birth }
    {
        match &self.kept {
            None => 0,
            Some(kept) => kept.birth,
        }
    }

    /// Whom the member asks for all that is known, until it has heard that.
    pub fn contact(&self) -> Option<MemberId>
        ensures { result ≡ (life_of self.now).contact }
    {
        match &self.kept {
            None => None,
            Some(kept) => kept.contact,
        }
    }

    /// The member asks this one for all that is known, or nobody.
    pub fn ask_for(&mut self, alloc: Global, contact: Option<MemberId>) -> Result<(), Memory>
        ensures { OnOk result (life_of self.new ≡ record (life_of self.old) { contact = contact }) }
    {
        self.reach(alloc)?;
        if let Some(kept) = &mut self.kept {
            kept.contact = contact;
        }
        Ok(())
    }

    /// The member asks nobody any more. It takes no memory.
    pub fn stop_asking(&mut self)
        ensures { life_of self.new ≡ record (life_of self.old) { contact = None } }
    {
        if let Some(kept) = &mut self.kept {
            kept.contact = None;
        }
    }

    /// How far the member's leave is.
    pub fn leaving(&self) -> Leaving
        ensures { result ≡ (life_of self.now).leaving }
    {
        match &self.kept {
            None => Leaving::Stays,
            Some(kept) => kept.leaving,
        }
    }

    /// The member's leave is so far from now on.
    pub fn leave(&mut self, alloc: Global, leaving: Leaving) -> Result<(), Memory>
        ensures { OnOk result (life_of self.new ≡ record (life_of self.old) { leaving = leaving }) }
    {
        self.reach(alloc)?;
        if let Some(kept) = &mut self.kept {
            kept.leaving = leaving;
        }
        Ok(())
    }

    /// How Serf regards a member.
    pub fn regard(&self, member: MemberId) -> Regard
        ensures { result ≡ (life_of self.now).regards member }
    {
        match &self.kept {
            None => Regard::Usual,
            Some(kept) => regard_at(&kept.regards, member),
        }
    }

    /// Whether a member is known to be about to leave.
    pub fn is_marked(&self, member: MemberId) -> bool
        ensures { result ≡ is_marked ((life_of self.now).regards member) }
    {
        is_marked(self.regard(member))
    }

    /// Regards a member so from now on.
    fn set(&mut self, alloc: Global, member: MemberId, regard: Regard) -> Result<(), Memory>
        ensures { OnOk result (life_of self.new ≡ record (life_of self.old) {
          regards = regarded member regard (life_of self.old).regards;
        }) }
    {
        self.reach(alloc)?;
        match &mut self.kept {
            None => Ok(()),
            Some(kept) => set_regard(&mut kept.regards, member, regard),
        }
    }

    /// Marks a member as about to leave. It hasn't failed then.
    pub fn mark(&mut self, alloc: Global, member: MemberId) -> Result<(), Memory>
        ensures { OnOk result (life_of self.new ≡ record (life_of self.old) {
          regards = regarded member Regard.Marked (life_of self.old).regards;
        }) }
    {
        self.set(alloc, member, Regard::Marked)
    }

    /// A member dies or leaves now: it has failed, unless it is about to leave.
    pub fn fail(&mut self, alloc: Global, member: MemberId, now: Moment) -> Result<(), Memory>
        ensures { OnOk result (life_of self.new ≡ record (life_of self.old) {
          regards = regarded member (gone_now now ((life_of self.old).regards member)) (life_of self.old).regards;
        }) }
    {
        let regard = gone_now(now, self.regard(member));
        self.set(alloc, member, regard)
    }

    /// A member is up: it is about to leave no more, and hasn't failed. It takes no memory.
    pub fn mend(&mut self, member: MemberId)
        ensures { life_of self.new ≡ record (life_of self.old) {
          regards = regarded member Regard.Usual (life_of self.old).regards;
        } }
    {
        if let Some(kept) = &mut self.kept {
            clear_regard(&mut kept.regards, member);
        }
    }

    /// Forgets those that failed more than so many ticks ago. It takes no memory.
    pub fn reap(&mut self, now: Moment, ticks: u64)
        ensures { life_of self.new ≡ record (life_of self.old) {
          regards = λ m. reaped now ticks ((life_of self.old).regards m);
        } }
    {
        if let Some(kept) = &mut self.kept {
            reap_all(&mut kept.regards, now, ticks);
        }
    }

    /// Among the first members, so many of them, those that failed, in the order of their numbers.
    pub fn failed(&self, alloc: Global, members: usize) -> Result<Vec<MemberId>, Memory>
        requires { members ≤ 2 ^ 16 }
        ensures failed { IfOk result (λ failed. failed.items ≡ failed_among members (life_of self.now).regards) }
        ensures among { IfOk result (λ failed. All (λ m. m < members) failed.items) }
    {
        match &self.kept {
            None => Ok(Vec::new(alloc)),
            Some(kept) => list_failed(alloc, &kept.regards, members),
        }
    }
}
