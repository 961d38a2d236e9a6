//! How messages travel over streams (TCP) by memberlist's rules: a call opens a stream, and what is lost is sent
//! again.
ghost use Rattle.std.specs.Prelude.{◌≡◌, ℕ, ◌+◌, ◌^◌, ◌<◌, ◌≤◌, Some, IfSome};
ghost use Rattle.streams.specs.Draw.{Words, words_of};
ghost use Rattle.scenario.specs.Setup.{Setup, member_count, link_between};
ghost use Rattle.links.specs.Arrival.{AreLinksOf};
ghost use Rattle.links.specs.Dials.{dial_of};
ghost use Rattle.links.specs.Trips.{try_of, trip_of, call_of, answer_of, kept_arrival_of, comes_of};

use crate::table::Links;
use base::{MemberId, Moment};
use streams::Stream;

/// What streams do, which send again what was lost (memberlist's rules).
impl Links {
    /// When one try of a trip that no process handles is there, or None where it is lost. Where the
    /// link is cut nothing is drawn; else a loss is drawn first, and then the jitter.
    pub fn try_once(
        &self,
        from: MemberId,
        to: MemberId,
        now: Moment,
        stream: &mut Stream,
    ) -> Option<Moment>
        requires { now ≤ 2 ^ 42 }
        ensures drawn { (s : Setup) → AreLinksOf self.now s → from < member_count s → to < member_count s
            → (result, words_of stream.new) ≡ try_of s from to now (words_of stream.old) }
        ensures later { (s : Setup) → AreLinksOf self.now s → from < member_count s → to < member_count s
            → IfSome result (λ there. now + (link_between s from to).delay ≤ there) }
        ensures soon { IfSome result (λ there. there ≤ now + 2 ^ 21) }
    {
        if self.is_cut(from.index(), to.index(), now.ticks()) {
            return None;
        }
        let link = self.link_between(from.index(), to.index());
        if stream.lost(link.loss as u32) {
            return None;
        }
        let jitter = stream.below(link.jitter as u32 + 1);
        Some(Moment(now.ticks() + link.delay + u64::from(jitter)))
    }

    /// When a trip that no process handles is there. Where it is lost it is sent again after `wait`
    /// ticks, and then each time after twice as long a wait; None where it is lost eight times.
    #[tactic(auto, unfolding(crate::specs::Trips::trip_of))]
    pub fn trip(
        &self,
        from: MemberId,
        to: MemberId,
        now: Moment,
        wait: u64,
        stream: &mut Stream,
    ) -> Option<Moment>
        requires early { now ≤ 2 ^ 41 }
        requires short { wait ≤ 2 ^ 24 }
        ensures drawn { (s : Setup) → AreLinksOf self.now s → from < member_count s → to < member_count s
            → (result, words_of stream.new) ≡ trip_of s from to now wait (words_of stream.old) }
        ensures later { (s : Setup) → AreLinksOf self.now s → from < member_count s → to < member_count s
            → IfSome result (λ there. now + (link_between s from to).delay ≤ there) }
        ensures soon { IfSome result (λ there. there ≤ now + 2 ^ 32) }
    {
        let mut waited = 0;
        let mut left = 8u64;
        while left > 0 {
            let sent = Moment(now.ticks() + waited);
            if let Some(there) = self.try_once(from, to, sent, stream) {
                return Some(there);
            }
            waited = 2 * waited + wait;
            left -= 1;
        }
        None
    }

    /// When a call comes to its receiver: after a trip to it and one back, and a third one. None where
    /// one of them is lost. What processes are slow by is added.
    #[tactic(auto, unfolding(crate::specs::Trips::call_of))]
    pub fn call(
        &self,
        from: MemberId,
        to: MemberId,
        now: Moment,
        stream: &mut Stream,
    ) -> Option<Moment>
        requires { now ≤ 2 ^ 40 }
        ensures drawn { (s : Setup) → AreLinksOf self.now s → from < member_count s → to < member_count s
            → (result, words_of stream.new) ≡ call_of s from to now (words_of stream.old) }
        ensures later { (s : Setup) → AreLinksOf self.now s → from < member_count s → to < member_count s
            → IfSome result (λ at. now + (link_between s from to).delay ≤ at) }
        ensures soon { IfSome result (λ at. at < 2 ^ 42) }
    {
        let begun = self.trip(from, to, now, self.connect, stream)?;
        let answered = self.trip(to, from, begun, self.connect, stream)?;
        let sent = self.trip(from, to, answered, self.again, stream)?;
        Some(self.comes(from, to, now, sent))
    }

    /// When a connection is there that a member opens: after a trip to the other end and one back. None where one of
    /// them is lost, or it would be there more than `limit` ticks from now.
    #[tactic(auto, unfolding(crate::specs::Dials::dial_of))]
    pub fn dial(
        &self,
        from: MemberId,
        to: MemberId,
        now: Moment,
        limit: u64,
        stream: &mut Stream,
    ) -> Option<Moment>
        requires early { now ≤ 2 ^ 40 }
        requires short { limit ≤ 2 ^ 24 }
        ensures drawn { (s : Setup) → AreLinksOf self.now s → from < member_count s → to < member_count s
            → (result, words_of stream.new) ≡ dial_of s from to now limit (words_of stream.old) }
        ensures soon { IfSome result (λ at. at ≤ now + limit) }
    {
        let begun = self.trip(from, to, now, self.connect, stream)?;
        let there = self.trip(to, from, begun, self.connect, stream)?;
        if there.ticks() > now.ticks() + limit {
            return None;
        }
        Some(there)
    }

    /// When the answer to a call comes to its receiver, over the stream that is open; None where it is
    /// lost each time.
    #[tactic(auto, unfolding(crate::specs::Trips::answer_of))]
    pub fn answer(
        &self,
        from: MemberId,
        to: MemberId,
        now: Moment,
        stream: &mut Stream,
    ) -> Option<Moment>
        requires { now ≤ 2 ^ 40 }
        ensures drawn { (s : Setup) → AreLinksOf self.now s → from < member_count s → to < member_count s
            → (result, words_of stream.new) ≡ answer_of s from to now (words_of stream.old) }
        ensures later { (s : Setup) → AreLinksOf self.now s → from < member_count s → to < member_count s
            → IfSome result (λ at. now + (link_between s from to).delay ≤ at) }
        ensures soon { IfSome result (λ at. at < 2 ^ 42) }
    {
        let there = self.trip(from, to, now, self.again, stream)?;
        Some(self.comes(from, to, now, there))
    }

    /// When what a stream carries comes to its receiver where it is sent again as often as it takes: None
    /// only where the link is cut, and then nothing is drawn.
    #[tactic(auto, unfolding(crate::specs::Trips::kept_arrival_of))]
    pub fn kept_arrival(
        &self,
        from: MemberId,
        to: MemberId,
        now: Moment,
        stream: &mut Stream,
    ) -> Option<Moment>
        requires { now ≤ 2 ^ 40 }
        ensures drawn { (s : Setup) → AreLinksOf self.now s → from < member_count s → to < member_count s
            → (result, words_of stream.new) ≡ kept_arrival_of s from to now (words_of stream.old) }
        ensures later { (s : Setup) → AreLinksOf self.now s → from < member_count s → to < member_count s
            → IfSome result (λ at. now + (link_between s from to).delay ≤ at) }
        ensures soon { IfSome result (λ at. at < 2 ^ 42) }
    {
        if self.is_cut(from.index(), to.index(), now.ticks()) {
            return None;
        }
        let link = self.link_between(from.index(), to.index());
        let jitter = stream.below(link.jitter as u32 + 1);
        let there = Moment(now.ticks() + link.delay + u64::from(jitter));
        Some(self.comes(from, to, now, there))
    }

    /// When what was sent and is there comes to its receiver: later by what the sender was slow by when
    /// it sent, and then by what the receiver is slow by.
    pub(crate) fn comes(&self, from: MemberId, to: MemberId, sent: Moment, there: Moment) -> Moment
        requires { there ≤ 2 ^ 41 }
        ensures value { (s : Setup) → AreLinksOf self.now s → (words : Words)
            → (Some result, words) ≡ comes_of s from to sent there words }
        ensures later { there ≤ result }
        ensures soon { result ≤ there + 2 ^ 25 }
    {
        let coming = there.ticks() + self.extra(from, sent.ticks());
        Moment(coming + self.extra(to, coming))
    }
}
