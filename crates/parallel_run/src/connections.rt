//! The lines of a process: to the others, and to who writes.
ghost use Rattle.std.specs.Prelude.{◌≡◌, ◌⊎◌, ℕ, ◌+◌, ◌≤◌, ◌++◌, Some, map, OnOk, IfOk, IfErr};
ghost use Rattle.std.specs.Bool.{OnTrue};
ghost use Rattle.lookahead_windows.specs.Lots.{HasLasted};
ghost use Rattle.lookahead_windows.specs.Basis.{Basis, IsBasis, plan_of};
ghost use Rattle.parallel_run.specs.Peers.{AreLines};
ghost use Rattle.parallel_run.specs.Messages.{MayEndBy};
ghost use Rattle.parallel_run.specs.Windows.{CanTell, GathersUpTo};

use crate::batch_sender::BatchSender;
use crate::exchange::tell_all;
use crate::of_run::OfRun;
use crate::peers::{Peer, WindowSummary};
use crate::row_batch::Delivery;
use crate::rows::Gathered;
use base::{Fault, Moment};
use lookahead_windows::WindowLists;
use std::sync::Wait;

/// A process's rings to the others, and its end of the relay to who writes.
#[derive(Drop)]
pub struct Connections<'b, K: OfRun> {
    /// The number of its part.
    pub(crate) number: usize,
    pub(crate) peers: Vec<Peer<'b, K>>,
    pub(crate) lots: BatchSender<'b, K>,
}

impl<'b, K: OfRun> Connections<'b, K> {
    /// Sends the others what the window of its part gave, with the least moment after it and how often the worker has
    /// slept. The rows go behind those that wait. Returns what was sent.
    ///
    /// Faults: `Memory`; `ThreadLost` where a message can't be sent.
    pub(crate) fn tell(
        &mut self,
        round: u64,
        slept: u64,
        least: Option<Moment>,
        lists: &mut WindowLists,
        gathered: &mut Gathered,
    ) -> Result<WindowSummary, Fault>
        requires lines { (basis : Basis) → K.basis ≡ Some basis → AreLines basis self.old }
        requires known { (basis : Basis) → K.basis ≡ Some basis → CanTell basis self.old.number round least (map (λ list. list.items) lists.old.out.items) }
        ensures lines { (basis : Basis) → K.basis ≡ Some basis → AreLines basis self.new }
        ensures own { self.new.number ≡ self.old.number }
        ensures told { IfOk result (λ told. (told.from ≡ self.old.number) × (told.round ≡ round) × (told.least ≡ least)) }
        ensures since { gathered.new.since ≡ gathered.old.since }
        ensures more { OnOk result (gathered.new.rows.items ≡ gathered.old.rows.items ++ lists.old.made.rows.items) }
        ensures fault { IfErr result (λ fault. (fault ≡ Fault.Memory) ⊎ (fault ≡ Fault.ThreadLost)) }
    {
        let telling = WindowSummary {
            from: self.number,
            round,
            least,
            rows: lists.made.rows.len() as u64,
            slept,
        };
        tell_all(&mut self.peers, &telling, &mut lists.out)?;
        gathered.add(&mut lists.made.rows)?;
        Ok(telling)
    }

    /// Sends to who writes, before a round, the rows before a moment.
    pub(crate) fn send_lot(
        &mut self,
        rt: &impl Wait,
        gathered: &mut Gathered,
        until: Moment,
        round: u64,
        last: bool,
    ) -> Result<(), Fault>
        requires run { (basis : Basis) × (K.basis ≡ Some basis) }
        requires basis { (basis : Basis) → K.basis ≡ Some basis → IsBasis basis }
        requires gathered { (basis : Basis) → K.basis ≡ Some basis → (to : ℕ) × (until ≤ to) × GathersUpTo basis self.old.number to gathered.old }
        requires lasted { OnTrue last ((basis : Basis) → K.basis ≡ Some basis → (until ≡ basis.setup.end + 1) × HasLasted (plan_of basis) self.old.number round) }
        ensures own { self.new.number ≡ self.old.number }
        ensures peers { self.new.peers ≡ self.old.peers }
        ensures gathered { OnOk result ((basis : Basis) (to : ℕ) → K.basis ≡ Some basis → until ≤ to → GathersUpTo basis self.old.number to gathered.old
            → GathersUpTo basis self.old.number to gathered.new) }
        ensures fault { IfErr result (λ fault. (fault ≡ Fault.Memory) ⊎ (fault ≡ Fault.ThreadLost)) }
    {
        let lot = gathered.lot(self.number, until, round, last)?;
        if self.lots.send(rt, Delivery::RowBatch(lot)) {
            return Ok(());
        }
        Err(Fault::ThreadLost)
    }

    /// Reports to the other processes that this one has ended by the fault.
    pub(crate) fn tell_others(&mut self, fault: Fault)
        requires { (basis : Basis) → K.basis ≡ Some basis → MayEndBy basis fault }
    {
        for peer in self.peers.iter_mut() {
            peer.tell_end(fault);
        }
    }

    /// Reports to all, also to who writes, that this process has ended by the fault.
    pub(crate) fn tell_end(&mut self, rt: &impl Wait, fault: Fault)
        requires { (basis : Basis) → K.basis ≡ Some basis → MayEndBy basis fault }
    {
        self.tell_others(fault);
        let _ = self.lots.send(rt, Delivery::Ended(fault));
    }
}
