// An executive as a list of posts.
ghost use Rattle.std.specs.Prelude.{◌≡◌, ◌++◌, ◌∷◌, [], ◌<◌, ◌^◌, length, refl, IfOk, IfErr, IsTrue, IsFalse};
ghost use Rattle.px_event.specs.Fit.{is_fit_entry};
ghost use Rattle.px_exec.specs.Answers.{entry_of};
ghost use Rattle.px_sem.specs.Asking.{IsMetBehind, IsUnmetBehind};
ghost use Rattle.px_desk.specs.Listing.{listing, start_of, history_on, is_listed, IsLegalList, Answers};

use crate::event_desk::OpenRefused;
use crate::listing::Listing;
use px_event::{Cond, Event};
use px_exec::{Exec, PostFault, Receipt};
use px_ports::Disk;
use px_sem::Stepper;
use px_turn::Listed;
use std::alloc::{AllocFailed, Global};
use std::marker::Model;

/// An executive as a list: the posts that were answered, and behind them the one whose append failed, where one did.
/// Contracts see it as the executive.
///
/// It is boxed: who enters or leaves the turn moves a pointer, where an executive has some kilobytes.
#[derive(Drop)]
pub struct Kept<S: Stepper, D: Disk> {
    exec: Box<Exec<S, D>>,
}

impl<S: Stepper, D: Disk> Model for Kept<S, D> {
    ghost use Rattle.px_exec.specs.Executive.{Executive};

    ghost Value = { Executive S D };

    ghost view = { λ k. k.exec.value };
}

impl<S: Stepper, D: Disk> Listed for Kept<S, D> {
    type Item = Listing;

    ghost list = { listing };

    ghost goes_on = { λ opened kept. kept.opening ≡ opened.opening };

    fn entries(&self) -> u64 {
        self.exec.keeps();
        let answered = self.exec.log().len() as u64;
        match self.exec.failed() {
            None => answered,
            Some(_) => answered + 1,
        }
    }

    ghost stays = { λ kept. refl };
}

// Whether a post that was answered so is in the list.
pub(crate) fn is_listed(answer: Result<Receipt, PostFault>) -> bool
    ensures { result ≡ is_listed answer }
{
    match answer {
        Ok(_) => true,
        // Refused over the history, and answered so.
        Err(PostFault::PlanFinished | PostFault::Runaway) => true,
        Err(PostFault::Full { .. }) => true,
        Err(PostFault::DiskFault) => true,
        Err(PostFault::Closed { .. } | PostFault::NoMemory) => false,
    }
}

impl<S: Stepper, D: Disk> Kept<S, D> {
    pub(crate) fn new(alloc: Global, exec: Exec<S, D>) -> Result<Kept<S, D>, OpenRefused<S, D>>
        ensures ok { IfOk result (λ kept. kept ≡ exec) }
        ensures err { IfErr result (λ refused. refused.exec ≡ exec) }
    {
        match Box::new(alloc, exec) {
            Ok(exec) => Ok(Kept { exec }),
            Err(AllocFailed { value }) => Err(OpenRefused { exec: value }),
        }
    }

    pub(crate) fn into_exec(self) -> Exec<S, D>
        ensures { result ≡ self }
    {
        Box::into_inner(self.exec)
    }

    /// What its list is.
    pub(crate) fn keeps(&self)
        ensures legal { IsLegalList (start_of S.Stepper self.now.opening) (listing self.now) }
        ensures few { length (listing self.now) < 2 ^ 63 }
    {
        self.exec.keeps();
    }

    /// Posts an event for a line of a thread, from 1 to 8.
    pub(crate) fn post(
        &mut self,
        alloc: Global,
        thread: u8,
        line: u32,
        event: &Event,
    ) -> Result<Receipt, PostFault>
        requires fit { IsTrue (is_fit_entry (entry_of thread line event.now)) }
        ensures answers { Answers (start_of S.Stepper self.new.opening)
            (λ item. listing self.new ≡ listing self.old ++ item ∷ []) (listing self.new ≡ listing self.old)
            (listing self.new) (entry_of thread line event.now) result }
        ensures opening { self.new.opening ≡ self.old.opening }
    {
        let answer = self.exec.post(alloc, thread, line, event);
        self.exec.keeps();
        answer
    }

    /// Whether a condition holds behind the history.
    pub(crate) fn holds(&self, cond: &Cond) -> bool
        ensures met { IsTrue result → IsMetBehind (start_of S.Stepper self.now.opening).plan
            (history_on (start_of S.Stepper self.now.opening) (listing self.now)) cond.now }
        ensures unmet { IsFalse result → IsUnmetBehind (start_of S.Stepper self.now.opening).plan
            (history_on (start_of S.Stepper self.now.opening) (listing self.now)) cond.now }
    {
        let exec = self.exec.as_ref();
        exec.keeps();
        exec.holds(cond)
    }
}
