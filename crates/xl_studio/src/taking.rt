ghost use Rattle.std.specs.Prelude.{◌≡◌, true, IfOk};
ghost use Rattle.xl_history.specs.History.{version, document};
ghost use Rattle.xl_history.specs.TileJobs.{GivesJob};
ghost use Rattle.xl_studio.specs.Taking.{AnswersJob, HasStayed};

use crate::shared::Shared;
use std::alloc::{AllocError, Global};
use xl_core::{Done, Finished, Job, JobSource, Taken};
use xl_doc::{Document, NodeId, TileAt};
use xl_ports::Shelf;

/// What workers do with what lies under the lock.
pub trait Taking {
    ghost use Rattle.xl_compose.specs.declared.clean.Done.{Done};

    /// The picture may be handed in.
    ghost may_finish: { Self → Done → Type 0 };

    /// Takes a job. It is closing exactly where it was shut, and there is no job exactly where it is not and no slot is
    /// marked. After out of memory the slot counts as taken.
    fn take(&mut self, alloc: Global) -> Result<Taken, AllocError>;

    /// Hands a picture in.
    fn finish(&mut self, done: Done) -> Finished
        requires { may_finish self.old done };

    /// The last version's number.
    fn last_version(&self) -> u32;

    /// The last version's document.
    fn last_document(&self) -> &Document;
}

// The job, as a desk answers it.
fn answer_of(job: Result<Option<Job>, AllocError>) -> Result<Taken, AllocError>
    ensures { AnswersJob job result }
{
    match job {
        Ok(Some(job)) => Ok(Taken::Job(job)),
        Ok(None) => Ok(Taken::Nothing),
        Err(e) => Err(e),
    }
}

impl<D: Shelf> Taking for Shared<D> {
    ghost use Rattle.std.specs.Prelude.{◌≡◌, IfOk, MatchBool};
    ghost use Rattle.spec_cache.specs.Cache.{finish};
    ghost use Rattle.xl_history.specs.History.{version, document};
    ghost use Rattle.xl_history.specs.Editing.{handed_in, taken as with_job_taken, IsPictureOf};
    ghost use Rattle.xl_history.specs.Places.{place_done};
    ghost use Rattle.xl_history.specs.Jobs.{finished_by};
    ghost use Rattle.xl_studio.specs.Taking.{GivesOut, HasStayed};

    ghost may_finish = { λ s done. IsPictureOf s.core.history done };

    fn take(&mut self, alloc: Global) -> Result<Taken, AllocError>
        ensures taken { IfOk result (λ taken. GivesOut self.old taken) }
        ensures after { MatchBool self.old.closing (self.new.core ≡ self.old.core)
            (self.new.core ≡ with_job_taken self.old.core) }
        ensures stays { HasStayed self.old self.new }
        ensures closing { self.new.closing ≡ self.old.closing }
    {
        if self.closing {
            return Ok(Taken::Closing);
        }
        answer_of(self.core.next_job(alloc))
    }

    fn finish(&mut self, done: Done) -> Finished
        requires done { IsPictureOf self.old.core.history done }
        ensures finished { result ≡ finish self.old.core.cache (place_done done) done.version }
        ensures by_history { result ≡ finished_by self.old.core.history.base
            self.old.core.history.entries (place_done done) done.version }
        ensures core { self.new.core ≡ handed_in self.old.core done }
        ensures stays { HasStayed self.old self.new }
        ensures closing { self.new.closing ≡ self.old.closing }
    {
        self.core.install(done)
    }

    fn last_version(&self) -> u32
        ensures { result ≡ version self.now.core.history }
    {
        self.core.last_version()
    }

    fn last_document(&self) -> &Document
        ensures { result.now ≡ document self.now.core.history }
    {
        self.core.last_document()
    }
}

impl<D: Shelf> Shared<D> {
    /// A job for the tile that is named, as the core makes it.
    pub(crate) fn job_for(
        &self,
        alloc: Global,
        node: NodeId,
        at: TileAt,
    ) -> Result<Option<Job>, AllocError>
        ensures job { IfOk result (GivesJob (document self.now.core.history) self.now.core.cache
            (version self.now.core.history) node.0 at) }
        ensures stays { HasStayed self.now self.now }
    {
        self.core.job_for(alloc, node, at)
    }

    /// From now on no job is given out.
    pub fn shut(&mut self)
        ensures shut { self.new.closing ≡ true }
        ensures core { self.new.core ≡ self.old.core }
        ensures stays { HasStayed self.old self.new }
    {
        self.closing = true;
    }
}
