//! The run of a draft.

ghost use Rattle.std.specs.Prelude.{IfErr, IfOk};
ghost use Rattle.std.specs.Thread.{IsSync};
ghost use Rattle.am_cluster.specs.Runs.{IsRunStopped};
ghost use Rattle.am_library.specs.Runs.{IsRun};

use crate::runner::{Finished, RunFault, Runner};
use am_library_drafts::Draft;
use std::alloc::Global;
use std::thread::Threads;

/// What a runner runs: of a draft, the scenario that it makes.
pub trait RunDraft {
    /// Runs the scenario, by a runner. It stops as the runner does.
    fn run<R: Runner, T: Threads + Sync>(
        self,
        runner: &R,
        rt: &T,
        alloc: Global,
    ) -> Result<Finished, RunFault>
        requires shared { IsSync T.row };
}

impl RunDraft for Draft {
    fn run<R: Runner, T: Threads + Sync>(
        self,
        runner: &R,
        rt: &T,
        alloc: Global,
    ) -> Result<Finished, RunFault>
        requires shared { IsSync T.row }
        ensures run { IfOk result (λ finished. IsRun self finished.journal) }
        ensures stopped { IfErr result (IsRunStopped self) }
    {
        let scenario = self.finish();
        runner.run(rt, alloc, &scenario)
    }
}
