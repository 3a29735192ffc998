//! Which worker has the orders on a document.
ghost use Rattle.sc_workload.specs.Laws.{LieWithOneWorker};

/// All orders on a document are one worker's, in their order, and no other worker has one of them.
pub fn orders_lie_with_one_worker()
    ensures { LieWithOneWorker }
{}
