//! What a maker is to make, and what it made.
ghost use Rattle.std.specs.Prelude.{◌≡◌, IfOk};
ghost use Rattle.sc_demo.specs.Making.{TellsMade, accepted_by, has_run_out, split_ran_out, task_at};

use crate::lines::split_text;
use crate::made::Written;
use sc_arguments::Demo;
use sc_record::Text;
use sc_split::SplitEnd;
use std::alloc::{AllocError, Global};

/// What a maker is to make.
#[derive(Clone, Copy)]
pub enum Task {
    /// The orders of the worker of this number.
    Write { worker: u32 },
    /// The split of `shard1`.
    Split,
}

/// What the maker of this number is to make.
pub fn task_of(demo: &Demo, number: u32) -> Task
    ensures { result ≡ task_at demo.now number }
{
    if number < demo.workers {
        Task::Write { worker: number }
    } else {
        Task::Split
    }
}

/// What a maker made.
#[derive(Drop)]
pub enum Made {
    Orders(Written),
    /// The split came to this.
    Split(SplitEnd),
}

impl Made {
    /// How many orders were accepted.
    pub fn accepted(&self) -> u32
        ensures { result ≡ accepted_by self.now }
    {
        match self {
            Made::Orders(written) => written.accepted,
            Made::Split(_) => 0,
        }
    }

    /// Memory ran out.
    pub fn ran_out(&self) -> bool
        ensures { result ≡ has_run_out self.now }
    {
        match self {
            Made::Orders(written) => written.memory,
            Made::Split(end) => split_ran_out(end),
        }
    }

    /// What the line on the split says, where one was made. An error means out of memory, or that none was.
    pub fn split_told(&self, alloc: Global) -> Result<Text, AllocError>
        ensures { IfOk result (TellsMade self.now) }
    {
        match self {
            Made::Orders(_) => Err(AllocError),
            Made::Split(end) => split_text(alloc, end),
        }
    }
}

/// Memory ran out for a split that came to this.
fn split_ran_out(end: &SplitEnd) -> bool
    ensures { result ≡ split_ran_out end.now }
{
    matches!(end, SplitEnd::Memory)
}

/// What came of all makers.
#[derive(Drop)]
pub enum Outcome {
    /// One of the first cores was not started, and no maker has worked.
    HostFailed,
    /// Memory ran out for one of them.
    Memory,
    /// So many orders were accepted, and this tells what the split came to.
    Told { accepted: u32, split: Text },
}
