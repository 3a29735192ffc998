use sc_board::Cut;
use sc_record::Text;
use std::alloc::Global;

/// What is asked of the collection.
#[derive(Drop)]
pub enum Admin {
    /// To split the shard of this name, by this cut.
    Split { shard: Text, cut: Cut },
    /// To show the shards.
    Status,
    /// To delete the shard of this name.
    Delete { shard: Text },
}

/// Why a request asks for nothing that may be asked.
#[derive(Drop)]
pub enum AdminFault {
    /// The first parameter that has no such value, by its name.
    BadParam(Text),
    /// Memory ran out.
    Memory,
}

/// What a parameter `action` names.
#[derive(Clone, Copy)]
pub(crate) enum Action {
    Split,
    Status,
    Delete,
}

impl AdminFault {
    ghost use Rattle.sc_admin.specs.Commands.{IsNamed};

    /// The parameter of this name is at fault.
    pub(crate) fn of(alloc: Global, name: &str) -> AdminFault
        ensures { IsNamed name.now result }
    {
        match Text::new(alloc, name) {
            Ok(name) => AdminFault::BadParam(name),
            Err(_) => AdminFault::Memory,
        }
    }
}
