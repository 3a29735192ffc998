ghost use Rattle.std.specs.Prelude.{◌≡◌, List, IfOk, Some, None, if◌then◌else◌, codes, is_some};
ghost use Rattle.std.specs.Option.{option_map};
ghost use Rattle.sc_admin.specs.Commands.{asked_admin};
ghost use Rattle.sc_model.specs.declared.message.Param.{Param};
ghost use Rattle.sc_model.specs.Parameters as parameters;
ghost use Rattle.sc_session.specs.Requests as asking;
ghost use Rattle.sc_session.specs.Asking.{asked_by_request, refused_of, IsWithinLimits};
ghost use Rattle.sc_reply.specs.Causes.{refusal_of};

use crate::path::Path;
use crate::select::{Select, SelectFault};
use sc_admin::{Admin, AdminFault, read_admin};
use sc_commands::{Batch, CommandFault, Flags, read_update};
use sc_http::{Incoming, Method, Param, form_params};
use sc_model::{is_set_to, parameter};
use sc_record::{Id, IdFault, List, Text};
use sc_reply::Cause;
use sc_schema::DocFault;
use std::alloc::{AllocError, Global};

/// The most ids that one get asks for.
const MOST_IDS: usize = 4096;

/// Why a request is refused before any journal is looked at.
#[derive(Drop)]
pub(crate) enum Refused {
    /// No such path.
    NotFound,
    /// Neither GET nor POST.
    MethodNotAllowed,
    /// A body with a content coding.
    EncodedBody,
    /// A POST of an update that states no length.
    NoLength,
    /// A parameter of this name that has no such value.
    BadParam(&'static str),
    /// A parameter of a command to the collection, of this name, that has no such value.
    BadCommand(Text),
    /// The body of an update.
    Command(CommandFault),
}

/// What a request asks for, or why it is refused.
#[derive(Drop)]
pub(crate) enum Asked {
    Refused(Refused),
    /// The orders of a batch, and a commit.
    Update(Batch),
    /// A document by its id.
    Get(Id),
    /// Documents by their ids.
    GetIds(List<Id>),
    /// A page of what queries find.
    Select(Select),
    /// A command to the collection itself.
    Command(Admin),
}

impl Refused {
    /// The cause, by which the status and the message of the reply are known.
    pub(crate) fn cause(&self) -> Cause<'_>
        ensures { refusal_of result ≡ refused_of self.now }
    {
        match self {
            Refused::NotFound => Cause::NotFound,
            Refused::MethodNotAllowed => Cause::MethodNotAllowed,
            Refused::EncodedBody => Cause::EncodedBody,
            Refused::NoLength => Cause::NoLength,
            Refused::BadParam(name) => Cause::BadParam { name },
            Refused::BadCommand(name) => Cause::BadParam {
                name: name.as_str(),
            },
            Refused::Command(fault) => command_cause(fault),
        }
    }
}

/// Why the body of an update is refused.
fn command_cause(fault: &CommandFault) -> Cause<'_>
    ensures { refusal_of result ≡ asking.command_refusal fault.now }
{
    match fault {
        CommandFault::BadJson => Cause::BadJson,
        CommandFault::BadShape { at } => Cause::BadShape { at: *at },
        CommandFault::TooMany => Cause::TooMany,
        CommandFault::Doc(fault) => document_cause(fault),
        CommandFault::Memory => Cause::Memory,
    }
}

/// Why a document is refused.
fn document_cause(fault: &DocFault) -> Cause<'_>
    ensures { refusal_of result ≡ asking.document_refusal fault.now }
{
    match fault {
        DocFault::NoId => Cause::NoId,
        DocFault::IdTooLong => Cause::IdTooLong,
        DocFault::UnknownField(name) => Cause::UnknownField {
            name: name.as_str(),
        },
        DocFault::WrongValue(name) => Cause::WrongValue {
            name: name.as_str(),
        },
        DocFault::Memory => Cause::Memory,
    }
}

impl Asked {
    /// What the request asks for, or the first cause to refuse it. The body is read only where nothing else refuses the request. An
    /// error means out of memory.
    pub(crate) fn of(alloc: Global, request: Incoming) -> Result<Asked, AllocError>
        ensures asked { IfOk result (λ answer. asked_by_request answer ≡ asking.asked request) }
        ensures limits { IfOk result IsWithinLimits }
    {
        let Some(path) = Path::of(request.path.as_str()) else {
            return Ok(Asked::Refused(Refused::NotFound));
        };
        if let Some(refused) = refused_at(path, &request) {
            return Ok(Asked::Refused(refused));
        }
        match path {
            Path::Update => asked_update(alloc, &request),
            Path::Get => asked_get(alloc, &all_params(alloc, request)?),
            Path::Select => asked_select(alloc, &all_params(alloc, request)?),
            Path::Collections => asked_of_collection(alloc, &all_params(alloc, request)?),
        }
    }
}

/// The first cause to refuse a request to a path that is served, by its head.
fn refused_at(path: Path, request: &Incoming) -> Option<Refused>
    ensures { option_map refused_of result ≡ asking.refused_at path request.now }
{
    if request.method == Method::Other {
        Some(Refused::MethodNotAllowed)
    } else if request.encoded {
        Some(Refused::EncodedBody)
    } else if is_lengthless_update(path, request) {
        Some(Refused::NoLength)
    } else {
        None
    }
}

/// Whether the request is a POST of an update that states no length of its body.
fn is_lengthless_update(path: Path, request: &Incoming) -> bool
    ensures { result ≡ asking.is_lengthless_update path request.now }
{
    match path {
        Path::Update => request.method == Method::Post && request.lengthless,
        _ => false,
    }
}

/// The parameters of a request: those of its target, and after them the pairs of the form that the body of a POST is. An error means
/// out of memory.
fn all_params(alloc: Global, request: Incoming) -> Result<List<Param>, AllocError>
    ensures { IfOk result (λ params. params ≡ asking.all_params request) }
{
    let Incoming {
        method,
        params,
        body,
        ..
    } = request;
    let mut params = params.into_vec();
    if method == Method::Post {
        let mut pairs = form_params(alloc, body.as_slice())?.into_vec();
        params.append(&mut pairs)?;
    }
    Ok(List::from_vec(params))
}

/// What a request to update asks for (Solr Reference Guide, "Indexing with Update Handlers").
fn asked_update(alloc: Global, request: &Incoming) -> Result<Asked, AllocError>
    ensures asked { IfOk result (λ answer. asked_by_request answer ≡ asking.asked_at Path.Update request.now) }
    ensures limits { IfOk result IsWithinLimits }
{
    let flags = flags_of(request.params.as_slice());
    match read_update(alloc, request.body.as_slice(), &flags) {
        Ok(batch) => Ok(Asked::Update(batch)),
        Err(CommandFault::Memory | CommandFault::Doc(DocFault::Memory)) => Err(AllocError),
        Err(fault) => Ok(Asked::Refused(Refused::Command(fault))),
    }
}

/// What the parameters of an update set.
fn flags_of(params: &[Param]) -> Flags
    ensures { result ≡ asking.flags_of params.now }
{
    Flags {
        commit: is_set_to("true", "commit", params) || is_set_to("true", "softCommit", params),
        versions: is_set_to("true", "versions", params),
        fail_on_conflict: !is_set_to("false", "failOnVersionConflicts", params),
    }
}

/// What the parameters of a get ask for (Solr Reference Guide, "RealTime Get").
fn asked_get(alloc: Global, params: &List<Param>) -> Result<Asked, AllocError>
    ensures asked { IfOk result (λ answer. asked_by_request answer ≡ asking.asked_params params.now) }
    ensures limits { IfOk result IsWithinLimits }
{
    let params = params.as_slice();
    match (parameter("id", params), parameter("ids", params)) {
        (Some(id), ids) => asked_id(alloc, id, ids.is_some()),
        (None, Some(ids)) => asked_list(alloc, ids),
        (None, None) => Ok(Asked::Refused(Refused::BadParam("id"))),
    }
}

/// What a parameter that names an id asks for; a faulty one beside `ids` is told as `ids`.
fn asked_id(alloc: Global, id: &Text, beside_ids: bool) -> Result<Asked, AllocError>
    ensures asked { IfOk result (λ answer. (params : List Param) → is_some (parameters.parameter (codes "ids") params) ≡ beside_ids
        → asked_by_request answer ≡ asking.asked_id id.now params) }
    ensures limits { IfOk result IsWithinLimits }
{
    match id_of(alloc, id.as_str())? {
        Some(id) => Ok(Asked::Get(id)),
        None => {
            let name = if beside_ids { "ids" } else { "id" };
            Ok(Asked::Refused(Refused::BadParam(name)))
        }
    }
}

/// The id that the text is, where it is one.
fn id_of(alloc: Global, text: &str) -> Result<Option<Id>, AllocError>
    ensures { IfOk result (λ id. id ≡ (if asking.is_id text.now then Some text.now else None)) }
{
    match Id::new(alloc, text) {
        Ok(id) => Ok(Some(id)),
        Err(IdFault::Memory) => Err(AllocError),
        Err(IdFault::Empty | IdFault::TooLong) => Ok(None),
    }
}

/// What a parameter that lists ids asks for, each between two commas.
fn asked_list(alloc: Global, text: &Text) -> Result<Asked, AllocError>
    ensures asked { IfOk result (λ answer. asked_by_request answer ≡ asking.asked_list text.now) }
    ensures limits { IfOk result IsWithinLimits }
{
    let mut ids = List::new(alloc);
    for part in text.as_str().split(',') {
        if ids.len() == MOST_IDS {
            return Ok(Asked::Refused(Refused::BadParam("ids")));
        }
        let Some(id) = id_of(alloc, part)? else {
            return Ok(Asked::Refused(Refused::BadParam("ids")));
        };
        ids.push(id)?;
    }
    Ok(Asked::GetIds(ids))
}

/// What the parameters of a search ask for (Solr Reference Guide, "Common Query Parameters").
fn asked_select(alloc: Global, params: &List<Param>) -> Result<Asked, AllocError>
    ensures asked { IfOk result (λ answer. asked_by_request answer ≡ asking.asked_search params.now) }
    ensures limits { IfOk result IsWithinLimits }
{
    match Select::of(alloc, params.as_slice()) {
        Ok(select) => Ok(Asked::Select(select)),
        Err(SelectFault::BadParam(name)) => Ok(Asked::Refused(Refused::BadParam(name))),
        Err(SelectFault::Memory) => Err(AllocError),
    }
}

/// What the parameters of a command to the collection ask for (Solr Reference Guide, "Collections API").
fn asked_of_collection(alloc: Global, params: &List<Param>) -> Result<Asked, AllocError>
    ensures asked { IfOk result (λ answer. asked_by_request answer ≡ asking.asked_command (asked_admin params.now)) }
    ensures limits { IfOk result IsWithinLimits }
{
    match read_admin(alloc, params) {
        Ok(command) => Ok(Asked::Command(command)),
        Err(AdminFault::BadParam(name)) => Ok(Asked::Refused(Refused::BadCommand(name))),
        Err(AdminFault::Memory) => Err(AllocError),
    }
}
