ghost use Rattle.std.specs.Prelude.{◌≡◌, ◌<◌, ◌^◌, [], ◌++◌, codes, filter, map, IfOk, IfErr, IfSome, OnOk, length};
ghost use Rattle.std.specs.Option.{option_map, unwrap_or};
ghost use Rattle.std.specs.Str.{bytes_eq};
ghost use Rattle.sc_model.specs.declared.message.Param.{Param};
ghost use Rattle.sc_model.specs.Parameters.{parameter};
ghost use Rattle.sc_session.specs.Parameters as parameters;
ghost use Rattle.sc_session.specs.Requests as asking;
ghost use Rattle.sc_session.specs.Asking.{select_of, RefusesSearch};
ghost use Rattle.sc_session.specs.declared.select.SelectFault.TheVariants.{Memory};

use sc_http::Param;
use sc_model::{count_of, is_other_than, parameter};
use sc_record::{CloneIn, List, Text};
use std::alloc::{AllocError, Global};

/// The most rows of a page.
const MOST_ROWS: u32 = 1_000;

/// The number of rows where none is given.
const USUAL_ROWS: u32 = 10;

/// The end of the last page.
const LAST_ROW: u32 = 100_000;

/// A search that is asked for: the texts of its queries, of its route, and the page that is to be shown.
#[derive(Debug, Drop)]
pub(crate) struct Select {
    pub queries: List<Text>,
    pub route: Option<Text>,
    pub start: u32,
    pub rows: u32,
}

/// Why the parameters of a search ask for none.
#[derive(Debug, Drop)]
pub(crate) enum SelectFault {
    /// The first parameter that has no such value, by its name.
    BadParam(&'static str),
    Memory,
}

impl From<AllocError> for SelectFault {
    ghost from_gives = { λ _ fault. fault ≡ Memory };

    fn from(_error: AllocError) -> SelectFault {
        SelectFault::Memory
    }
}

impl Select {
    /// What the parameters of a search ask for, or the name of the first that has no such value.
    pub(crate) fn of(alloc: Global, params: &[Param]) -> Result<Select, SelectFault>
        ensures asked { IfOk result (λ select. asking.asked_search params.now ≡ asking.select (select_of select)) }
        ensures fault { IfErr result (RefusesSearch params.now) }
        ensures limits { IfOk result (λ select. (0 < length select.queries) × IfSome select.route (λ route. length route < 2 ^ 32)) }
    {
        let Some(rows) = count_of(USUAL_ROWS, MOST_ROWS, parameter("rows", params)) else {
            return Err(SelectFault::BadParam("rows"));
        };
        let Some(start) = count_of(0, LAST_ROW - rows, parameter("start", params)) else {
            return Err(SelectFault::BadParam("start"));
        };
        if let Some(name) = other_fault(params) {
            return Err(SelectFault::BadParam(name));
        }
        Ok(Select {
            queries: query_texts(alloc, params)?,
            route: match parameter("_route_", params) {
                Some(route) => Some(route.clone_in(alloc)?),
                None => None,
            },
            start,
            rows,
        })
    }
}

/// The first parameter after `rows` and `start` that has no such value.
fn other_fault(params: &[Param]) -> Option<&'static str>
    ensures { option_map (λ name. name.now) result ≡ parameters.other_fault params.now }
{
    if has_bad_route(params) {
        Some("_route_")
    } else if is_other_than("id asc", "sort", params) {
        Some("sort")
    } else if parameter("fl", params).is_some() {
        Some("fl")
    } else if is_other_than("json", "wt", params) {
        Some("wt")
    } else {
        None
    }
}

/// Whether there is a route that is none.
fn has_bad_route(params: &[Param]) -> bool
    ensures { result ≡ parameters.has_bad_route params.now }
{
    match parameter("_route_", params) {
        Some(route) => route.as_str().is_empty() || u32::try_from(route.as_str().len()).is_err(),
        None => false,
    }
}

/// The texts of all queries: `q`, which is empty where it is not there, and then each `fq` in order.
fn query_texts(alloc: Global, params: &[Param]) -> Result<List<Text>, AllocError>
    ensures { IfOk result (λ texts. texts ≡ parameters.query_texts params.now) }
{
    let first = query_text(alloc, params)?;
    let mut texts = List::new(alloc);
    texts.push(first)?;
    push_filters(&mut texts, alloc, params)?;
    Ok(texts)
}

/// The text of `q`, which is empty where it is not there.
fn query_text(alloc: Global, params: &[Param]) -> Result<Text, AllocError>
    ensures { IfOk result (λ text. text ≡ unwrap_or (parameter (codes "q") params.now) []) }
{
    match parameter("q", params) {
        Some(text) => Ok(text.clone_in(alloc)?),
        None => Text::new(alloc, ""),
    }
}

/// Puts the text of each `fq` at the end.
fn push_filters(texts: &mut List<Text>, alloc: Global, params: &[Param]) -> Result<(), AllocError>
    ensures { OnOk result (texts.new ≡ texts.old ++ map (λ (param : Param). param.value)
        (filter (λ (param : Param). bytes_eq param.name (codes "fq")) params.now)) }
{
    for param in params {
        if param.name.as_str() == "fq" {
            texts.push(param.value.clone_in(alloc)?)?;
        }
    }
    Ok(())
}
