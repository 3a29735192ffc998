//! What the parameters of a request ask of the collection.

ghost use Rattle.std.specs.Prelude.{◌≡◌, ◌-◌, ◌&&◌, Ok, Some, None, IfOk, IfErr, IfSome, codes, if◌then◌else◌, is_some, option_copied};
ghost use Rattle.sc_board.specs.Splits.{IsCut};
ghost use Rattle.sc_admin.specs.Commands as commands;
ghost use Rattle.sc_admin.specs.Cuts.{IsCutIfAny};
ghost use Rattle.sc_admin.specs.Ranges.{may_be_parts, ranges_of};

use crate::admin::{Action, Admin, AdminFault};
use crate::ranges::{LEAST_PARTS, MOST_PARTS, ranges_of};
use sc_board::Cut;
use sc_model::{Param, is_other_than, parameter};
use sc_record::{List, Text};
use std::alloc::{AllocError, Global};

/// What the parameters ask for; the first of a name counts. Where one has no such value the first at fault is named, in the
/// order action, collection, shard, numSubShards, ranges, splitMethod, split.key, splitFuzz, async, splitByPrefix.
pub fn read_admin(alloc: Global, params: &List<Param>) -> Result<Admin, AdminFault>
    ensures ok { IfOk result (λ admin. commands.asked_admin params.now ≡ Ok (commands.admin_command admin)) }
    ensures fault { IfErr result (commands.IsAdminFault (commands.asked_admin params.now)) }
    ensures cut { IfOk result IsCutIfAny }
{
    let params = params.as_slice();
    match action_of(value_of("action", params)) {
        Some(action) => asked_by(alloc, action, params),
        None => Err(AdminFault::of(alloc, "action")),
    }
}

/// The action of this name, in any ASCII case.
fn action_of(name: &str) -> Option<Action>
    ensures { result ≡ commands.action_of name.now }
{
    if name.eq_ignore_ascii_case("SPLITSHARD") {
        Some(Action::Split)
    } else if name.eq_ignore_ascii_case("CLUSTERSTATUS") {
        Some(Action::Status)
    } else if name.eq_ignore_ascii_case("DELETESHARD") {
        Some(Action::Delete)
    } else {
        None
    }
}

/// The value of the first parameter of this name, which is empty where there is none.
fn value_of<'a>(name: &str, params: &'a [Param]) -> &'a str
    ensures { result.now ≡ commands.parameter_value name.now params.now }
{
    match parameter(name, params) {
        Some(value) => value.as_str(),
        None => "",
    }
}

/// What an action asks for.
fn asked_by(alloc: Global, action: Action, params: &[Param]) -> Result<Admin, AdminFault>
    ensures ok { IfOk result (λ admin. commands.asked_by action params.now ≡ Ok (commands.admin_command admin)) }
    ensures fault { IfErr result (commands.IsAdminFault (commands.asked_by action params.now)) }
    ensures cut { IfOk result IsCutIfAny }
{
    if is_other_than("docs", "collection", params) {
        return Err(AdminFault::of(alloc, "collection"));
    }
    match action {
        Action::Status => Ok(Admin::Status),
        Action::Split => asked_of_shard(alloc, true, value_of("shard", params), params),
        Action::Delete => asked_of_shard(alloc, false, value_of("shard", params), params),
    }
}

/// What is asked of a shard: to split it, or to delete it.
fn asked_of_shard(
    alloc: Global,
    splits: bool,
    shard: &str,
    params: &[Param],
) -> Result<Admin, AdminFault>
    ensures ok { IfOk result (λ admin. commands.asked_of_shard splits shard.now params.now ≡ Ok (commands.admin_command admin)) }
    ensures fault { IfErr result (commands.IsAdminFault (commands.asked_of_shard splits shard.now params.now)) }
    ensures cut { IfOk result IsCutIfAny }
{
    if shard.is_empty() {
        return Err(AdminFault::of(alloc, "shard"));
    }
    let Ok(name) = Text::new(alloc, shard) else {
        return Err(AdminFault::Memory);
    };
    if splits {
        split_by(alloc, name, params)
    } else {
        Ok(Admin::Delete { shard: name })
    }
}

/// A split of the shard, where no parameter of it is at fault.
fn split_by(alloc: Global, shard: Text, params: &[Param]) -> Result<Admin, AdminFault>
    ensures ok { IfOk result (λ admin. commands.split_by shard params.now (commands.asked_cut params.now) ≡ Ok (commands.admin_command admin)) }
    ensures fault { IfErr result (commands.IsAdminFault (commands.split_by shard params.now (commands.asked_cut params.now))) }
    ensures cut { IfOk result IsCutIfAny }
{
    let cut = asked_cut(alloc, params)?;
    match other_fault(params) {
        Some(name) => Err(AdminFault::of(alloc, name)),
        None => Ok(Admin::Split { shard, cut }),
    }
}

/// How a shard is to be cut.
fn asked_cut(alloc: Global, params: &[Param]) -> Result<Cut, AdminFault>
    ensures ok { IfOk result (λ cut. commands.asked_cut params.now ≡ Ok (commands.pieces_of cut)) }
    ensures fault { IfErr result (commands.IsAdminFault (commands.asked_cut params.now)) }
    ensures cut { IfOk result IsCut }
{
    match (
        parameter("numSubShards", params),
        parameter("ranges", params),
    ) {
        (None, None) => Ok(Cut::Parts { n: 2 }),
        (Some(count), None) => in_parts(alloc, count.as_str()),
        (Some(_), Some(_)) => Err(AdminFault::of(alloc, "numSubShards")),
        (None, Some(ranges)) => in_ranges(alloc, ranges.as_str()),
    }
}

/// A cut into as many parts as one digit says.
fn in_parts(alloc: Global, text: &str) -> Result<Cut, AdminFault>
    ensures ok { IfOk result (λ cut. commands.in_parts (commands.parts_asked text.now) ≡ Ok (commands.pieces_of cut)) }
    ensures fault { IfErr result (commands.IsAdminFault (commands.in_parts (commands.parts_asked text.now))) }
    ensures cut { IfOk result IsCut }
{
    match parts_asked(text.as_bytes()) {
        Some(n) => Ok(Cut::Parts { n }),
        None => Err(AdminFault::of(alloc, "numSubShards")),
    }
}

/// The number of parts that one digit asks for, where a cut may have as many.
fn parts_asked(text: &[u8]) -> Option<u32>
    ensures number { result ≡ commands.parts_asked text.now }
    ensures cut { IfSome result (λ n. IsCut (Cut.Parts n)) }
{
    match text {
        [digit] => parts_of_digit(*digit),
        _ => None,
    }
}

/// The number of parts that this digit asks for, where a cut may have as many.
fn parts_of_digit(digit: u8) -> Option<u32>
    ensures number { result ≡ (if may_be_parts (digit - 48) then Some (digit - 48) else None) }
    ensures cut { IfSome result (λ n. IsCut (Cut.Parts n)) }
{
    let number = digit.saturating_sub(b'0');
    if LEAST_PARTS <= usize::from(number) && usize::from(number) <= MOST_PARTS {
        Some(u32::from(number))
    } else {
        None
    }
}

/// A cut into the ranges that a text lists.
fn in_ranges(alloc: Global, text: &str) -> Result<Cut, AdminFault>
    ensures ok { IfOk result (λ cut. commands.in_ranges (ranges_of text.now) ≡ Ok (commands.pieces_of cut)) }
    ensures fault { IfErr result (commands.IsAdminFault (commands.in_ranges (ranges_of text.now))) }
    ensures cut { IfOk result IsCut }
{
    match ranges_of(alloc, text) {
        Ok(Some(list)) => Ok(Cut::Ranges { list }),
        Ok(None) => Err(AdminFault::of(alloc, "ranges")),
        Err(AllocError) => Err(AdminFault::Memory),
    }
}

/// The first parameter of a split at fault, after those that say how it cuts.
fn other_fault(params: &[Param]) -> Option<&'static str>
    ensures { option_copied result ≡ commands.other_split_fault params.now }
{
    if has_other_method(params) {
        Some("splitMethod")
    } else if parameter("split.key", params).is_some() {
        Some("split.key")
    } else if parameter("splitFuzz", params).is_some() {
        Some("splitFuzz")
    } else if parameter("async", params).is_some() {
        Some("async")
    } else if is_other_than("false", "splitByPrefix", params) {
        Some("splitByPrefix")
    } else {
        None
    }
}

/// Whether the method of a split is one that there isn't.
fn has_other_method(params: &[Param]) -> bool
    ensures { result ≡ commands.has_other_method params.now }
{
    is_other_than("rewrite", "splitMethod", params) && is_other_than("link", "splitMethod", params)
}
