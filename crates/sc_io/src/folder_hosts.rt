ghost use Rattle.std.specs.Prelude.{◌≡◌, ◌+◌, None, IfOk, OnOk, OnErr};
ghost use Rattle.std.specs.String.{string_bytes};
ghost use Rattle.sc_io.specs.Hosts.{core_properties, down_name};

use crate::fault::{Failed, Faults};
use crate::hosts::Hosts;
use arrayvec::ArrayString;
use itoa::Buffer;
use std::alloc::{AllocError, Global};
use std::io::ErrorKind;
use std::rt::Files;
use std::{fs, io};

/// The machine's hosts, which contracts see no list of. A started core has the folder `cores/<core>` below the folder that the
/// program runs in, and in it the file `core.properties` with the lines `name=<core>`, `collection=docs` and `node=<node>`.
/// A core that has the file is started already, and one without the folder is stopped. A node is away while anything is named
/// `down-<node>` in the folder that the program runs in, and where that can't be told.
#[derive(Drop)]
pub struct FolderHosts<R: Files> {
    pub runtime: R,
    pub faults: Faults,
    pub stop_faults: Faults,
    pub reach_faults: Faults,
    alloc: Global,
}

impl<R: Files> FolderHosts<R> {
    pub fn new(alloc: Global, runtime: R) -> FolderHosts<R>
        ensures runtime { result.runtime ≡ runtime }
        ensures faults { result.faults ≡ 0 }
        ensures stop_faults { result.stop_faults ≡ 0 }
        ensures reach_faults { result.reach_faults ≡ 0 }
    {
        FolderHosts {
            runtime,
            faults: Faults::none(),
            stop_faults: Faults::none(),
            reach_faults: Faults::none(),
            alloc,
        }
    }
}

impl<R: Files> Hosts for FolderHosts<R> {
    ghost started = { λ _. None };

    ghost start_faults = { λ s. s.faults };

    ghost stop_faults = { λ s. s.stop_faults };

    ghost reached = { λ s. record { faults = s.reach_faults; nodes = None } };

    fn start_core(&mut self, node: u32, core: &str) -> Result<(), Failed>
        ensures steady { OnOk result (self.new.faults ≡ self.old.faults) }
        ensures cause { OnErr result (self.new.faults ≡ self.old.faults + 1) }
        ensures other_count { self.new.stop_faults ≡ self.old.stop_faults }
        ensures reached { self.new.reach_faults ≡ self.old.reach_faults }
    {
        if make_core(&self.runtime, self.alloc, node, core).is_err() {
            self.faults.rise();
            return Err(Failed);
        }
        Ok(())
    }

    fn stop_core(&mut self, _: u32, core: &str) -> Result<(), Failed>
        ensures steady { OnOk result (self.new.stop_faults ≡ self.old.stop_faults) }
        ensures cause { OnErr result (self.new.stop_faults ≡ self.old.stop_faults + 1) }
        ensures other_count { self.new.faults ≡ self.old.faults }
        ensures reached { self.new.reach_faults ≡ self.old.reach_faults }
    {
        if remove_core(&self.runtime, self.alloc, core).is_err() {
            self.stop_faults.rise();
            return Err(Failed);
        }
        Ok(())
    }

    fn reach(&mut self, node: u32) -> Result<(), Failed>
        ensures steady { OnOk result (self.new.reach_faults ≡ self.old.reach_faults) }
        ensures cause { OnErr result (self.new.reach_faults ≡ self.old.reach_faults + 1) }
        ensures starts { self.new.faults ≡ self.old.faults }
        ensures stops { self.new.stop_faults ≡ self.old.stop_faults }
    {
        if is_away(&self.runtime, node) {
            self.reach_faults.rise();
            return Err(Failed);
        }
        Ok(())
    }
}

// Makes the core's folder and its file. Where the file can't be written, what was made is taken away again as far as it can be.
fn make_core<R: Files>(runtime: &R, alloc: Global, node: u32, core: &str) -> io::Result<()> {
    let folder = format!(in alloc; "cores/{core}")?;
    let file = format!(in alloc; "cores/{core}/core.properties")?;
    if fs::exists(runtime, &file)? {
        return Ok(());
    }
    let lines = core_properties(alloc, node, core)?;
    fs::create_dir_all(runtime, &folder)?;
    let written = fs::write(runtime, &file, lines.as_str());
    if written.is_err() {
        let _ = fs::remove_file(runtime, &file);
        let _ = fs::remove_dir(runtime, &folder);
    }
    written
}

// The lines of the core's file.
fn core_properties(alloc: Global, node: u32, core: &str) -> Result<String, AllocError>
    ensures { IfOk result (λ lines. string_bytes lines ≡ core_properties node core.now) }
{
    Ok(format!(in alloc; "name={core}\ncollection=docs\nnode={node}\n")?)
}

// A node is said to be down, or it can't be told. It takes no memory, so that no want of it makes a node that is there seem away.
fn is_away<R: Files>(runtime: &R, node: u32) -> bool {
    match fs::exists(runtime, down_name(node).as_str()) {
        Ok(down) => down,
        Err(_) => true,
    }
}

// The name of what says that the node is down.
fn down_name(node: u32) -> ArrayString<16>
    ensures { result.bytes ≡ down_name node }
{
    let mut name = ArrayString::new();
    name.push_str("down-");
    name.push_str(Buffer::new().format(node));
    name
}

// Takes away the core's file and its folder.
fn remove_core<R: Files>(runtime: &R, alloc: Global, core: &str) -> io::Result<()> {
    let folder = format!(in alloc; "cores/{core}")?;
    let file = format!(in alloc; "cores/{core}/core.properties")?;
    or_missing(fs::remove_file(runtime, &file))?;
    or_missing(fs::remove_dir(runtime, &folder))
}

// What was to be taken away is not there in any case.
fn or_missing(removed: io::Result<()>) -> io::Result<()> {
    match removed {
        Err(error) if error.kind() == ErrorKind::NotFound => Ok(()),
        removed => removed,
    }
}
