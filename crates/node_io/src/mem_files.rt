//! Files in memory, some of whose calls fail.
ghost use Rattle.std.specs.Prelude.{◌≡◌, ◌++◌, ◌∷◌, ◌<◌, ◌≤◌, ◌⊎◌, ◌↔◌, [], Some, None, true, take, length, is_some, unwrap_or, IsTrue, IsNone, IfNone, IfSome, IsOk, IsErr, OnOk, OnErr, IfOk, MatchOption, MatchResult};
ghost use Rattle.node_io.specs.FileMaps.{file_at, ChangesOnly, Names, HasDistinctNames};
ghost use Rattle.node_io.specs.FileStates.{BeginsReading, Pulls, BeginsWriting, AddResult};
ghost use Rattle.node_io.specs.Memory.{files_state, IsDueCall, LacksMemory, CountsCall};

use crate::counts::{is_due, raise};
use crate::file_list::FileList;
use crate::outside::{Calls, Failed, Files};
use crate::reading::Reading;
use crate::text::{add_name, text_of};
use plan_base::{NoMemory, Text, Texts};
use std::alloc::Global;

/// Files in memory, which report what they hold and which names were asked for and made.
#[derive(Drop)]
pub struct MemFiles {
    alloc: Global,
    files: FileList,
    asked: Texts,
    made: Texts,
    fails: Calls,
    // the calls so far, the growths that found no memory, and the faults
    calls: u64,
    refused: u64,
    read_faults: u64,
    write_faults: u64,
    reading: Option<Reading>,
    writing: Option<Text>,
}

impl MemFiles {
    /// These files, whose calls with the numbers in `fails`, from 1, fail. Condition: the names of
    /// the files are distinct.
    pub fn new(alloc: Global, files: FileList, fails: Calls) -> Result<MemFiles, NoMemory>
        requires { HasDistinctNames files }
        ensures { IfOk result
            (λ f. (f.files ≡ files) × (f.asked ≡ []) × (f.made ≡ []) × (f.fails ≡ fails)
            × (f.calls ≡ 0) × (f.refused ≡ 0) × (f.read_faults ≡ 0) × (f.write_faults ≡ 0)
            × (f.reading ≡ None) × (f.writing ≡ None)) }
    {
        Ok(MemFiles {
            alloc,
            files,
            asked: Texts::new(alloc),
            made: Texts::new(alloc),
            fails,
            calls: 0,
            refused: 0,
            read_faults: 0,
            write_faults: 0,
            reading: None,
            writing: None,
        })
    }

    /// The files as they are now.
    pub fn files(&self) -> &FileList
        ensures { result.now ≡ (⟦<MemFiles as Files>⟧.state self.now).held }
    {
        &self.files
    }
}

// Adds `name` to the names asked, and opens the file for reading unless the call is due to fail or
// the file is missing.
fn open(
    alloc: Global,
    asked: &mut Texts,
    files: &FileList,
    name: &[u8],
    due: bool,
) -> Result<Option<Reading>, NoMemory>
    ensures found { IfOk result
        (λ r. MatchOption r (IsTrue due ⊎ (file_at files.now name.now ≡ None))
        (λ left. file_at files.now name.now ≡ Some left)) }
    ensures due { IsTrue due → IfOk result (λ r. r ≡ None) }
    ensures missing { file_at files.now name.now ≡ None → IfOk result (λ r. r ≡ None) }
    ensures asked { Names asked.old asked.new name.now result }
{
    add_name(alloc, asked, name)?;
    if due {
        return Ok(None);
    }
    match files.get(name) {
        None => Ok(None),
        Some(bytes) => {
            let reading = Reading::over(alloc, bytes.as_slice())?;
            Ok(Some(reading))
        }
    }
}

// Adds `name` to the names made, and makes that file empty unless the call is due to fail.
fn make(
    alloc: Global,
    made: &mut Texts,
    files: &mut FileList,
    name: &[u8],
    due: bool,
) -> Result<Option<Text>, NoMemory>
    ensures found { IfOk result
        (λ r. MatchOption r (IsTrue due × (files.new ≡ files.old))
        (λ target. (target ≡ name.now) × ChangesOnly files.old files.new name.now [])) }
    ensures due { IsTrue due → IfOk result (λ r. r ≡ None) }
    ensures stays { OnErr result (files.new ≡ files.old) }
    ensures made { Names made.old made.new name.now result }
{
    add_name(alloc, made, name)?;
    if due {
        return Ok(None);
    }
    let target = text_of(alloc, name)?;
    files.clear(alloc, name)?;
    Ok(Some(target))
}

impl Files for MemFiles {
    ghost state = { files_state };

    fn read_from(&mut self, name: &str) -> Result<(), Failed>
        ensures begins { BeginsReading name.now
            (files_state self.old) (files_state self.new) result }
        ensures named { OnErr result
            ((self.new.asked ≡ self.old.asked ++ name.now ∷ []) ⊎ LacksMemory self.old self.new) }
        ensures due { IsDueCall self.old → IsErr result }
        ensures missing { file_at self.old.files name.now ≡ None → IsErr result }
        ensures only { OnErr result
            (IsDueCall self.old ⊎ (file_at self.old.files name.now ≡ None)
            ⊎ LacksMemory self.old self.new) }
        ensures counted { CountsCall self.old self.new }
    {
        raise(&mut self.calls);
        let due = is_due(self.fails.as_slice(), self.calls);
        self.reading = None;
        match open(
            self.alloc,
            &mut self.asked,
            &self.files,
            name.as_bytes(),
            due,
        ) {
            Ok(Some(reading)) => {
                self.reading = Some(reading);
                Ok(())
            }
            Ok(None) => {
                raise(&mut self.read_faults);
                Err(Failed)
            }
            Err(NoMemory) => {
                raise(&mut self.refused);
                raise(&mut self.read_faults);
                Err(Failed)
            }
        }
    }

    fn pull(&mut self, buf: &mut [u8]) -> Result<usize, Failed>
        requires begun { IsTrue (is_some self.old.reading) }
        requires room { 0 < length buf.old }
        ensures pulls { Pulls buf.new (files_state self.old) (files_state self.new) result }
        ensures due { IsErr result ↔ IsDueCall self.old }
        ensures counted { CountsCall self.old self.new }
    {
        raise(&mut self.calls);
        if is_due(self.fails.as_slice(), self.calls) {
            raise(&mut self.read_faults);
            return Err(Failed);
        }
        match &mut self.reading {
            Some(reading) => Ok(reading.next(buf)),
            None => unreachable!(),
        }
    }

    fn write_to(&mut self, name: &str) -> Result<(), Failed>
        ensures begins { BeginsWriting name.now
            (files_state self.old) (files_state self.new) result }
        ensures named { OnErr result
            ((self.new.made ≡ self.old.made ++ name.now ∷ []) ⊎ LacksMemory self.old self.new) }
        ensures due { IsDueCall self.old → IsErr result }
        ensures only { OnErr result (IsDueCall self.old ⊎ LacksMemory self.old self.new) }
        ensures counted { CountsCall self.old self.new }
    {
        raise(&mut self.calls);
        let due = is_due(self.fails.as_slice(), self.calls);
        self.writing = None;
        match make(
            self.alloc,
            &mut self.made,
            &mut self.files,
            name.as_bytes(),
            due,
        ) {
            Ok(Some(target)) => {
                self.writing = Some(target);
                Ok(())
            }
            Ok(None) => {
                raise(&mut self.write_faults);
                Err(Failed)
            }
            Err(NoMemory) => {
                raise(&mut self.refused);
                raise(&mut self.write_faults);
                Err(Failed)
            }
        }
    }

    fn push(&mut self, piece: &[u8]) -> Result<usize, Failed>
        requires { IsTrue (is_some self.old.writing) }
        ensures adds { AddResult piece.now (files_state self.old) (files_state self.new) result }
        ensures due { IsDueCall self.old → IsErr result }
        ensures only { OnErr result (IsDueCall self.old ⊎ LacksMemory self.old self.new) }
        ensures counted { CountsCall self.old self.new }
    {
        raise(&mut self.calls);
        if is_due(self.fails.as_slice(), self.calls) {
            raise(&mut self.write_faults);
            return Err(Failed);
        }
        match &self.writing {
            None => unreachable!(),
            Some(name) => match self.files.extend(self.alloc, name.as_slice(), piece) {
                Ok(()) => Ok(piece.len()),
                Err(NoMemory) => {
                    raise(&mut self.refused);
                    raise(&mut self.write_faults);
                    Err(Failed)
                }
            },
        }
    }
}
