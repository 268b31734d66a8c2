//! Files by name, in memory.
ghost use Rattle.std.specs.Prelude.{◌≡◌, ℕ, [], ◌∷◌, ◌++◌, ◌<◌, length, slice_get, ◌↔◌, IsTrue, OnOk, OnErr, position};
ghost use Rattle.std.specs.Option.{option_copied};
ghost use Rattle.node_io.specs.FileMaps.{file_at, contents, is_named, ChangesOnly};

use crate::text::{is_text, text_of};
use plan_base::{Bytes, NoMemory, Text};
use std::alloc::{AllocError, Global};
use std::marker::Model;

/// Files by name in memory, which contracts see as a list of names with their bytes.
#[derive(Drop)]
pub struct FileList {
    all: Vec<(Text, Bytes)>,
}

impl Model for FileList {
    ghost use Rattle.std.specs.Prelude.{List, ℕ};
    ghost use Rattle.std.specs.Coded.{coded_list, coded×, coded_ℕ};

    ghost Value = { List (List ℕ × List ℕ) };

    ghost coded = { coded_list (coded× (coded_list coded_ℕ) (coded_list coded_ℕ)) };

    ghost view = { λ f. f.all.items };
}

impl FileList {
    /// No files. Takes no memory before the first `add`.
    pub fn new(alloc: Global) -> FileList
        ensures { result ≡ [] }
    {
        FileList {
            all: Vec::new(alloc),
        }
    }

    /// The number of files.
    pub fn len(&self) -> usize
        ensures { result ≡ length self.now }
    {
        self.all.len()
    }

    /// Whether there is no file.
    pub fn is_empty(&self) -> bool
        ensures { IsTrue result ↔ (self.now ≡ []) }
    {
        self.all.is_empty()
    }

    /// The file at place `i`, from 0, with its name. Condition: `i` is below the length.
    pub fn at(&self, i: usize) -> &(Text, Bytes)
        requires { i < length self.now }
        ensures { slice_get self.now i ≡ Some result.now }
    {
        &self.all[i]
    }

    /// Adds a file at the end. Where an allocation fails, the file is dropped and the list stays.
    pub fn add(&mut self, file: (Text, Bytes)) -> Result<(), NoMemory>
        ensures ok { OnOk result (self.new ≡ self.old ++ file ∷ []) }
        ensures err { OnErr result (self.new ≡ self.old) }
    {
        push_file(&mut self.all, file)?;
        Ok(())
    }

    fn find(&self, name: &[u8]) -> Option<usize>
        ensures { result ≡ position (is_named name.now) self.now }
    {
        self.all.iter().position(|f| is_text(&f.0, name))
    }

    /// The bytes of the file `name`, or `None` where it is missing.
    pub fn get(&self, name: &[u8]) -> Option<&Bytes>
        ensures { option_copied result ≡ file_at self.now name.now }
    {
        let i = self.find(name)?;
        Some(&self.all[i].1)
    }

    /// Makes the file `name` empty, and adds it where it is missing. Where an allocation fails, the
    /// files stay.
    pub(crate) fn clear(&mut self, alloc: Global, name: &[u8]) -> Result<(), NoMemory>
        ensures ok { OnOk result (ChangesOnly self.old self.new name.now []) }
        ensures err { OnErr result (self.new ≡ self.old) }
    {
        match self.find(name) {
            Some(i) => {
                self.all[i].1 = Bytes::new(alloc);
            }
            None => {
                let name = text_of(alloc, name)?;
                push_file(&mut self.all, (name, Bytes::new(alloc)))?;
            }
        }
        Ok(())
    }

    /// Adds `piece` at the end of the file `name`, which is begun where it is missing. Where an
    /// allocation fails, the files stay.
    pub(crate) fn extend(
        &mut self,
        alloc: Global,
        name: &[u8],
        piece: &[u8],
    ) -> Result<(), NoMemory>
        ensures ok { OnOk result
            (ChangesOnly self.old self.new name.now (contents self.old name.now ++ piece.now)) }
        ensures err { OnErr result (self.new ≡ self.old) }
    {
        match self.find(name) {
            Some(i) => {
                self.all[i].1.add_all(piece)?;
            }
            None => {
                let name = text_of(alloc, name)?;
                let mut bytes = Bytes::new(alloc);
                bytes.add_all(piece)?;
                push_file(&mut self.all, (name, bytes))?;
            }
        }
        Ok(())
    }
}

fn push_file(files: &mut Vec<(Text, Bytes)>, file: (Text, Bytes)) -> Result<(), AllocError>
    ensures ok { OnOk result (files.new.items ≡ files.old.items ++ file ∷ []) }
    ensures err { OnErr result (files.new.items ≡ files.old.items) }
{
    files.push(file)?;
    Ok(())
}
