ghost use Rattle.std.specs.Prelude.{◌≡◌, ◌≤◌, [], Some, Ok, OnErr, map, option_map, vec_len};
ghost use Rattle.std.specs.String.{string_bytes};
ghost use Rattle.asc_outside.specs.Outside.{AsksFor, HasStoreCause, MayHoldLonger, content_of};
ghost use Rattle.asc_outside.specs.Failures.{failures_of};
ghost use Rattle.asc_outside.specs.Lists.{files_of, Answers, failures_after_read};

use crate::failures::Failures;
use crate::{Loaded, Store, StoreFault};
use std::marker::Model;

/// A store of the files of a list, of which the first of a name counts. Chosen calls of it fail, and calls for a name
/// that it has not.
///
/// It notes the names that it is asked for. Where there is no memory for one, it tells none from then on.
#[derive(Drop)]
pub struct ListStore {
    files: Vec<(String, Vec<u8>)>,
    asked: Vec<String>,
    tells: bool,
    failures: Failures,
}

impl Model for ListStore {
    ghost use Rattle.asc_outside.specs.Lists.{Stock, files_of, told_names};

    ghost Value = { Stock };

    ghost view = { λ s. record {
      files = files_of s.files.items;
      asked = told_names s.tells s.asked.items;
      failures = s.failures;
    } };
}

impl ListStore {
    /// A store of these files, which are names and contents. The calls fail whose numbers, from 1, stand in `fails`.
    pub fn new(files: Vec<(String, Vec<u8>)>, fails: Vec<u64>) -> ListStore
        ensures { result ≡ record {
          files = files_of files.items;
          asked = Some [];
          failures = failures_of fails.items;
        } }
    {
        let asked = Vec::new(*files.allocator());
        ListStore {
            files,
            asked,
            tells: true,
            failures: Failures::new(fails),
        }
    }

    /// The names that it was asked for, in order, where there was memory for all.
    pub fn asked(&self) -> Option<&[String]>
        ensures { option_map (λ names. map string_bytes names.now) result ≡ self.now.asked }
    {
        if self.tells { Some(&self.asked) } else { None }
    }

    /// Notes a name that it is asked for.
    fn note(&mut self, name: &str)
        ensures files { self.new.files ≡ self.old.files }
        ensures failures { self.new.failures ≡ self.old.failures }
        ensures asked { AsksFor name.now self.old.asked self.new.asked }
    {
        let noted = match String::from_str(*self.asked.allocator(), name) {
            Ok(name) => self.asked.push(name).is_ok(),
            Err(_) => false,
        };
        self.tells = self.tells && noted;
    }
}

impl Store for ListStore {
    ghost files = { λ s. Some s.files };

    ghost asked = { λ s. s.asked };

    ghost faults = { λ s. s.failures.faults };

    fn read(&mut self, name: &str, into: &mut Vec<u8>, most: usize) -> Result<Loaded, StoreFault>
        ensures answer { Answers self.old name.now most result }
        ensures failures { self.new.failures ≡ failures_after_read self.old.failures (content_of self.old.files name.now) }
        ensures files { self.new.files ≡ self.old.files }
        ensures asked { AsksFor name.now self.old.asked self.new.asked }
        ensures whole { result ≡ Ok Loaded.Whole → content_of self.old.files name.now ≡ Some into.new.items }
        ensures within { vec_len into.new ≤ most }
        ensures longer { result ≡ Ok Loaded.Longer → MayHoldLonger (Some self.old.files) name.now most }
        ensures empty { result ≡ Ok Loaded.Longer → into.new.items ≡ [] }
        ensures err { OnErr result (into.new.items ≡ []) }
        ensures cause { HasStoreCause self.old.failures.faults self.new.failures.faults result }
    {
        into.clear();
        self.note(name);
        if self.failures.call().is_err() {
            return Err(StoreFault::Failed);
        }
        let Some(content) = content(&self.files, name) else {
            self.failures.fail();
            return Err(StoreFault::Failed);
        };
        if content.len() > most {
            return Ok(Loaded::Longer);
        }
        match into.extend_from_slice(content) {
            Ok(()) => Ok(Loaded::Whole),
            Err(_) => Err(StoreFault::Memory),
        }
    }
}

/// The content of the first file of a name.
fn content<'a>(files: &'a [(String, Vec<u8>)], name: &str) -> Option<&'a [u8]>
    ensures { option_map (λ b. b.now) result ≡ content_of (files_of files.now) name.now }
{
    for (file, content) in files {
        if file.as_str() == name {
            return Some(content.as_slice());
        }
    }
    None
}
