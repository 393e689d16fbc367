// A shelf in memory of which chosen loads fail.
ghost use Rattle.std.specs.Prelude.{◌≡◌, ◌≤◌, ◌↔◌, [], length, map, string_bytes, Some, IsSome, IfSome, IfOk, OnOk, OnErr, IsErrOf};
ghost use Rattle.std.specs.FinMap as map;
ghost use Rattle.cep_base.specs.declared.shelf.ShelfFault.TheVariants.{TooLong};
ghost use Rattle.cep_base.specs.Files.{HasFile, HasLongerFile, Asks, ShelfCause};
ghost use Rattle.cep_fakes.specs.Calls.{no_calls, after_listing};
ghost use Rattle.cep_fakes.specs.MemShelf.{LoadCounts};

use crate::calls::Calls;
use cep_base::{Shelf, ShelfFault};
use std::alloc::{AllocError, Global};
use std::collections::BTreeMap;
use std::marker::Model;

/// A shelf of files in memory, of which some loads fail. They are numbered from 1 to 2^64 - 1.
#[derive(Drop)]
pub struct MemShelf {
    alloc: Global,
    files: BTreeMap<String, Vec<u8>>,
    asked: Vec<String>,
    calls: Calls,
}

impl Model for MemShelf {
    ghost use Rattle.std.specs.Prelude.{map, string_bytes};
    ghost use Rattle.cep_fakes.specs.MemShelf.{Holdings, holdings_code, files_of};

    ghost Value = { Holdings };

    ghost coded = { holdings_code };

    ghost view = { λ shelf. record {
      files = files_of shelf.files;
      asked = map string_bytes shelf.asked.items;
      calls = shelf.calls;
    } };
}

impl MemShelf {
    /// A shelf with no file, of which no load is to fail. It takes no memory.
    pub fn new(alloc: Global) -> MemShelf
        ensures { result ≡ record { files = map.empty; asked = []; calls = no_calls [] } }
    {
        MemShelf {
            alloc,
            files: BTreeMap::new(alloc),
            asked: Vec::new(alloc),
            calls: Calls::new(Vec::new(alloc)),
        }
    }

    /// Puts a file on the shelf, in the place of one of the same name.
    #[tactic(auto, using(crate::proofs::Holdings::holdings))]
    pub fn file(&mut self, name: &str, bytes: &[u8]) -> Result<(), AllocError>
        ensures ok { OnOk result
            (self.new ≡ record self.old { files = map.insert self.old.files name.now bytes.now }) }
        ensures err { OnErr result (self.new ≡ self.old) }
    {
        let name = String::from_str(self.alloc, name)?;
        let bytes = Vec::from_slice(self.alloc, bytes)?;
        self.files.insert(name, bytes)?;
        Ok(())
    }

    /// The names that were asked for, in order.
    pub fn asked(&self) -> &[String]
        ensures { map string_bytes result.now ≡ self.now.asked }
    {
        &self.asked
    }

    /// Forgets what was asked for and which loads are to fail. The next load has the number 1.
    pub fn begin(&mut self)
        ensures { self.new ≡ record self.old { asked = []; calls = no_calls [] } }
    {
        self.asked.clear();
        self.calls = Calls::new(Vec::new(self.alloc));
    }

    /// Lists a load that is to fail.
    pub fn fail(&mut self, call: u64) -> Result<(), AllocError>
        ensures ok { OnOk result
            (self.new ≡ record self.old { calls = after_listing self.old.calls call }) }
        ensures err { OnErr result (self.new ≡ self.old) }
    {
        self.calls.list(call)
    }
}

// A copy of a file, if it has at most so many bytes.
fn copy(alloc: Global, file: &[u8], most: usize) -> Result<Option<Vec<u8>>, AllocError>
    ensures whole { IfOk result (λ copied. IfSome copied (λ bytes. bytes.items ≡ file.now)) }
    ensures within { IfOk result (λ copied. IsSome copied ↔ (length file.now ≤ most)) }
{
    if file.len() > most {
        return Ok(None);
    }
    Ok(Some(file.to_vec(alloc)?))
}

impl Shelf for MemShelf {
    ghost files = { λ shelf. Some (map.get shelf.files) };

    ghost asked = { λ shelf. Some shelf.asked };

    ghost faults = { λ shelf. shelf.calls.faults };

    #[tactic(auto, using(crate::proofs::Holdings::holdings))]
    fn load(&mut self, alloc: Global, name: &str, most: usize) -> Result<Vec<u8>, ShelfFault>
        ensures whole { IfOk result
            (λ bytes. HasFile (Some (map.get self.old.files)) name.now bytes.items) }
        ensures within { IfOk result (λ bytes. length bytes.items ≤ most) }
        ensures longer { IsErrOf result TooLong →
            HasLongerFile (Some (map.get self.old.files)) name.now most }
        ensures same { Some (map.get self.new.files) ≡ Some (map.get self.old.files) }
        ensures asked { Asks (Some self.old.asked) name.now (Some self.new.asked) result }
        ensures cause { ShelfCause self.old.calls.faults self.new.calls.faults result }

        // What it says beside the trait: when it fails, and that its files stay.
        ensures files { self.new.files ≡ self.old.files }
        ensures calls { LoadCounts self.old.calls self.new.calls
            (map.get self.old.files name.now) result }
    {
        let fails = self.calls.begin();
        let asked = String::from_str(self.alloc, name)?;
        match self.files.get(name) {
            Some(file) if !fails => {
                let bytes = copy(alloc, file, most)?;
                self.asked.push(asked)?;
                bytes.ok_or(ShelfFault::TooLong)
            }
            _ => {
                self.asked.push(asked)?;
                self.calls.fail();
                Err(ShelfFault::Failed)
            }
        }
    }
}
