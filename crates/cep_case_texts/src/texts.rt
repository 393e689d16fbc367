// Texts that have a name, so that each stands once.
use crate::draft::Draft;
use std::alloc::{AllocError, Global};
use std::collections::BTreeMap;

/// The texts of all files so far, by their names.
#[derive(Drop)]
pub struct Texts {
    alloc: Global,
    by_name: BTreeMap<String, Draft>,
}

impl Texts {
    /// No text yet.
    pub fn new(alloc: Global) -> Texts {
        Texts {
            alloc,
            by_name: BTreeMap::new(alloc),
        }
    }

    /// Where texts are kept.
    pub fn alloc(&self) -> Global {
        self.alloc
    }

    /// Keeps a text under a name, in the place of one that had the name.
    pub fn keep(&mut self, name: &str, text: Draft) -> Result<(), AllocError> {
        let name = String::from_str(self.alloc, name)?;
        self.by_name.insert(name, text)?;
        Ok(())
    }

    /// Adds the text of a name.
    pub fn put(&self, name: &str, out: &mut Draft) {
        match self.by_name.get(name) {
            Some(text) => out.put(text.bytes()),
            None => out.fail("no text has this name"),
        }
    }
}
