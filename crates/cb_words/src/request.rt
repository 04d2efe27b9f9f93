//! The request of a command line.
ghost use Rattle.std.specs.Prelude.{◌≡◌, List, ℕ, map, string_bytes};

use std::marker::Model;

/// The names of the files of a request, in the order of the words.
///
/// Contracts see it as the list of the names.
#[derive(Drop)]
pub struct FileNames {
    names: Vec<String>,
}

impl Model for FileNames {
    ghost Value = { List (List ℕ) };

    ghost view = { λ f. map string_bytes f.names.items };
}

impl FileNames {
    /// The names, which are kept as they are.
    pub fn new(names: Vec<String>) -> FileNames
        ensures { result ≡ map string_bytes names.items }
    {
        FileNames { names }
    }

    /// The names, in the order of the words.
    pub fn as_slice(&self) -> &[String]
        ensures { map string_bytes result.now ≡ self.now }
    {
        &self.names
    }
}

/// What is to be done.
#[derive(Drop)]
pub enum Request {
    /// List what is to be proved of the text of these files, one at least.
    List {
        files: FileNames,
    },
    /// Judge the text of these files, one at least.
    Check {
        files: FileNames,
    },
    /// Run the system of the text of these files, one at least, on one thread. At most `limit` calls and passes happen, which is at
    /// most 100,000; `seed`, which is below 2^32, takes the choices that are left.
    Sim {
        files: FileNames,
        limit: u32,
        seed: u64,
    },
}
