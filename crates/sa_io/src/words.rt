// The words of a command line.
ghost use Rattle.std.specs.Prelude.{◌≡◌, IfOk, map, string_bytes};
ghost use Rattle.std.specs.Vec.Iter.{into_iter_items};
ghost use Rattle.sa_io.specs.Words.{words_after_name, without_words, AreWords};

use std::alloc::{AllocError, Global};
use std::env::Args;
use std::io::{self, ErrorKind};
use std::marker::Model;

/// The words of a command line after the program's name, in order. Contracts see the list of their bytes.
#[derive(Drop)]
pub struct Words {
    list: Vec<String>,
}

impl Model for Words {
    ghost use Rattle.std.specs.Prelude.{List, ℕ, map, string_bytes};

    ghost Value = { List (List ℕ) };

    ghost view = { λ w. map string_bytes w.list.items };
}

/// Why a command line has no words.
#[derive(Clone, Copy)]
pub enum NoWords {
    /// An argument is no text, or the arguments are not told.
    NoText,
    OutOfMemory,
}

impl Words {
    /// The words of these arguments, the first of which is the program's name.
    pub fn read(alloc: Global, args: io::Result<Args>) -> Result<Words, NoWords>
        ensures { AreWords args result }
    {
        match args {
            Ok(args) => Words::after_name(alloc, args).map_err(|_| NoWords::OutOfMemory),
            Err(error) => Err(without_words(error.kind())),
        }
    }

    // The words of the arguments after the first one.
    fn after_name(alloc: Global, args: Args) -> Result<Words, AllocError>
        ensures { IfOk result (λ words. words ≡ words_after_name (into_iter_items args)) }
    {
        let list = args.skip(1).collect(alloc)?;
        Ok(Words { list })
    }

    /// The words as a slice.
    pub fn list(&self) -> &[String]
        ensures { map string_bytes result.now ≡ self.now }
    {
        self.list.as_slice()
    }
}

// Why there are no words where the arguments are refused with an error of this kind.
fn without_words(kind: ErrorKind) -> NoWords
    ensures { result ≡ without_words kind }
{
    match kind {
        ErrorKind::OutOfMemory => NoWords::OutOfMemory,
        _ => NoWords::NoText,
    }
}
