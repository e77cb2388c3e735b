// The path of a file, as a word gives it; the paths down a history are in `tw_skipproof`.

ghost use Rattle.std.specs.Prelude.{◌≡◌, IfOk};

use std::alloc::Global;
use tw_base::NoMemory;

/// The path of a file, as it was given. To contracts it is its bytes.
#[derive(Drop, Debug)]
pub struct FilePath {
    text: String,
}

impl std::marker::Model for FilePath {
    ghost use Rattle.std.specs.Prelude.{ℕ, List};
    ghost use Rattle.std.specs.String.{string_bytes};

    ghost Value = { List ℕ };

    ghost view = { λ path. string_bytes path.text };
}

impl FilePath {
    /// The word as a path.
    pub fn new(alloc: Global, word: &str) -> Result<FilePath, NoMemory>
        ensures { IfOk result (λ path. path ≡ word.now) }
    {
        Ok(FilePath {
            text: String::from_str(alloc, word)?,
        })
    }

    /// The path as text.
    pub fn as_str(&self) -> &str
        ensures { result.now ≡ self.now }
    {
        self.text.as_str()
    }
}
