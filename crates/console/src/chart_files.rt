// Where paths lead: to the files below a folder, or to those that the program carries.
ghost use Rattle.std.specs.Prelude.{◌≡◌, ⊤, false, IfOk};
ghost use Rattle.console.specs.Sessions.{bytes_of};
ghost use Rattle.console.specs.Lines.{Fetches, Stores};

use std::alloc::AllocError;
use std::fs;

/// Where the paths of chart files and of pictures lead. `fetches` says what is fetched for a path, and `stores` what storing comes to; of
/// files on a disk neither says anything, since no contract can.
pub trait Files: Drop {
    ghost fetches: { Self → Fetches };

    ghost stores: { Self → Stores };

    /// The bytes of the file at a path; none where it can't be read. An error is want of memory.
    fn fetch(&self, rt: &HostRuntime, path: &str) -> Result<Option<Vec<u8>>, AllocError>
        ensures { IfOk result (λ file. fetches self.now path.now (bytes_of file)) };

    /// Stores the bytes as the file at a path, in place of one that is there; whether this could be done.
    fn store(&self, rt: &HostRuntime, path: &str, bytes: &[u8]) -> bool
        ensures { stores self.now path.now bytes.now result };
}

/// Paths lead to the files below the working folder.
#[derive(Clone, Copy)]
pub struct FolderFiles;

impl Files for FolderFiles {
    ghost fetches = { λ _ _ _. ⊤ };

    ghost stores = { λ _ _ _ _. ⊤ };

    fn fetch(&self, rt: &HostRuntime, path: &str) -> Result<Option<Vec<u8>>, AllocError> {
        Ok(fs::read(rt, path).ok())
    }

    fn store(&self, rt: &HostRuntime, path: &str, bytes: &[u8]) -> bool {
        fs::write(rt, path, bytes).is_ok()
    }
}

// A chart of four fixes and five legs.
const FOUR_FIXES: &[u8] =
    b"CH\x04\x00\x05FX\x05TEFFAFX\x04ESCRFX\x05RIDGEFX\x03SCPLG\x00\x01\x00\x00\x01\x2c\x00\x00\x01\x90\x01\x86LG\x01\x03\x00\x00\x01\x2c\x00\x00\x01\xf4\x01\x5eLG\x00\x02\x00\x00\x00\xc8\x00\x00\x02\x58\x01\x9aLG\x02\x03\x00\x00\x00\xfa\x00\x00\x01\xc2\x01\x72LG\x01\x02\x00\x00\x00\x32\x00\x00\x00\x64\x01\x4aEN";

// Two fixes and no legs, without the last byte.
const CUT: &[u8] = b"CH\x02\x00\x00FX\x02AAFX\x02BBE";

// Two fixes of one name.
const REPEATED: &[u8] = b"CH\x02\x00\x00FX\x02AAFX\x02AAEN";

// A leg whose low time is above its high.
const REVERSED: &[u8] =
    b"CH\x02\x00\x01FX\x02AAFX\x02BBLG\x00\x01\x00\x00\x01\xf4\x00\x00\x01\x90\x01\x86EN";

// The built-in file of a name.
fn built_in_file(path: &str) -> Option<&'static [u8]> {
    match path {
        "four-fixes.chart" => Some(FOUR_FIXES),
        "cut.chart" => Some(CUT),
        "repeated.chart" => Some(REPEATED),
        "reversed.chart" => Some(REVERSED),
        _ => None,
    }
}

/// Paths lead to the four files that the program carries, each by its name alone.
#[derive(Clone, Copy)]
pub struct BuiltInFiles;

impl Files for BuiltInFiles {
    ghost fetches = { λ _ _ _. ⊤ };

    ghost stores = { λ _ _ _ stored. stored ≡ false };

    fn fetch(&self, rt: &HostRuntime, path: &str) -> Result<Option<Vec<u8>>, AllocError> {
        built_in_file(path)
            .map(|bytes| Vec::from_slice(rt.alloc(), bytes))
            .transpose()
    }

    // The program carries files, and takes none.
    fn store(&self, _rt: &HostRuntime, _path: &str, _bytes: &[u8]) -> bool {
        false
    }
}
