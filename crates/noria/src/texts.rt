//! Where the texts of files come from.
ghost use Rattle.std.specs.Prelude.{◌≡◌, ◌⊎◌, IfErr};
ghost use Rattle.row.specs.declared.refused.Refused.TheVariants.{NoMemory, CannotRead};

use row::refused::Refused;
use std::{fs, io};

/// Where the texts of files come from.
pub trait Texts {
    /// The bytes of the file of this name. Refused with `CannotRead`, or `NoMemory`.
    fn text(&mut self, name: &str) -> Result<Vec<u8>, Refused>
        ensures { IfErr result (λ e. (e ≡ NoMemory) ⊎ (e ≡ CannotRead)) };
}

/// The files that the process can read.
#[derive(Drop)]
pub struct FileTexts<'r>(pub &'r HostRuntime);

impl Texts for FileTexts<'_> {
    fn text(&mut self, name: &str) -> Result<Vec<u8>, Refused> {
        match fs::read(self.0, name) {
            Ok(bytes) => Ok(bytes),
            Err(error) if error.kind() == io::ErrorKind::OutOfMemory => Err(Refused::NoMemory),
            Err(_) => Err(Refused::CannotRead),
        }
    }
}
