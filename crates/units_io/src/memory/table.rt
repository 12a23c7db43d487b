//! The bytes of each file, looked up by the bytes of its name.
ghost use Rattle.std.specs.Prelude.{◌≡◌, OnOk, OnErr};
ghost use Rattle.std.specs.Option.{option_copied};
ghost use Rattle.units_io.specs.FileMap.{no_files_in_map, file_of_name, with_file};

use crate::text::Text;
use crate::vars::Vars;
use std::alloc::{AllocError, Global};
use std::marker::Model;

/// Texts by name, which contracts see as a map.
#[derive(Drop)]
pub(super) struct FileTable {
    texts: Vars,
}

impl Model for FileTable {
    ghost use Rattle.units_io.specs.FileMap.{FileMap, file_map_code, files_of_named_texts};

    ghost Value = { FileMap };

    ghost coded = { file_map_code };

    ghost view = { λ t. files_of_named_texts t.texts };
}

impl FileTable {
    pub(super) fn new(alloc: Global) -> FileTable
        ensures { result ≡ no_files_in_map }
    {
        FileTable {
            texts: Vars::new(alloc),
        }
    }

    pub(super) fn get(&self, name: &[u8]) -> Option<&Text>
        ensures { option_copied result ≡ file_of_name self.now name.now }
    {
        self.texts.value(name)
    }

    /// Sets the bytes of a name, replacing any that it had. On an error nothing changes.
    pub(super) fn insert(
        &mut self,
        alloc: Global,
        name: &[u8],
        bytes: &[u8],
    ) -> Result<(), AllocError>
        ensures ok { OnOk result (self.new ≡ with_file self.old name.now bytes.now) }
        ensures err { OnErr result (self.new ≡ self.old) }
    {
        let name = Text::from_bytes(alloc, name)?;
        let bytes = Text::from_bytes(alloc, bytes)?;
        self.texts.set(alloc, name, bytes)
    }
}
