//! The files that the words name, read one after another.

ghost use Rattle.std.specs.Prelude.{◌≡◌, ◌<◌, ◌≤◌, None, All, IfErr, IfOk, OnOk, length, vec_len};
ghost use Rattle.dt_io.specs.Files.{Held};
ghost use Rattle.dt_io.specs.Folders.{IsOnlyRead};
ghost use Rattle.dt_forms.specs.FileFaults.{fault_of_files, file_fault};
ghost use Rattle.dt_forms.specs.Sources.{AreSources, IsSourceAt};
ghost use Rattle.dt_forms.specs.View.{texts_of};
ghost use Rattle.dt_tool.specs.Refusals.{RefusesFault};
ghost use Rattle.dt_tool.specs.Stops.{AreLoaded, StopsLoad, StopsLoading};
ghost use Rattle.dt_tool.specs.View.{contents};

use crate::messages;
use crate::messages::Inputs;
use crate::refusal::Refusal;
use crate::stop::{Stop, read_fault, refuse, stop_of};
use dt_forms::Source;
use dt_io::{Folder, LoadFault, read_all};
use dt_lines::LARGEST_FILE;
use dt_model::MOST_FILES;
use dt_values::Width;
use dt_words::Text;
use std::alloc::Global;

/// The bytes of the files, in their order. The reading stops at the first file that isn't there, isn't read or has more
/// than `limit` bytes.
pub fn load_all<D: Folder>(
    alloc: Global,
    names: &[Text],
    limit: usize,
    folder: &mut D,
) -> Result<Vec<Vec<u8>>, Stop>
    ensures loaded { IfOk result (λ files.
        AreLoaded limit (D.seen folder.old).files names.now (contents files.items)) }
    ensures stop { IfErr result (StopsLoading limit (D.seen folder.old) (D.seen folder.new) names.now) }
    ensures only { IsOnlyRead (D.seen folder.old) (D.seen folder.new) }
{
    let mut files = Vec::new(alloc);
    for name in names {
        let bytes = load(alloc, name.as_str(), limit, folder)?;
        match files.push(bytes) {
            Ok(()) => {}
            Err(_) => return Err(Stop::NoMemory),
        }
    }
    Ok(files)
}

/// The bytes of a file of at most `limit` bytes.
pub fn load<D: Folder>(
    alloc: Global,
    name: &str,
    limit: usize,
    folder: &mut D,
) -> Result<Vec<u8>, Stop>
    ensures file { IfOk result (λ bytes. Held (D.seen folder.old).files name.now (λ held. bytes.items ≡ held)) }
    ensures limit { IfOk result (λ bytes. vec_len bytes ≤ limit) }
    ensures bytes { IfOk result (λ bytes. All (λ b. b < 256) bytes.items) }
    ensures stop { IfErr result (λ stop. StopsLoad limit (D.seen folder.old) (D.seen folder.new) name.now stop) }
    ensures only { IsOnlyRead (D.seen folder.old) (D.seen folder.new) }
{
    match read_all(alloc, folder, name, limit as u64) {
        Ok(bytes) => Ok(bytes),
        Err(LoadFault::Missing | LoadFault::Failed) => {
            Err(read_fault(messages::cannot_read(alloc, name)))
        }
        Err(LoadFault::TooLarge) => Err(refuse(alloc, Refusal::K0, Some(name))),
        Err(LoadFault::NoMemory) => Err(Stop::NoMemory),
    }
}

/// The files of these bytes with their lines.
pub fn sources_of(
    alloc: Global,
    width: Width,
    names: &[Text],
    files: Vec<Vec<u8>>,
) -> Result<Vec<Source>, Stop>
    requires few { length files.items ≤ MOST_FILES }
    requires small { All (λ file. length file ≤ LARGEST_FILE) (contents files.items) }
    ensures sources { IfOk result (λ sources. AreSources sources.items) }
    ensures texts { IfOk result (λ sources. texts_of sources.items ≡ contents files.items) }
    ensures count { IfOk result (λ sources. length sources.items ≡ length files.items) }
    ensures kept { OnOk result (fault_of_files 0 (contents files.items) ≡ None) }
    ensures stop { IfErr result (λ stop.
        RefusesFault stop width names.now (fault_of_files 0 (contents files.items))) }
{
    let mut sources = Vec::new(alloc);
    for bytes in files {
        let source = source_of(alloc, width, names, sources.len() as u16, bytes)?;
        match sources.push(source) {
            Ok(()) => {}
            Err(_) => return Err(Stop::NoMemory),
        }
    }
    Ok(sources)
}

// The file of these bytes at this place with its lines.
fn source_of(
    alloc: Global,
    width: Width,
    names: &[Text],
    place: u16,
    bytes: Vec<u8>,
) -> Result<Source, Stop>
    requires { vec_len bytes ≤ LARGEST_FILE }
    ensures source { IfOk result (IsSourceAt place) }
    ensures bytes { IfOk result (λ source. source.bytes ≡ bytes.items) }
    ensures kept { OnOk result (file_fault place bytes.items ≡ None) }
    ensures stop { IfErr result (λ stop. RefusesFault stop width names.now (file_fault place bytes.items)) }
{
    match Source::read(alloc, place, bytes) {
        Ok(source) => Ok(source),
        Err(fault) => {
            let inputs = Inputs {
                width,
                names,
                sources: &[],
            };
            Err(stop_of(alloc, inputs, fault))
        }
    }
}
