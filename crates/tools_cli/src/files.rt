//! The trusted edge: files of traces, and the files of parts in a folder. No contract can say what they hold.

ghost use Rattle.std.specs.{Prelude.{◌≡◌, ◌<◌, ◌≤◌, All, IfOk, length}, Io.ReadsAtMost};
ghost use Rattle.marple_base.specs.{Faults.HasCause, Inputs.{IsClosed, fresh_untold}, declared.inputs.Which.TheVariants.Trace};
ghost use Rattle.tools_cli.specs.Files.{trace_input};

use marple_base::{Failed, Inputs, Which};
use std::alloc::AllocError;
use std::fs::{File, OpenOptions};
use std::io::{Read, Write};
use trace_ranges::Ranged;
use trace_split::Parts;

/// The file of a trace, which a word names. It has no query. At its end it is closed, so there may be more traces than a process may
/// have open files.
#[derive(Drop)]
pub struct TraceFile<'a> {
    rt: HostRuntime,
    name: &'a String,
    file: Option<File>,
    is_open: bool,
    faults: u64,
}

impl<'a> TraceFile<'a> {
    /// It isn't open yet.
    pub fn new(rt: HostRuntime, name: &'a String) -> TraceFile<'a>
        ensures { trace_input result Trace ≡ fresh_untold }
    {
        TraceFile {
            rt,
            name,
            file: None,
            is_open: false,
            faults: 0,
        }
    }

    fn read_file(&mut self, buf: &mut [u8]) -> Result<usize, Failed>
        ensures bound { ReadsAtMost result buf.new }
        ensures same { self.new.is_open ≡ self.old.is_open }
        ensures cause { HasCause self.old.faults self.new.faults result }
    {
        let Some(file) = &mut self.file else {
            return Ok(0);
        };
        match file.read(buf) {
            Ok(0) => {
                self.file = None;
                Ok(0)
            }
            Ok(count) => Ok(count),
            Err(_) => {
                self.faults = self.faults.saturating_add(1);
                Err(Failed)
            }
        }
    }
}

/// The files of the traces that these words name. None is open yet.
pub fn trace_files<'a>(
    rt: HostRuntime,
    names: &'a [String],
) -> Result<Vec<Ranged<TraceFile<'a>>>, AllocError>
    ensures { IfOk result (λ files. All (λ file. IsClosed (trace_input file.inputs Trace)) files.items) }
{
    let mut files = Vec::new(rt.alloc());
    for name in names {
        files.push(Ranged::new(TraceFile::new(rt, name)))?;
    }
    Ok(files)
}

impl Inputs for TraceFile<'_> {
    ghost use Rattle.tools_cli.specs.Files.{trace_input};

    ghost input = { trace_input };

    fn open(&mut self, which: Which) -> Result<(), Failed> {
        match which {
            Which::Query => Err(Failed),
            Which::Trace => match File::open(&self.rt, self.name.as_str()) {
                Ok(file) => {
                    self.file = Some(file);
                    self.is_open = true;
                    Ok(())
                }
                Err(_) => {
                    self.faults = self.faults.saturating_add(1);
                    Err(Failed)
                }
            },
        }
    }

    fn read(&mut self, which: Which, buf: &mut [u8]) -> Result<usize, Failed> {
        match which {
            Which::Query => Err(Failed),
            Which::Trace => self.read_file(buf),
        }
    }
}

// Notes that the file of a part was made.
fn note_made(made: &mut Vec<bool>, part: usize) -> Result<(), AllocError> {
    for _turn in made.len()..part.saturating_add(1) {
        made.push(false)?;
    }
    if let Some(is_made) = made.get_mut(part) {
        *is_made = true;
    }
    Ok(())
}

/// The files `part-0.csv`, `part-1.csv` and so on, in a folder that is there. Each is made when it is first written to, and
/// is open only while it is written to: so there may be more parts than a process may have open files.
#[derive(Drop)]
pub struct FileParts<'a> {
    rt: HostRuntime,
    folder: Option<&'a String>,
    // by number, which files were made
    made: Vec<bool>,
    faults: u64,
}

impl<'a> FileParts<'a> {
    /// No file is made yet. Where no folder is named, none will be.
    pub fn new(rt: HostRuntime, folder: Option<&'a String>) -> FileParts<'a> {
        let made = Vec::new(rt.alloc());
        FileParts {
            rt,
            folder,
            made,
            faults: 0,
        }
    }

    // The path of a part.
    fn path(&self, folder: &String, part: usize) -> Result<String, AllocError> {
        let alloc = self.rt.alloc();
        let mut path = folder.clone()?;
        path.push_str("/part-")?;
        let number = format!(in alloc; "{part}")?;
        path.push_str(number.as_str())?;
        path.push_str(".csv")?;
        Ok(path)
    }

    // Opens the file of a part at its end, or makes it.
    fn open(&mut self, part: usize) -> Result<File, Failed>
        ensures { self.new.faults ≡ self.old.faults }
    {
        let Some(folder) = self.folder else {
            return Err(Failed);
        };
        let Ok(path) = self.path(folder, part) else {
            return Err(Failed);
        };
        let is_made = self.made.get(part).copied().unwrap_or(false);
        if is_made {
            let Ok(file) = OpenOptions::new()
                .append(true)
                .open(&self.rt, path.as_str())
            else {
                return Err(Failed);
            };
            return Ok(file);
        }
        let Ok(file) = File::create(&self.rt, path.as_str()) else {
            return Err(Failed);
        };
        if note_made(&mut self.made, part).is_err() {
            return Err(Failed);
        }
        Ok(file)
    }

    // Writes some first bytes of a piece to the file of a part.
    fn take(&mut self, part: usize, piece: &[u8]) -> Result<usize, Failed>
        ensures count { IfOk result (λ n. (0 < n) × (n ≤ length piece.now)) }
        ensures same { self.new.faults ≡ self.old.faults }
    {
        let mut file = self.open(part)?;
        match file.write(piece) {
            Ok(count) if count > 0 => Ok(count),
            _ => Err(Failed),
        }
    }
}

impl Parts for FileParts<'_> {
    ghost use Rattle.std.specs.Prelude.{None};
    ghost use Rattle.tools_cli.specs.Files.{part_faults};

    ghost taken = { λ _ _. None };

    ghost faults = { part_faults };

    fn write(&mut self, part: u32, piece: &[u8]) -> Result<usize, Failed> {
        match self.take(part as usize, piece) {
            Ok(count) => Ok(count),
            Err(Failed) => {
                self.faults = self.faults.saturating_add(1);
                Err(Failed)
            }
        }
    }
}
