// A list with the files that it names, read from where they are. What is wrong is told on standard error, in one line that names the place.
#![tactic(auto)]

ghost use Rattle.std.specs.Prelude.{◌≡◌, ◌≤◌, true, length, All, IfOk, Some, None, [], vec_len, OnOk};
ghost use Rattle.turns.specs.Ranges.{InRange};
ghost use Rattle.inputs.specs.Lists.{Within};
ghost use Rattle.loading.specs.Events.{names_script, AreInputs};

use disc::check::first_out;
use inputs::lists::{DiscList, Put, read_list};
use inputs::scripts::{ScriptError, read_script};
use std::fmt::Display;
use std::fs;
use std::path::{Path, PathBuf};
use std::str::from_utf8;
use turns::sizes::SizeName;
use turns::vocabulary::Sizes;

// Something was wrong, and it has been told.
#[derive(Clone, Copy, Debug, PartialEq, Eq)]
pub struct Told;

// What a list stands for: the sizes, and what is in each file.
#[derive(Drop)]
pub struct Loaded {
    pub sizes: Sizes,
    pub files: Vec<Vec<u8>>,
}

// Private, though mkdisc and run have the same: a new public function owes a promise, and no clause can say what is printed.
fn tell<M: Display + Drop>(rt: &HostRuntime, message: M) -> Told {
    let _ = eprintln!(rt; "{message}");
    Told
}

// There is not enough memory.
pub fn tell_memory(rt: &HostRuntime) -> Told {
    tell(rt, "there is not enough memory")
}

// The range of a size, in words.
fn range_of(name: SizeName) -> &'static str {
    match name {
        SizeName::Processes => "1 to 64",
        SizeName::Opens => "1 to 256",
        SizeName::Pipes => "0 to 64",
        SizeName::Handles => "3 to 16",
        SizeName::Memory => "4096 to 1048576, a multiple of 4096",
        SizeName::Pipe => "1 to 4096",
        SizeName::File => "0 to 262144",
        SizeName::Files => "1 to 64",
        SizeName::Screens => "1 to 16",
        SizeName::Turn => "1 to 65535",
    }
}

// The handle, the list's name and a line go through these functions one by one: what is wrong is told where it is found, in its own words.
// The sizes of a list are in range, or the first that is not is told.
fn check_range(rt: &HostRuntime, list: &str, found: &DiscList) -> Result<(), Told>
    ensures { OnOk result (InRange found.now.sizes) }
{
    let Some(name) = first_out(found.sizes) else {
        return Ok(());
    };
    let line = found.lines[name.place()];
    let range = range_of(name);
    Err(tell(
        rt,
        format_args!("{list}:{line}: {name} is out of range: it may be {range}"),
    ))
}

// A path that is relative to the folder of a list.
fn beside(rt: &HostRuntime, list: &str, path: &str) -> Result<PathBuf, Told> {
    let whole = match Path::new(list).parent() {
        Some(folder) => folder.join(rt.alloc(), path),
        None => PathBuf::from_str(rt.alloc(), path),
    };
    whole.map_err(|_| tell_memory(rt))
}

// What is in the file that a line of a list names.
fn load_file(rt: &HostRuntime, list: &str, line: usize, path: &[u8]) -> Result<Vec<u8>, Told> {
    let path = from_utf8(path).map_err(|_| tell(
        rt,
        format_args!("{list}:{line}: the path is no text"),
    ))?;
    let whole = beside(rt, list, path)?;
    fs::read(rt, whole.as_path()).map_err(|_| tell(
        rt,
        format_args!("{list}:{line}: {path} cannot be read"),
    ))
}

// What is in a file: what its line names, or nothing if it has none.
fn load_put(
    rt: &HostRuntime,
    list: &str,
    text: &[u8],
    put: Option<Put>,
    most: u32,
) -> Result<Vec<u8>, Told>
    requires { (p : Put) → put ≡ Some p → Within (length text.now) p.path }
    ensures long { IfOk result (λ bytes. vec_len bytes ≤ most) }
    ensures none { put ≡ None → IfOk result (λ bytes. bytes.items ≡ []) }
{
    let Some(put) = put else {
        return Ok(Vec::new(rt.alloc()));
    };
    let line = put.line;
    let bytes = load_file(rt, list, line, put.path.of(text))?;
    let n = bytes.len();
    if n > most as usize {
        return Err(tell(
            rt,
            format_args!("{list}:{line}: these are {n} bytes, and a file may have {most}"),
        ));
    }
    Ok(bytes)
}

// What a list stands for.
pub fn load_list(rt: &HostRuntime, list: &str) -> Result<Loaded, Told>
    ensures range { IfOk result (λ l. InRange l.sizes) }
    ensures count { IfOk result (λ l. vec_len l.files ≡ l.sizes.files) }
    ensures long { IfOk result (λ l. All (λ bytes. vec_len bytes ≤ l.sizes.file) l.files.items) }
{
    let text = fs::read(rt, list).map_err(|_| tell(rt, format_args!("{list} cannot be read")))?;
    let found = read_list(&text).map_err(|fault| tell(rt, format_args!("{list}:{fault}")))?;
    check_range(rt, list, &found)?;
    let sizes = found.sizes;
    let mut files = Vec::new(rt.alloc());
    for put in &found.puts[..sizes.files as usize] {
        let bytes = load_put(rt, list, &text, *put, sizes.file)?;
        files.push(bytes).map_err(|_| tell_memory(rt))?;
    }
    Ok(Loaded { sizes, files })
}

// Whether the text of a file is a script, by its name.
fn names_script(path: &str) -> bool
    ensures { result ≡ names_script path.now }
{
    path.as_bytes().ends_with(b".txt")
}

// A row of events: the bytes of a file, or what its text says if its name ends in `.txt`.
pub fn load_events(rt: &HostRuntime, path: &str) -> Result<Vec<u8>, Told>
    ensures { names_script path.now ≡ true → IfOk result AreInputs }
{
    let bytes = fs::read(rt, path).map_err(|_| tell(rt, format_args!("{path} cannot be read")))?;
    if !names_script(path) {
        return Ok(bytes);
    }
    read_script(rt.alloc(), &bytes).map_err(|error| match error {
        ScriptError::Line(line, wrong) => tell(rt, format_args!("{path}:{line}: {wrong}")),
        ScriptError::NoMemory => tell_memory(rt),
    })
}
