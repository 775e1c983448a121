// mkdisc LIST IMAGE makes a disc image from a list; mkdisc read IMAGE FOLDER writes the list and the files of an image back.
#![tactic(auto)]

ghost use Rattle.std.specs.Prelude.{◌≡◌, ◌<◌, [], map, vec_items, slice_index_or, IfOk};
ghost use Rattle.disc.specs.Blocks.{blocks};
ghost use Rattle.disc.specs.Layout.{plan_of, files_on};
ghost use Rattle.disc.specs.Check.{Taken, Holds};

use disc::check::check_disc;
use disc::format::{format, image_size};
use disc::read::{file_length, read_file};
use loading::{Loaded, Told, load_list, tell_memory};
use std::fmt::Display;
use std::path::Path;
use std::process::ExitCode;
use std::{env, fs};
use turns::vocabulary::Sizes;

const USAGE: &str = "usage: mkdisc LIST IMAGE | mkdisc read IMAGE FOLDER";

// As in loading, where it is private too: a new public function owes a promise, and no clause can say what is printed.
fn tell<M: Display + Drop>(rt: &HostRuntime, message: M) -> Told {
    let _ = eprintln!(rt; "{message}");
    Told
}

// An image with just these files, in memory.
fn image_of(rt: &HostRuntime, list: &str, loaded: &Loaded) -> Result<Vec<u8>, Told>
    ensures { IfOk result (λ image. Holds loaded.now.sizes (blocks image.items) (map vec_items loaded.now.files.items)) }
{
    let size = image_size(loaded.sizes).map_err(|_| tell(
        rt,
        format_args!("{list}: a size is out of range"),
    ))?;
    let mut image = vec![in rt.alloc(); 0u8; size].map_err(|_| tell_memory(rt))?;
    format(image.as_mut_slice(), loaded.sizes, &loaded.files).map_err(|_| tell(
        rt,
        format_args!("{list}: a file is longer than the sizes allow"),
    ))?;
    Ok(image)
}

// Makes an image; nothing is written if anything is wrong.
fn make(rt: &HostRuntime, list: &str, path: &str) -> Result<(), Told> {
    let loaded = load_list(rt, list)?;
    let image = image_of(rt, list, &loaded)?;
    write(rt, path, &image)
}

fn write(rt: &HostRuntime, path: &str, bytes: &[u8]) -> Result<(), Told> {
    fs::write(rt, path, bytes).map_err(|_| tell(rt, format_args!("{path} cannot be written")))
}

// What is in a file of a disc that is taken.
fn file_of(rt: &HostRuntime, image: &[u8], sizes: Sizes, f: usize) -> Result<Vec<u8>, Told>
    requires taken { Taken sizes (blocks image.now) }
    requires file { f < sizes.files }
    ensures { IfOk result (λ bytes. bytes.items ≡ slice_index_or (files_on (plan_of sizes) (blocks image.now)) f []) }
{
    let n = file_length(image, sizes, f);
    let mut bytes = vec![in rt.alloc(); 0u8; n].map_err(|_| tell_memory(rt))?;
    read_file(image, sizes, f, 0, bytes.as_mut_slice());
    Ok(bytes)
}

// A file of a folder.
fn write_in(rt: &HostRuntime, folder: &str, name: &str, bytes: &[u8]) -> Result<(), Told> {
    let path = Path::new(folder)
        .join(rt.alloc(), name)
        .map_err(|_| tell_memory(rt))?;
    write(rt, path.as_path().as_str(), bytes)
}

// The lines of a list that give the sizes. One text, and no loop over the names, since a text that grows may fail at each line.
fn size_lines(rt: &HostRuntime, z: Sizes) -> Result<String, Told> {
    let text = format!(in rt.alloc();
        "processes {}\nopens {}\npipes {}\nhandles {}\nmemory {}\npipe {}\nfile {}\nfiles {}\nscreens {}\nturn {}\n",
        z.processes,
        z.opens,
        z.pipes,
        z.handles,
        z.memory,
        z.pipe,
        z.file,
        z.files,
        z.screens,
        z.turn
    );
    text.map_err(|_| tell_memory(rt))
}

// One file of a disc is written beside the list, and named in it; an empty one needs no line.
fn write_file(
    rt: &HostRuntime,
    image: &[u8],
    sizes: Sizes,
    f: usize,
    folder: &str,
    lines: &mut String,
) -> Result<(), Told>
    requires taken { Taken sizes (blocks image.now) }
    requires file { f < sizes.files }
{
    let bytes = file_of(rt, image, sizes, f)?;
    if bytes.is_empty() {
        return Ok(());
    }
    let name = format!(in rt.alloc(); "file{f}").map_err(|_| tell_memory(rt))?;
    let line = format!(in rt.alloc(); "put {f} {name}\n").map_err(|_| tell_memory(rt))?;
    lines.push_str(&line).map_err(|_| tell_memory(rt))?;
    write_in(rt, folder, &name, &bytes)
}

// The way back: the list and the files of an image.
fn read_back(rt: &HostRuntime, path: &str, folder: &str) -> Result<(), Told> {
    let image = fs::read(rt, path).map_err(|_| tell(rt, format_args!("{path} cannot be read")))?;
    let sizes = check_disc(&image).map_err(|refusal| tell(rt, format_args!("{path}: {refusal}")))?;
    fs::create_dir_all(rt, folder).map_err(|_| tell(rt, format_args!("{folder} cannot be made")))?;
    let mut lines = size_lines(rt, sizes)?;
    for f in 0..sizes.files as usize {
        write_file(rt, &image, sizes, f, folder, &mut lines)?;
    }
    write_in(rt, folder, "list", lines.as_bytes())
}

// What the words of the command line ask for.
fn start(rt: &HostRuntime) -> Result<(), Told> {
    let mut words = env::args(rt).map_err(|_| Told)?;
    let _ = words.next();
    match (words.next(), words.next(), words.next()) {
        (Some(list), Some(image), None) => make(rt, &list, &image),
        (Some(word), Some(image), Some(folder)) => {
            if word.as_str() == "read" {
                return read_back(rt, &image, &folder);
            }
            Err(tell(rt, USAGE))
        }
        _ => {
            let _ = println!(rt; "{USAGE}");
            Ok(())
        }
    }
}

// What was wrong has been told, so nothing more is printed.
fn main(rt: HostRuntime) -> ExitCode {
    match start(&rt) {
        Ok(()) => ExitCode::SUCCESS,
        Err(Told) => ExitCode::FAILURE,
    }
}
