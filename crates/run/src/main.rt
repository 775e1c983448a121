// run IMAGE EVENTS [FRAMES [BYTES]]: the machine on a disc image. A disc, frames or events that are refused are reported, and the image is left alone; the
// machine itself is not carried out yet.
#![tactic(auto)]

use inputs::refusals::check_all;
use loading::{Told, load_events};
use std::fmt::Display;
use std::process::ExitCode;
use std::{env, fs};

const USAGE: &str = "usage: run IMAGE EVENTS [FRAMES [BYTES]]";

// So many frames always do: 64 processes of 256 pages each, and 80 for the tables.
const MOST_FRAMES: u32 = 16_464;

// As in loading, where it is private too: a new public function owes a promise, and no clause can say what is printed.
fn tell<M: Display + Drop>(rt: &HostRuntime, message: M) -> Told {
    let _ = eprintln!(rt; "{message}");
    Told
}

// Tells what is refused; what is taken is not run yet.
fn run(rt: &HostRuntime, image: &str, events: &str, frames: u32) -> Result<(), Told> {
    let disc = fs::read(rt, image).map_err(|_| tell(rt, format_args!("{image} cannot be read")))?;
    let events = load_events(rt, events)?;
    let lent = frames as usize * 4096;
    let Err(refusal) = check_all(&disc, lent, &events) else {
        return Err(tell(
            rt,
            format_args!("{image} is taken; the machine is not carried out yet"),
        ));
    };
    let _ = println!(rt; "{refusal}");
    Ok(())
}

// What the words of the command line ask for.
fn start(rt: &HostRuntime) -> Result<(), Told> {
    let mut words = env::args(rt).map_err(|_| Told)?;
    let _ = words.next();
    let (Some(image), Some(events)) = (words.next(), words.next()) else {
        let _ = println!(rt; "{USAGE}");
        return Ok(());
    };
    let frames = match words.next() {
        None => MOST_FRAMES,
        Some(word) => word.parse::<u32>().map_err(|_| tell(rt, USAGE))?,
    };
    run(rt, &image, &events, frames)
}

// What was wrong has been told, so nothing more is printed.
fn main(rt: HostRuntime) -> ExitCode {
    match start(&rt) {
        Ok(()) => ExitCode::SUCCESS,
        Err(Told) => ExitCode::FAILURE,
    }
}
