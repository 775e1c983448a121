// The world carried out as it is defined. It is not built yet: this says so, and how it will be called.
#![tactic(auto)]

use anyhow::anyhow;
use std::env;

const USAGE: &str = "usage: world LIST EVENTS [WORD]";

fn main(rt: HostRuntime) -> anyhow::Result<()> {
    let words = env::args(&rt)?.count();
    if words < 3 {
        println!(rt; "{USAGE}")?;
        return Ok(());
    }
    Err(anyhow!("world: the world is defined and proved of, and not carried out as a program yet"))
}
