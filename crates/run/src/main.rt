// run IMAGE EVENTS: takes an image and a row of events, or says by number and place why not.
#![tactic(auto)]

use anyhow::{anyhow, bail};
use image::{Inputs, Unreadable};
use std::env;
use std::process::ExitCode;

fn run(rt: &HostRuntime) -> anyhow::Result<()> {
    let mut args = env::args(rt)?.skip(1);
    let (Some(image), Some(events), None) = (args.next(), args.next(), args.next()) else {
        bail!("usage: run IMAGE EVENTS");
    };
    let inputs = Inputs::read(rt, &image, &events).map_err(|unreadable| {
        let (path, e) = match unreadable {
            Unreadable::Image(e) => (&image, e),
            Unreadable::Events(e) => (&events, e),
        };
        anyhow!("cannot read {path}: {e}")
    })?;
    match inputs.check() {
        Err(refusal) => println!(rt; "{refusal}")?,
        Ok(_) => bail!(
            "the image and its events are taken, but carrying out events is not built yet"
        ),
    }
    Ok(())
}

fn main(rt: HostRuntime) -> ExitCode {
    if let Err(e) = run(&rt) {
        let _ = eprintln!(rt; "run: {e}");
        return ExitCode::FAILURE;
    }
    ExitCode::SUCCESS
}
