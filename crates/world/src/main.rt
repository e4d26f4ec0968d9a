// world IMAGE EVENTS: carries out a row of events from an image, and prints each byte that was said, in
// order, its line and the byte in hexadecimal; or says by number and place why they are not taken.
#![tactic(auto)]

use anyhow::{anyhow, bail};
use image::{Inputs, Unreadable};
use model::Fault;
use replay::{StartError, run_inputs};
use std::env;
use std::process::ExitCode;

fn world(rt: &HostRuntime) -> anyhow::Result<()> {
    let mut args = env::args(rt)?.skip(1);
    let (Some(image), Some(events), None) = (args.next(), args.next(), args.next()) else {
        bail!("usage: world IMAGE EVENTS");
    };
    let inputs = Inputs::read(rt, &image, &events).map_err(|unreadable| {
        let (path, e) = match unreadable {
            Unreadable::Image(e) => (&image, e),
            Unreadable::Events(e) => (&events, e),
        };
        anyhow!("cannot read {path}: {e}")
    })?;
    match run_inputs(rt.alloc(), &inputs) {
        Err(StartError::Refused(refusal)) => println!(rt; "{refusal}")?,
        Err(StartError::Fault(Fault::Memory)) => bail!("memory is used up"),
        Err(StartError::Fault(Fault::Numbers)) => bail!("numbers are used up"),
        Ok(replayed) => {
            for said in &replayed.said {
                println!(rt; "{said}")?;
            }
        }
    }
    Ok(())
}

fn main(rt: HostRuntime) -> ExitCode {
    if let Err(e) = world(&rt) {
        let _ = eprintln!(rt; "world: {e}");
        return ExitCode::FAILURE;
    }
    ExitCode::SUCCESS
}
