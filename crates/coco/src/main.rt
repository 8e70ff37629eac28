//! The program: a store in the files of a folder, that takes transactions as request lines.
#![tactic(auto)]

pub mod arguments;
pub mod laws;
pub mod program;
pub mod top;

use arguments::{ending_without, folder_of, purpose_of};
use coco_ending::Ending;
use coco_gate::OpenGate;
use coco_host::FolderHost;
use coco_io::{StdSink, StdSource};
use coco_net::SeededNet;
use coco_power::SteadyPower;
use program::program;
use std::env;
use std::process::ExitCode;

fn main(rt: HostRuntime) -> ExitCode {
    let alloc = rt.alloc();
    let given: Result<Vec<String>, Ending> = match env::args(&rt) {
        Ok(arguments) => arguments.collect(alloc).map_err(|_| Ending::NoMemory),
        Err(error) => Err(ending_without(&error)),
    };
    let mut host = FolderHost::new(rt, folder_of(&given), purpose_of(&given), rt.stdout());
    let mut input = StdSource::new(rt);
    let mut errs = StdSink::new(rt);
    let mut net = SeededNet::new(alloc);
    let mut power = SteadyPower::new();
    let gate = OpenGate;
    let reported = program(
        &rt, alloc, &given, &mut host, &mut net, &mut power, &mut input, &mut errs, &gate,
    );
    ExitCode::from(reported.status)
}
