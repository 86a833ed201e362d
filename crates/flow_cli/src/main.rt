//! The program `flow`: gives its words and standard streams to the exchange, and for the words `keep FILE`, `serve FILE` and `host FILE` that file too.
#![tactic(auto)]

use disk_edge::PathDisk;
use flow_exchange::{Status, flow};
use flow_io::{StdSink, StdSource};
use kept_exchange::{flow_disk, flow_host, flow_lines, hosted_file, kept_file, served_file};
use std::fs::File;
use std::io::ErrorKind;
use std::process::ExitCode;
use std::{env, io};

// Returns the words after the program's name. A word that isn't text makes the command line faulty.
fn words(rt: &HostRuntime) -> Result<Vec<String>, Status> {
    match env::args(rt) {
        Ok(args) => args
            .skip(1)
            .collect(rt.alloc())
            .map_err(|_| Status::NoMemory),
        Err(error) if error.kind() == ErrorKind::OutOfMemory => Err(Status::NoMemory),
        Err(_) => Err(Status::Usage),
    }
}

// Opens folders in the places of standard streams that are closed, so that no file that is opened later gets such a place, and is read
// or written as that stream. A read or write of a folder still fails.
fn hold_places(rt: &HostRuntime) -> [io::Result<File>; 3] {
    [
        File::open(rt, "/"),
        File::open(rt, "/"),
        File::open(rt, "/"),
    ]
}

fn main(rt: HostRuntime) -> ExitCode {
    let alloc = rt.alloc();
    let mut source = StdSource::new(rt.stdin());
    let mut out = StdSink::new(rt.stdout());
    let mut notes = StdSink::new(rt.stderr());
    let status = match words(&rt) {
        Ok(words) => match (kept_file(&words), served_file(&words), hosted_file(&words)) {
            (Some(path), _, _) => {
                let _held = hold_places(&rt);
                let mut disk = PathDisk::open(&rt, path);
                flow_disk(alloc, &mut source, &mut disk, &mut out, &mut notes)
            }
            (None, Some(path), _) => {
                let _held = hold_places(&rt);
                let mut disk = PathDisk::open(&rt, path);
                flow_lines(alloc, &mut source, &mut disk, &mut out, &mut notes)
            }
            (None, None, Some(path)) => {
                let _held = hold_places(&rt);
                let mut disk = PathDisk::open(&rt, path);
                flow_host(alloc, &mut source, &mut disk, &mut out, &mut notes)
            }
            (None, None, None) => flow(alloc, &words, &mut source, &mut out, &mut notes),
        },
        Err(status) => {
            let _ = status.write_line(&mut notes);
            status
        }
    };
    ExitCode::from(status.exit())
}
