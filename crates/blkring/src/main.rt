//! The program `blkring`: its command line, input, disk, output and error output over the real
//! streams and files. All that it does is `commands::blkring`.
#![tactic(auto)]

use blk_io::{BufferedSink, ReaderSource, WriterSink};
use commands::{Stop, blkring, stop_with};
use image_disk::FileDisk;
use std::fs::{OpenFile, OpenOptions};
use std::process::ExitCode;
use std::rt::Files;
use std::{env, io};

fn main(rt: HostRuntime) -> ExitCode {
    // Where a standard stream is closed, the image would get its number and be read or written in its
    // place. A folder takes each such number: it can be neither read nor written.
    let _folders = [folder(&rt), folder(&rt), folder(&rt)];
    let mut err = WriterSink::new(rt.stderr());
    let words = match words(&rt) {
        Ok(words) => words,
        Err(stop) => return ExitCode::from(stop_with(&mut err, stop)),
    };
    let Ok(files) = rt.clone() else {
        return ExitCode::from(stop_with(&mut err, Stop::OutOfMemory));
    };
    let status = blkring(
        rt.alloc(),
        words.as_slice(),
        &mut ReaderSource::new(rt.stdin()),
        &mut FileDisk::new(rt.alloc(), files),
        &mut BufferedSink::new(WriterSink::new(rt.stdout())),
        &mut err,
    );
    ExitCode::from(status)
}

fn folder<R: Files>(files: &R) -> Option<R::File> {
    OpenOptions::new().read(true).open(files, "/").ok()
}

// The words after the program's name. Where one of them isn't text they ask for nothing.
fn words(rt: &HostRuntime) -> Result<Vec<String>, Stop> {
    let mut args = match env::args(rt) {
        Ok(args) => args,
        Err(e) if e.kind() == io::ErrorKind::OutOfMemory => return Err(Stop::OutOfMemory),
        Err(_) => return Err(Stop::Words),
    };
    let _program = args.next();
    Ok(args.collect(rt.alloc())?)
}
