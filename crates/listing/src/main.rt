// The listing program: reads the two tables and the order's sheet from the current directory, and writes their listing. What is
// written is decided by `report::listing`; here is only what reads and writes.
#![tactic(auto)]

ghost use Rattle.std.specs.Io.{ReadsAtMost};

use failure::Failure;
use std::fs::File;
use std::io::{self, ErrorKind, Read};
use std::process::ExitCode;
use std::rt::Files;

// A table of 1,025 records is one too many; a sheet of 257 boxes likewise. So more need not be read.
const TABLE: usize = 8200;

const SHEET: usize = 257;

// Room for the longest listing.
const PAGE: usize = 17000;

// Reads until buf is full or the file ends. Fixed memory needs the loop: `read_to_end` fills a `Vec`, and `read_exact` takes a file
// that is shorter than buf for an error.
fn read_all(file: &mut impl Read, buf: &mut [u8]) -> io::Result<usize>
    ensures { ReadsAtMost result buf.new }
{
    let mut done: usize = 0;
    while done < buf.len() {
        let more = file.read(&mut buf[done..])?;
        if more == 0 {
            break;
        }
        done += more;
    }
    Ok(done)
}

// Reads the file of this name, as far as buf goes. A missing file is empty.
fn load(rt: &impl Files, name: &'static str, buf: &mut [u8]) -> Result<usize, Failure>
    ensures { ReadsAtMost result buf.new }
{
    let read = match File::open(rt, name) {
        Ok(mut file) => read_all(&mut file, buf),
        Err(error) if error.kind() == ErrorKind::NotFound => Ok(0),
        Err(error) => Err(error),
    };
    read.map_err(|error| Failure { what: name, error })
}

fn list(rt: &(impl Files + Print)) -> Result<(), Failure> {
    let mut makers = [0; TABLE];
    let m = load(rt, "maker.tab", &mut makers)?;
    let mut depots = [0; TABLE];
    let d = load(rt, "depot.tab", &mut depots)?;
    let mut order = [0; SHEET];
    let b = load(rt, "order.sht", &mut order)?;
    let mut out = [0; PAGE];
    let n = report::listing::listing(&makers[..m], &depots[..d], &order[..b], &mut out);
    rt.write_all(&out[..n]).map_err(|error| Failure {
        what: "standard output",
        error,
    })
}

fn main(rt: HostRuntime) -> ExitCode {
    match list(&rt) {
        Ok(()) => ExitCode::SUCCESS,
        Err(failure) => {
            let _ = eprintln!(rt; "{failure}");
            ExitCode::FAILURE
        }
    }
}
