//! The program: it runs the command that its words name, over the standard input and output.
#![tactic(auto)]

mod words;

use gw_top::{Status, run};
use outside::{StdSink, StdSource};
use std::process::ExitCode;

const HELP: &str = "schc_gw: a gateway and a device end for SCHC (RFC 8724)

  schc_gw check              reads a context, prints whether each of its editions can be published
  schc_gw pack               reads a work file, prints each of its packets as an SCHC packet
  schc_gw unpack             reads a work file, prints what each of its SCHC packets is read as
  schc_gw sim [--workers W]  reads a script, prints a line for each of its events
  schc_gw load N START [--workers W]
                             makes a script of N devices, prints the numbers of its run
  schc_gw --help             prints this text
  schc_gw --version          prints the program's name and version

W threads, 1 to 8, run the devices: 1, if not given. N is 1 to 1024, and START 0 to 2147483647.
";

const VERSION: &str = "schc_gw 0.1.0\n";

fn main(rt: HostRuntime) -> ExitCode {
    let status = match words::given(&rt) {
        Ok(words) => match shown(&rt, words.as_slice()) {
            Some(status) => status,
            None => {
                let mut input = StdSource::new(rt.stdin());
                let mut output = StdSink::new(rt.stdout());
                run(&rt, words.as_slice(), &mut input, &mut output)
            }
        },
        Err(_) => Status::Memory,
    };
    ExitCode::from(report(&rt, status))
}

/// Shows what the program is, where the one word asks for that.
fn shown(rt: &HostRuntime, words: &[String]) -> Option<Status> {
    let [word] = words else { return None };
    match word.as_str() {
        "--help" => Some(show(rt, HELP)),
        "--version" => Some(show(rt, VERSION)),
        _ => None,
    }
}

fn show(rt: &HostRuntime, text: &str) -> Status {
    match print!(rt; "{text}") {
        Ok(()) => Status::Ok,
        Err(_) => Status::WriteFault,
    }
}

/// Says on standard error why a run ended otherwise than well, and gives its exit status.
fn report(rt: &HostRuntime, status: Status) -> u8 {
    let (code, said) = match status {
        Status::Ok => (0, Ok(())),
        Status::Refused(_) => (1, eprintln!(rt; "schc_gw: edition refused")),
        Status::Usage(place) => (2, eprintln!(rt; "schc_gw: bad word {place}")),
        Status::BadInput(line) => (3, eprintln!(rt; "schc_gw: bad input {line}")),
        Status::ReadFault => (4, eprintln!(rt; "schc_gw: read failed")),
        Status::WriteFault => (5, eprintln!(rt; "schc_gw: write failed")),
        Status::Memory => (6, eprintln!(rt; "schc_gw: out of memory")),
        Status::Limit(_, _) => (7, eprintln!(rt; "schc_gw: limit")),
    };
    let _ = said;
    code
}
