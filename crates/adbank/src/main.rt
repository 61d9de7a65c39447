//! `adbank`: compiles console sample banks.
#![tactic(auto)]

use bank_tool::run;
use host_files::RealHost;
use std::alloc::Global;
use std::env;
use std::io::ErrorKind;
use std::process::ExitCode;
use std::rt::Env;

/// The words after the program's name, or the code to end with where they can't be had.
///
/// A word that is no UTF-8 makes them no command, just as no words are none.
fn words_of(rt: &(impl Env + AllocGlobal)) -> Result<Vec<String>, u8> {
    let args = match env::args(rt) {
        Ok(args) => args,
        Err(fault) => {
            return match fault.kind() {
                ErrorKind::InvalidData => Ok(Vec::new(rt.alloc())),
                ErrorKind::OutOfMemory => Err(9),
                _ => Err(1),
            };
        }
    };
    match args.skip(1).collect(rt.alloc()) {
        Ok(words) => Ok(words),
        Err(_) => Err(9),
    }
}

fn main(rt: HostRuntime) -> ExitCode {
    match words_of(&rt) {
        Err(code) => ExitCode::from(code),
        Ok(words) => {
            let mut host = RealHost::new(&rt);
            ExitCode::from(run(rt.alloc(), &mut host, words.as_slice()).code())
        }
    }
}
