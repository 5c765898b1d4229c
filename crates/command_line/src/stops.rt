// What ends a run before its time: a command line that cannot be read, or a call that the library refuses.
use crate::faults::Fault;
use std::fmt::Write;
use text::Stream;
use text::answers::Cause;

#[derive(Clone, Copy)]
pub enum Stop<'a> {
    Fault(Fault<'a>),
    Refused(Cause),
}

impl<'a> From<Fault<'a>> for Stop<'a> {
    fn from(fault: Fault<'a>) -> Self {
        Stop::Fault(fault)
    }
}

impl<'a> From<Cause> for Stop<'a> {
    fn from(cause: Cause) -> Self {
        Stop::Refused(cause)
    }
}

// The name of the argument, as its reader gave it. The other faults have none, or have it in their words.
fn name<'a>(fault: Fault<'a>) -> &'a [u8] {
    match fault {
        Fault::NotDecimal(name) | Fault::NotHexadecimal(name) => name,
        Fault::Ragged(name, _) | Fault::Long(name, _, _) => name,
        _ => &[],
    }
}

fn print_fault(fault: Fault) {
    io::write_all(2, b"dokkumel: ");
    io::write_all(2, name(fault));
    let _ = write!(Stream::Error, "{fault}");
}

impl<'a> Stop<'a> {
    // Its line: a fault's on standard error, a refusal's on standard output. A `Stream` answers no error.
    pub fn print(self) {
        match self {
            Stop::Fault(fault) => print_fault(fault),
            Stop::Refused(cause) => {
                let _ = write!(Stream::Output, "{cause}");
            }
        }
    }
}
