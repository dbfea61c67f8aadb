// Why no more of a script is answered: a stream fails, or the script is at fault. The line that is told on standard error.
use std::fmt;
use std::process::ExitCode;

#[derive(Clone, Copy, Debug)]
pub enum Stop {
    Input,
    Output,
    // The script ends inside its header.
    NoHeader,
    Header(HeaderFault),
    // Records are counted from 0.
    Record(usize, RecordFault),
}

#[derive(Clone, Copy, Debug)]
pub enum HeaderFault {
    Name,
    Version,
    Mode,
}

// Where the script ends, or the first field that no call has so.
#[derive(Clone, Copy, Debug)]
pub enum RecordFault {
    NoHead,
    Call,
    Object,
    Absent,
    Length,
    Buffer,
    NoPayload,
}

impl fmt::Display for Stop {
    fn fmt<W: fmt::Write>(&self, f: &mut fmt::Formatter<W>) -> fmt::Result {
        match self {
            Stop::Input => f.write_str("standard input cannot be read"),
            Stop::Output => f.write_str("standard output cannot be written"),
            Stop::NoHeader => f.write_str("the script ends inside its header"),
            Stop::Header(fault) => write!(f, "header: {fault}"),
            Stop::Record(at, fault) => write!(f, "record {at}: {fault}"),
        }
    }
}

impl fmt::Display for HeaderFault {
    fn fmt<W: fmt::Write>(&self, f: &mut fmt::Formatter<W>) -> fmt::Result {
        f.write_str(match self {
            HeaderFault::Name => "the script does not begin with GGSC",
            HeaderFault::Version => "version is not 1",
            HeaderFault::Mode => "mode is neither 0 nor 1, or what follows it is not 0",
        })
    }
}

impl fmt::Display for RecordFault {
    fn fmt<W: fmt::Write>(&self, f: &mut fmt::Formatter<W>) -> fmt::Result {
        f.write_str(match self {
            RecordFault::NoHead => "the script ends inside its 64 bytes",
            RecordFault::Call => "call is above 17",
            RecordFault::Object => "object is above 2",
            RecordFault::Absent => "call is none of the object's",
            RecordFault::Length => "length of the payload part is above 16384",
            RecordFault::Buffer => "buffer is above 65536",
            RecordFault::NoPayload => "the script ends inside its payload part",
        })
    }
}

impl Stop {
    // Only a stream that fails is a failure of the program.
    pub(crate) fn status(self) -> ExitCode {
        match self {
            Stop::Input | Stop::Output => ExitCode::FAILURE,
            _ => ExitCode::SUCCESS,
        }
    }
}
