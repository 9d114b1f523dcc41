//! The ports of a venue that cannot be opened.

ghost use Rattle.std.specs.Prelude.{◌+◌, ◌≤◌, ◌^◌};

use std::fmt::{self, Debug, Display, Formatter, Write};
use std::io::{self, Error};
use std::net::{Net, TcpListener, TcpStream};

/// The ports of a venue, or the one of them that cannot be had, and the system's number of the cause, if it gave one.
#[derive(Clone, Copy, PartialEq, Eq)]
pub struct NetworkFault {
    port: u16,
    /// How many more ports may be at fault.
    others: u16,
    code: Option<i32>,
}

impl NetworkFault {
    /// The fault of a venue whose lines were not opened at these ports. It is that of the first port which cannot be
    /// opened by itself.
    pub fn at<R: Net<Listener = TcpListener, Stream = TcpStream>>(
        rt: &R,
        first: u16,
        count: u16,
        error: &Error,
    ) -> NetworkFault
        requires { first + count ≤ 2 ^ 16 }
    {
        for k in 0..count {
            if let Err(refused) = TcpListener::bind(rt, ("127.0.0.1", first + k)) {
                return NetworkFault {
                    port: first + k,
                    others: 0,
                    code: refused.raw_os_error(),
                };
            }
        }
        NetworkFault {
            port: first,
            others: count.saturating_sub(1),
            code: error.raw_os_error(),
        }
    }
}

impl Display for NetworkFault {
    fn fmt<W: Write>(&self, f: &mut Formatter<W>) -> fmt::Result {
        write!(f, "127.0.0.1:{}", self.port)?;
        if self.others > 0 {
            write!(f, " and the next {}", self.others)?;
        }
        match self.code {
            Some(code) => write!(f, ": {}", Error::from_raw_os_error(code)),
            None => f.write_str(": the system gave no cause"),
        }
    }
}

impl Debug for NetworkFault {
    fn fmt<W: Write>(&self, f: &mut Formatter<W>) -> fmt::Result {
        Display::fmt(self, f)
    }
}
