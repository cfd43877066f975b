// A call that failed.
use std::{fmt, io};

/// Why a call failed, or why a disk went no further.
#[derive(Clone, Copy)]
pub(crate) enum Cause {
    /// The system's error.
    System(io::Error),
    /// The system's error, at a file that belongs to this user.
    Owned(io::Error, u32),
    /// Another process has the lock. A disk asks for it again, for some 30 seconds.
    Held,
    /// A link stands where a file or a folder is wanted.
    Link,
    /// Something else stands there: a device, a socket.
    Other,
}

/// A call that failed: at which path, where that is known, and why.
#[derive(Drop)]
pub struct Failure {
    pub(crate) path: Option<String>,
    pub(crate) cause: Cause,
}

impl fmt::Display for Failure {
    fn fmt<W: fmt::Write>(&self, f: &mut fmt::Formatter<W>) -> fmt::Result {
        if let Some(path) = &self.path {
            f.write_str(path.as_str())?;
            f.write_str(": ")?;
        }
        match self.cause {
            Cause::System(error) => write!(f, "{error}"),
            Cause::Owned(error, user) => write!(f, "{error}, it belongs to user {user}"),
            Cause::Held => f.write_str("held by another process for 30 seconds"),
            Cause::Link => f.write_str("a symbolic link"),
            Cause::Other => f.write_str("neither a file nor a folder"),
        }
    }
}
