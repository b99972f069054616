//! The path of a conf that a program runs on, followed to the file itself.

ghost use Rattle.std.specs.Prelude.{◌≡◌};

use std::alloc::AllocError;
use std::fs;
use std::io::{self, ErrorKind};

/// The path of a conf as the words name it, which is told, and that of the file itself, or why it can't be followed
/// there. It is followed once, and the file is locked, loaded and replaced at its own path: a symbolic link stays one.
#[derive(Drop)]
pub(crate) struct ConfPath<'a> {
    named: &'a str,
    own: io::Result<String>,
}

impl<'a> ConfPath<'a> {
    /// Follows the path that the words name.
    pub(crate) fn of(rt: HostRuntime, named: &'a str) -> Result<ConfPath<'a>, AllocError> {
        let own = match fs::canonicalize(&rt, named) {
            Ok(path) => Ok(path.into_string()),
            Err(error) if error.kind() == ErrorKind::OutOfMemory => return Err(AllocError),
            Err(error) => Err(error),
        };
        Ok(ConfPath { named, own })
    }

    /// As the words name it.
    pub(crate) fn named(&self) -> &'a str
        ensures { result ≡ self.now.named }
    {
        self.named
    }

    /// That of the file itself; the system's error where the path leads to none.
    pub(crate) fn own(&self) -> io::Result<&str> {
        match &self.own {
            Ok(path) => Ok(path.as_str()),
            Err(error) => Err(*error),
        }
    }
}

/// Follows each of these paths.
pub(crate) fn conf_paths<'a>(
    rt: HostRuntime,
    named: &[&'a str],
) -> Result<Vec<ConfPath<'a>>, AllocError> {
    let mut paths = Vec::new(rt.alloc());
    for name in named {
        paths.push(ConfPath::of(rt, *name)?)?;
    }
    Ok(paths)
}
