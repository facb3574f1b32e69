// Files of data/, read into lent bytes. A file that is longer than these fills them.
ghost use Rattle.std.specs.Prelude.{◌≡◌, ◌≤◌, length, take, IfOk};

use super::input::read_all;
use std::rt::Files;
use std::{fs, io, str};

// The whole file of this name, or a failure where it cannot be read, or where the name is no text.
pub fn read_file<R: Files>(rt: &R, name: &[u8], out: &mut [u8]) -> io::Result<usize>
    ensures in_bounds { IfOk result (λ len. len ≤ length out.new) }
    ensures prefix { IfOk result (λ len. len ≡ length (take len out.new)) }
{
    let Ok(path) = str::from_utf8(name) else {
        return Err(io::Error::from(io::ErrorKind::InvalidInput));
    };
    let mut file = fs::open(rt, path)?;
    read_all(&mut file, out)
}

// The file that has the answer to the case of this name.
pub fn read_answer<R: Files>(rt: &R, name: &[u8], out: &mut [u8]) -> io::Result<usize>
    requires { length name.now ≤ 32 }
    ensures in_bounds { IfOk result (λ len. len ≤ length out.new) }
    ensures prefix { IfOk result (λ len. len ≡ length (take len out.new)) }
{
    let mut path = [0u8; 39];
    let dot = name.len();
    let end = dot + 7;
    path[..dot].copy_from_slice(name);
    path[dot..end].copy_from_slice(b".answer");
    read_file(rt, &path[..end], out)
}
