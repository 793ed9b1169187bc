//! The outside of the compiler: files by name, one open at a time, and the printed text.

ghost use Rattle.std.specs.Prelude.{◌≡◌, ◌<◌, ◌≤◌, ℕ, List, Option, Some, None, IsTrue, IsSome, IfOk, IfSome, OnOk, OnErr, length, take, option_map, ◌++◌, [], ◌∷◌};
ghost use Rattle.host_io.specs.declared.host.HostError.TheVariants.{NoMemory};
ghost use Rattle.host_io.specs.Host.{Kind, Contents, OpenFile, Closed, Reading, Writing, told, is_reading, is_writing, is_open, put, Has, left_of, read_on, append, ReadsFront, PrintsPrefix, HasCause, NoFailure, FailsAtMissing};

use std::alloc::{AllocError, AllocFailed};

/// Why a call of a host has no answer.
#[derive(Clone, Copy, PartialEq, Eq, Debug)]
pub enum HostError {
    /// The outside failed, or the name has no content.
    Failed,
    /// There was no memory for the call.
    NoMemory,
}

impl From<AllocError> for HostError {
    ghost from_gives = { λ _ e. e ≡ NoMemory };

    fn from(_: AllocError) -> Self {
        HostError::NoMemory
    }
}

impl<T: Drop> From<AllocFailed<T>> for HostError {
    ghost from_gives = { λ _ e. e ≡ NoMemory };

    fn from(_: AllocFailed<T>) -> Self {
        HostError::NoMemory
    }
}

/// Files by name, of which one at most is open, and a place to print to.
///
/// A host counts its faults. Each call answers `Failed` only where it raised the count, or where
/// the count stood at the host's last count. What a host doesn't tell (contents, printed bytes),
/// nothing is said of.
pub trait Host {
    /// What no call changes: whether the host is sound, and its last count.
    ghost kind: { Self → Kind };

    /// How many faults there were.
    ghost faults: { Self → ℕ };

    /// Which file is open.
    ghost open_file: { Self → OpenFile };

    /// The content of each name, where the host tells it.
    ghost contents: { Self → Option Contents };

    /// The bytes printed so far, where the host tells them.
    ghost printed: { Self → Option (List ℕ) };

    /// Opens a file for reading, from its start. Without a content of that name it fails.
    fn open_read(&mut self, name: &str) -> Result<(), HostError>
        requires { open_file self.old ≡ Closed }
        ensures opened { OnOk result (open_file self.new ≡ Reading (told (contents self.old) (name.now, 0))) }
        ensures refused { OnErr result (open_file self.new ≡ Closed) }
        ensures present { OnOk result (Has (contents self.old) name.now) }
        ensures same_contents { contents self.new ≡ contents self.old }
        ensures same_printed { printed self.new ≡ printed self.old }
        ensures same_kind { kind self.new ≡ kind self.old }
        ensures cause { HasCause (kind self.old) (faults self.old) (faults self.new) result }
        ensures sound { FailsAtMissing (kind self.old) (contents self.old) name.now result };

    /// Puts the next bytes of the open file at the front of `buf`, and answers how many. 0 is the end of the file.
    fn read(&mut self, buf: &mut [u8]) -> Result<usize, HostError>
        requires reading { IsTrue (is_reading (open_file self.old)) }
        requires room { 0 < length buf.old }
        ensures count { IfOk result (λ n. n ≤ length buf.new) }
        ensures bytes { IfOk result (λ n. IfSome (left_of (contents self.old) (open_file self.old)) (ReadsFront n buf.new)) }
        ensures further { IfOk result (λ n. open_file self.new ≡ read_on n (open_file self.old)) }
        ensures refused { OnErr result (open_file self.new ≡ open_file self.old) }
        ensures same_contents { contents self.new ≡ contents self.old }
        ensures same_printed { printed self.new ≡ printed self.old }
        ensures same_kind { kind self.new ≡ kind self.old }
        ensures cause { HasCause (kind self.old) (faults self.old) (faults self.new) result }
        ensures sound { NoFailure (kind self.old) result };

    /// Opens a file for writing, and makes its content empty.
    fn create(&mut self, name: &str) -> Result<(), HostError>
        requires { open_file self.old ≡ Closed }
        ensures opened { OnOk result (open_file self.new ≡ Writing (told (contents self.old) name.now)) }
        ensures emptied { OnOk result (contents self.new ≡ option_map (put name.now []) (contents self.old)) }
        ensures refused { OnErr result (open_file self.new ≡ Closed) }
        ensures kept { OnErr result (contents self.new ≡ contents self.old) }
        ensures same_printed { printed self.new ≡ printed self.old }
        ensures same_kind { kind self.new ≡ kind self.old }
        ensures cause { HasCause (kind self.old) (faults self.old) (faults self.new) result }
        ensures sound { NoFailure (kind self.old) result };

    /// Appends some bytes, at least one, to the open file, and answers how many.
    fn write(&mut self, bytes: &[u8]) -> Result<usize, HostError>
        requires writing { IsTrue (is_writing (open_file self.old)) }
        requires some { 0 < length bytes.now }
        ensures least { IfOk result (λ n. 0 < n) }
        ensures most { IfOk result (λ n. n ≤ length bytes.now) }
        ensures appended { IfOk result (λ n. contents self.new ≡ option_map (append (open_file self.old) (take n bytes.now)) (contents self.old)) }
        ensures refused { OnErr result (contents self.new ≡ contents self.old) }
        ensures same_file { open_file self.new ≡ open_file self.old }
        ensures same_printed { printed self.new ≡ printed self.old }
        ensures same_kind { kind self.new ≡ kind self.old }
        ensures cause { HasCause (kind self.old) (faults self.old) (faults self.new) result }
        ensures sound { NoFailure (kind self.old) result };

    /// Closes the open file. No file is open afterwards, whatever the answer is.
    fn close(&mut self) -> Result<(), HostError>
        requires { IsTrue (is_open (open_file self.old)) }
        ensures closed { open_file self.new ≡ Closed }
        ensures same_contents { contents self.new ≡ contents self.old }
        ensures same_printed { printed self.new ≡ printed self.old }
        ensures same_kind { kind self.new ≡ kind self.old }
        ensures cause { HasCause (kind self.old) (faults self.old) (faults self.new) result }
        ensures sound { NoFailure (kind self.old) result };

    /// Prints all of the bytes. Where it fails, a prefix of them was printed.
    fn print(&mut self, bytes: &[u8]) -> Result<(), HostError>
        ensures all { OnOk result (printed self.new ≡ option_map (λ before. before ++ bytes.now) (printed self.old)) }
        ensures prefix { OnErr result (PrintsPrefix (printed self.old) (printed self.new) bytes.now) }
        ensures same_file { open_file self.new ≡ open_file self.old }
        ensures same_contents { contents self.new ≡ contents self.old }
        ensures same_kind { kind self.new ≡ kind self.old }
        ensures cause { HasCause (kind self.old) (faults self.old) (faults self.new) result }
        ensures sound { NoFailure (kind self.old) result };

    /// A sound host tells its contents.
    ghost tells: { (host : Self) → IsTrue (kind host).is_sound → IsSome (contents host) };
}
