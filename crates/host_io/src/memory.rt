//! A host in memory, whose failures are listed before.

ghost use Rattle.std.specs.Prelude.{[], None, refl, ◌≡◌, ◌↔◌, ◌+◌, ◌++◌, ◌≤◌, ◌<◌, List, ℕ, Some, IsSome, IfSome, Ok, Err, IsTrue, OnOk, OnErr, IfOk, is_none, IsErrOf, length, min, take, drop, if◌then◌else◌, ◌==◌};
ghost use Rattle.host_io.specs.declared.host.HostError.TheVariants.{Failed};
ghost use Rattle.host_io.specs.Host.{Closed, Reading, Writing, is_reading, is_writing, is_open, bytes_of, put, left_of, read_on, append, ReadsFront, HasCause};
ghost use Rattle.host_io.specs.Memory.{contents_of, open_of, kind_of, is_call, is_opening, is_creating, fails_call, lists_open, fails_open, fails_create};

use crate::{Host, HostError};
use std::alloc::{AllocError, Global};
use std::collections::BTreeMap;

/// A failure that a `MemoryHost` is told beforehand.
#[derive(Drop)]
pub enum Fail {
    /// The call of this number fails, counted from 0 over all calls.
    Call(u64),
    /// Each opening of this name fails.
    Open(String),
    /// Each creating of this name fails.
    Create(String),
}

impl Fail {
    fn is_call(&self, number: u64) -> bool
        ensures { result ≡ is_call number self.now }
    {
        match self {
            Fail::Call(call) => *call == number,
            _ => false,
        }
    }

    fn is_opening(&self, name: &str) -> bool
        ensures { result ≡ is_opening name.now self.now }
    {
        match self {
            Fail::Open(failing) => failing.as_str() == name,
            _ => false,
        }
    }

    fn is_creating(&self, name: &str) -> bool
        ensures { result ≡ is_creating name.now self.now }
    {
        match self {
            Fail::Create(failing) => failing.as_str() == name,
            _ => false,
        }
    }
}

#[derive(Drop)]
enum Current {
    Reading { name: String, place: usize },
    Writing { name: String },
}

/// Files and printed bytes in memory. It tells everything, and is sound where `fails` is empty.
#[derive(Drop)]
pub struct MemoryHost {
    pub files: BTreeMap<String, Vec<u8>>,
    pub printed: Vec<u8>,
    pub fails: Vec<Fail>,
    current: Option<Current>,
    calls: u64,
    faults: u64,
}

fn content<'a>(files: &'a BTreeMap<String, Vec<u8>>, name: &str) -> &'a [u8]
    ensures { result.now ≡ bytes_of (contents_of files.now) name.now }
{
    match files.get(name) {
        Some(bytes) => bytes.as_slice(),
        None => &[],
    }
}

// The bytes from a place on.
fn rest(bytes: &[u8], place: usize) -> &[u8]
    ensures { result.now ≡ drop place bytes.now }
{
    if place < bytes.len() {
        &bytes[place..]
    } else {
        &[]
    }
}

// Copies as many bytes as both have to the front of the buffer.
fn copy_front(bytes: &[u8], buffer: &mut [u8]) -> usize
    ensures count { result ≡ min (length bytes.now) (length buffer.old) }
    ensures front { take result buffer.new ≡ take result bytes.now }
{
    let count = bytes.len().min(buffer.len());
    buffer[..count].copy_from_slice(&bytes[..count]);
    count
}

// Puts a content in the place of the one that the name has.
fn store(
    files: &mut BTreeMap<String, Vec<u8>>,
    name: &str,
    bytes: Vec<u8>,
) -> Result<(), AllocError>
    ensures stored { OnOk result (contents_of files.new ≡ put name.now bytes.items (contents_of files.old)) }
    ensures refused { OnErr result (contents_of files.new ≡ contents_of files.old) }
{
    let key = String::from_str(*bytes.allocator(), name)?;
    files.insert(key, bytes)?;
    Ok(())
}

// Adds bytes to the end of what the name has.
fn extend(
    files: &mut BTreeMap<String, Vec<u8>>,
    alloc: Global,
    name: &str,
    bytes: &[u8],
) -> Result<(), AllocError>
    ensures extended { OnOk result (contents_of files.new ≡ put name.now (bytes_of (contents_of files.old) name.now ++ bytes.now) (contents_of files.old)) }
    ensures refused { OnErr result (contents_of files.new ≡ contents_of files.old) }
{
    match files.get_mut(name) {
        Some(content) => content.extend_from_slice(bytes),
        None => store(files, name, bytes.to_vec(alloc)?),
    }
}

impl MemoryHost {
    /// A host with these files and these failures, without a fault, with nothing printed and nothing open.
    pub fn new(files: BTreeMap<String, Vec<u8>>, fails: Vec<Fail>) -> MemoryHost
        ensures files { contents_of result.files ≡ contents_of files }
        ensures fails { result.fails.items ≡ fails.items }
        ensures printed { result.printed.items ≡ [] }
        ensures closed { result.current ≡ None }
        ensures calls { result.calls ≡ 0 }
        ensures faults { result.faults ≡ 0 }
    {
        MemoryHost {
            files,
            printed: Vec::new(*fails.allocator()),
            fails,
            current: None,
            calls: 0,
            faults: 0,
        }
    }

    fn alloc(&self) -> Global {
        *self.printed.allocator()
    }

    // Counts the call, and a fault where it fails.
    fn begin(&mut self, fails: bool) -> Result<(), HostError>
        ensures answer { result ≡ (if fails then Err Failed else Ok tt) }
        ensures cause { HasCause (kind_of self.old.fails.items) self.old.faults self.new.faults result }
        ensures counts { self.new ≡ record self.old {
          calls = min (self.old.calls + 1) u64.MAX;
          faults = (if fails then min (self.old.faults + 1) u64.MAX else self.old.faults);
        } }
    {
        self.calls = self.calls.saturating_add(1);
        if fails {
            self.faults = self.faults.saturating_add(1);
            return Err(HostError::Failed);
        }
        Ok(())
    }

    // Counts a call that fails only where its number is listed.
    fn begin_call(&mut self) -> Result<(), HostError>
        ensures answer { result ≡ (if fails_call self.old then Err Failed else Ok tt) }
        ensures cause { HasCause (kind_of self.old.fails.items) self.old.faults self.new.faults result }
        ensures counts { self.new ≡ record self.old {
          calls = min (self.old.calls + 1) u64.MAX;
          faults = (if fails_call self.old then min (self.old.faults + 1) u64.MAX else self.old.faults);
        } }
    {
        let fails = self.is_listed();
        self.begin(fails)
    }

    // Whether the next call is a failure by its number.
    fn is_listed(&self) -> bool
        ensures { result ≡ fails_call self.now }
    {
        let number = self.calls;
        self.fails.iter().any(|fail| fail.is_call(number))
    }

    fn is_listed_open(&self, name: &str) -> bool
        ensures { result ≡ lists_open name.now self.now }
    {
        let number = self.calls;
        self.fails
            .iter()
            .any(|fail| fail.is_call(number) || fail.is_opening(name))
    }

    fn lacks(&self, name: &str) -> bool
        ensures { result ≡ is_none (contents_of self.now.files name.now) }
    {
        !self.files.contains_key(name)
    }

    fn is_listed_create(&self, name: &str) -> bool
        ensures { result ≡ fails_create name.now self.now }
    {
        let number = self.calls;
        self.fails
            .iter()
            .any(|fail| fail.is_call(number) || fail.is_creating(name))
    }
}

impl Host for MemoryHost {
    ghost kind = { λ host. kind_of host.fails.items };

    ghost faults = { λ host. host.faults };

    ghost open_file = { λ host. open_of host.current };

    ghost contents = { λ host. Some (contents_of host.files) };

    ghost printed = { λ host. Some host.printed.items };

    ghost tells = { λ host sound. refl };

    fn open_read(&mut self, name: &str) -> Result<(), HostError>
        requires { open_of self.old.current ≡ Closed }
        ensures opened { OnOk result (open_of self.new.current ≡ Reading (Some (name.now, 0))) }
        ensures refused { OnErr result (open_of self.new.current ≡ Closed) }
        ensures present { OnOk result (IsSome (contents_of self.old.files name.now)) }
        ensures same_contents { contents_of self.new.files ≡ contents_of self.old.files }
        ensures same_printed { self.new.printed.items ≡ self.old.printed.items }
        ensures same_kind { kind_of self.new.fails.items ≡ kind_of self.old.fails.items }
        ensures cause { HasCause (kind_of self.old.fails.items) self.old.faults self.new.faults result }
        ensures exactly { IsErrOf result Failed ↔ IsTrue (fails_open name.now self.old) }
    {
        let fails = self.is_listed_open(name) || self.lacks(name);
        self.begin(fails)?;
        let name = String::from_str(self.alloc(), name)?;
        self.current = Some(Current::Reading { name, place: 0 });
        Ok(())
    }

    fn read(&mut self, buf: &mut [u8]) -> Result<usize, HostError>
        requires reading { IsTrue (is_reading (open_of self.old.current)) }
        requires room { 0 < length buf.old }
        ensures count { IfOk result (λ n. n ≤ length buf.new) }
        ensures bytes { IfOk result (λ n. IfSome (left_of (Some (contents_of self.old.files)) (open_of self.old.current)) (ReadsFront n buf.new)) }
        ensures further { IfOk result (λ n. open_of self.new.current ≡ read_on n (open_of self.old.current)) }
        ensures refused { OnErr result (open_of self.new.current ≡ open_of self.old.current) }
        ensures same_contents { contents_of self.new.files ≡ contents_of self.old.files }
        ensures same_printed { self.new.printed.items ≡ self.old.printed.items }
        ensures same_kind { kind_of self.new.fails.items ≡ kind_of self.old.fails.items }
        ensures cause { HasCause (kind_of self.old.fails.items) self.old.faults self.new.faults result }
        ensures exactly { IsErrOf result Failed ↔ IsTrue (fails_call self.old) }
    {
        self.begin_call()?;
        let Some(current) = &mut self.current else {
            unreachable!()
        };
        let Current::Reading { name, place } = current else {
            unreachable!()
        };
        let left = rest(content(&self.files, name.as_str()), *place);
        let count = copy_front(left, buf);
        *place += count;
        Ok(count)
    }

    fn create(&mut self, name: &str) -> Result<(), HostError>
        requires { open_of self.old.current ≡ Closed }
        ensures opened { OnOk result (open_of self.new.current ≡ Writing (Some name.now)) }
        ensures emptied { OnOk result (contents_of self.new.files ≡ put name.now [] (contents_of self.old.files)) }
        ensures refused { OnErr result (open_of self.new.current ≡ Closed) }
        ensures kept { OnErr result (contents_of self.new.files ≡ contents_of self.old.files) }
        ensures same_printed { self.new.printed.items ≡ self.old.printed.items }
        ensures same_kind { kind_of self.new.fails.items ≡ kind_of self.old.fails.items }
        ensures cause { HasCause (kind_of self.old.fails.items) self.old.faults self.new.faults result }
        ensures exactly { IsErrOf result Failed ↔ IsTrue (fails_create name.now self.old) }
    {
        let fails = self.is_listed_create(name);
        self.begin(fails)?;
        let alloc = self.alloc();
        let opened = String::from_str(alloc, name)?;
        store(&mut self.files, name, Vec::new(alloc))?;
        self.current = Some(Current::Writing { name: opened });
        Ok(())
    }

    fn write(&mut self, bytes: &[u8]) -> Result<usize, HostError>
        requires writing { IsTrue (is_writing (open_of self.old.current)) }
        requires some { 0 < length bytes.now }
        ensures all { IfOk result (λ n. n ≡ length bytes.now) }
        ensures appended { OnOk result (contents_of self.new.files ≡ append (open_of self.old.current) bytes.now (contents_of self.old.files)) }
        ensures refused { OnErr result (contents_of self.new.files ≡ contents_of self.old.files) }
        ensures same_file { open_of self.new.current ≡ open_of self.old.current }
        ensures same_printed { self.new.printed.items ≡ self.old.printed.items }
        ensures same_kind { kind_of self.new.fails.items ≡ kind_of self.old.fails.items }
        ensures cause { HasCause (kind_of self.old.fails.items) self.old.faults self.new.faults result }
        ensures exactly { IsErrOf result Failed ↔ IsTrue (fails_call self.old) }
    {
        self.begin_call()?;
        let alloc = self.alloc();
        let Some(current) = &self.current else {
            unreachable!()
        };
        let Current::Writing { name } = current else {
            unreachable!()
        };
        extend(&mut self.files, alloc, name.as_str(), bytes)?;
        Ok(bytes.len())
    }

    fn close(&mut self) -> Result<(), HostError>
        requires { IsTrue (is_open (open_of self.old.current)) }
        ensures closed { open_of self.new.current ≡ Closed }
        ensures same_contents { contents_of self.new.files ≡ contents_of self.old.files }
        ensures same_printed { self.new.printed.items ≡ self.old.printed.items }
        ensures same_kind { kind_of self.new.fails.items ≡ kind_of self.old.fails.items }
        ensures cause { HasCause (kind_of self.old.fails.items) self.old.faults self.new.faults result }
        ensures exactly { IsErrOf result Failed ↔ IsTrue (fails_call self.old) }
    {
        self.current = None;
        self.begin_call()
    }

    fn print(&mut self, bytes: &[u8]) -> Result<(), HostError>
        ensures all { OnOk result (self.new.printed.items ≡ self.old.printed.items ++ bytes.now) }
        ensures none { OnErr result (self.new.printed.items ≡ self.old.printed.items) }
        ensures same_file { open_of self.new.current ≡ open_of self.old.current }
        ensures same_contents { contents_of self.new.files ≡ contents_of self.old.files }
        ensures same_kind { kind_of self.new.fails.items ≡ kind_of self.old.fails.items }
        ensures cause { HasCause (kind_of self.old.fails.items) self.old.faults self.new.faults result }
        ensures exactly { IsErrOf result Failed ↔ IsTrue (fails_call self.old) }
    {
        self.begin_call()?;
        self.printed.extend_from_slice(bytes)?;
        Ok(())
    }
}
