//! What the calls answer, at each of their outcomes.

ghost use Rattle.std.specs.Prelude.{◌≡◌, ◌<◌, ◌^◌, IfOk};
ghost use Rattle.host_io.specs.Host.{Closed};
ghost use Rattle.host_io.specs.Memory.{open_of};

use host_io::{Fail, Host, HostError, MemoryHost, RealHost, read_whole, write_whole};
use std::alloc::{AllocError, Global};
use std::collections::BTreeMap;
use std::test::Fail as Failure;

fn empty_host(alloc: Global) -> MemoryHost
    ensures { open_of result.current ≡ Closed }
{
    MemoryHost::new(BTreeMap::new(alloc), Vec::new(alloc))
}

fn name(alloc: Global, text: &str) -> Result<String, AllocError> {
    String::from_str(alloc, text)
}

// A host that has the content `abc` under the name `in`.
fn host_failing(alloc: Global, fail: Fail) -> Result<MemoryHost, AllocError>
    ensures { IfOk result (λ host. open_of host.current ≡ Closed) }
{
    let mut files = BTreeMap::new(alloc);
    files.insert(name(alloc, "in")?, "abc".as_bytes().to_vec(alloc)?)?;
    let mut fails = Vec::new(alloc);
    fails.push(fail)?;
    Ok(MemoryHost::new(files, fails))
}

// Whether a host reads this of a file, of which it takes at most a byte more than so many.
fn reads(alloc: Global, host: &mut MemoryHost, name: &str, limit: usize, wanted: &[u8]) -> bool
    requires closed { open_of host.old.current ≡ Closed }
    requires limit { limit < 2 ^ 32 }
    ensures { open_of host.new.current ≡ Closed }
{
    match read_whole(alloc, host, name, limit) {
        Ok(bytes) => bytes.as_slice() == wanted,
        Err(_) => false,
    }
}

// What is read of a file that was written, in three parts, and then nothing.
fn reads_in_parts(host: &mut MemoryHost) -> Result<bool, HostError>
    requires { open_of host.old.current ≡ Closed }
{
    host.open_read("out")?;
    let mut front = [0u8; 2];
    let first = host.read(&mut front)?;
    let mut rest = [0u8; 2];
    let second = host.read(&mut rest)?;
    let end = host.read(&mut [0u8; 2])?;
    host.close()?;
    Ok((first, second, end) == (2, 1, 0) && front == [b'a', b'b'] && rest[0] == b'c')
}

#[test]
fn a_file_is_written_and_read_back(rt: HostRuntime) -> Result<(), Failure> {
    let mut host = empty_host(rt.alloc());
    host.create("out")?;
    let written = host.write("abc".as_bytes())?;
    host.close()?;
    let is_read = reads_in_parts(&mut host)?;
    assert!(rt; written == 3 && is_read);
    host.print("one".as_bytes())?;
    host.print("two".as_bytes())?;
    assert!(rt; host.printed.as_slice() == "onetwo".as_bytes());
    Ok(())
}

// The answers of hosts to calls of which some fail: where a name is missing, or a failure of this kind is listed.

fn lacks_a_name(alloc: Global) -> bool {
    let mut host = empty_host(alloc);
    host.open_read("in") == Err(HostError::Failed)
}

fn fails_to_open(alloc: Global) -> Result<bool, AllocError> {
    let mut host = host_failing(alloc, Fail::Open(name(alloc, "in")?))?;
    if let Err(HostError::Failed) = host.open_read("in") {
        return Ok(host.create("in") == Ok(()));
    }
    Ok(false)
}

fn fails_to_create(alloc: Global) -> Result<bool, AllocError> {
    let mut host = host_failing(alloc, Fail::Create(name(alloc, "in")?))?;
    if let Err(HostError::Failed) = host.create("in") {
        return Ok(host.open_read("in") == Ok(()));
    }
    Ok(false)
}

fn fails_to_print_once(alloc: Global) -> Result<bool, AllocError> {
    let mut host = host_failing(alloc, Fail::Call(1))?;
    let first = host.print("a".as_bytes());
    let second = host.print("b".as_bytes());
    let third = host.print("c".as_bytes());
    let are_right = first == Ok(()) && second == Err(HostError::Failed) && third == Ok(());
    Ok(are_right && host.printed.as_slice() == "ac".as_bytes())
}

#[test]
fn missing_names_and_listed_failures_fail(rt: HostRuntime) -> Result<(), Failure> {
    let alloc = rt.alloc();
    assert!(rt; lacks_a_name(alloc), "a missing name");
    assert!(rt; fails_to_open(alloc)?, "opening");
    assert!(rt; fails_to_create(alloc)?, "creating");
    assert!(rt; fails_to_print_once(alloc)?, "printing");
    Ok(())
}

#[test]
fn whole_files_are_cut_behind_the_limit(rt: HostRuntime) -> Result<(), Failure> {
    let alloc = rt.alloc();
    let long = vec![in alloc; 7u8; 10_000]?;
    let cut = vec![in alloc; 7u8; 8_192]?;
    let mut host = empty_host(alloc);
    write_whole(&mut host, "long", &long)?;
    write_whole(&mut host, "abc", "abc".as_bytes())?;
    write_whole(&mut host, "none", &[])?;
    let are_long = [
        reads(alloc, &mut host, "long", 20_000, &long),
        reads(alloc, &mut host, "long", 8_191, &cut),
    ];
    let are_short = [
        reads(alloc, &mut host, "abc", 3, "abc".as_bytes()),
        reads(alloc, &mut host, "abc", 2, "abc".as_bytes()),
        reads(alloc, &mut host, "abc", 1, "ab".as_bytes()),
        reads(alloc, &mut host, "none", 9, &[]),
    ];
    write_whole(&mut host, "abc", "z".as_bytes())?;
    let is_other = reads(alloc, &mut host, "abc", 9, "z".as_bytes());
    assert!(rt; are_long == [true; 2] && are_short == [true; 4] && is_other);
    Ok(())
}

// Whether reading a host's file fails where this call does.
fn read_fails(alloc: Global, call: u64) -> bool {
    match host_failing(alloc, Fail::Call(call)) {
        Ok(mut host) => read_whole(alloc, &mut host, "in", 9).err() == Some(HostError::Failed),
        Err(_) => false,
    }
}

// Whether writing a file does.
fn write_fails(alloc: Global, call: u64) -> bool {
    match host_failing(alloc, Fail::Call(call)) {
        Ok(mut host) => { write_whole(&mut host, "in", "xy".as_bytes()) == Err(HostError::Failed) }
        Err(_) => false,
    }
}

#[test]
fn each_call_that_fails_fails_the_whole(rt: HostRuntime) -> Result<(), Failure> {
    let alloc = rt.alloc();
    let reading = [
        read_fails(alloc, 0),
        read_fails(alloc, 1),
        read_fails(alloc, 2),
        read_fails(alloc, 3),
    ];
    let writing = [
        write_fails(alloc, 0),
        write_fails(alloc, 1),
        write_fails(alloc, 2),
    ];
    assert!(rt; reading == [true; 4] && writing == [true; 3]);
    let mut host = host_failing(alloc, Fail::Call(4))?;
    assert!(rt; reads(alloc, &mut host, "in", 9, "abc".as_bytes()));
    Ok(())
}

#[test]
fn the_real_host_lacks_a_missing_name(rt: HostRuntime) -> Result<(), Failure> {
    let mut host = RealHost::new(rt.clone()?);
    let opened = host.open_read("no such folder/no such file");
    let printed = host.print("printed\n".as_bytes());
    assert!(rt; opened == Err(HostError::Failed) && printed == Ok(()));
    Ok(())
}
