//! Sources and sinks in memory, with which other tests are made, and a counter of steps.

ghost use Rattle.std.specs.Prelude.{◌≡◌, ◌<◌};

use hg_base::{Sink, Source, Steps};
use hg_memory::{MemorySink, MemorySource, SteadySink, SteadySource};
use std::alloc::{AllocError, Global};
use std::marker::Brand;
use std::sync::ledger::{Blank, Ledger};
use std::test::Fail;

// Four reads of five bytes, by a source that may fail and by one that never does; and two writes to a sink of each kind: one without
// room, and one of five bytes where there is room for three. What comes past the room is taken and counted by a sink that never fails.
const TOLD: &str = "\
[97, 98][99, 100][101][]
[97, 98][99, 100][101][]
Err(Failed)Ok(3)[97, 98, 99]
Ok(2)Ok(4)[97, 98, 99] 3
";

// Adds what four reads give. Where memory runs out, a text is cut short, and isn't the one that is wanted.
fn tell_reads<S: Source>(told: &mut String, source: &mut S) {
    for _ in 0..4 {
        let mut buffer = [0u8; 8];
        if let Ok(count) = source.read(&mut buffer) {
            let _ = write!(told, "{:?}", &buffer[..count]);
        }
    }
    let _ = told.push('\n');
}

fn tell_sources(alloc: Global, told: &mut String) -> Result<(), AllocError> {
    let bytes = Vec::from_slice(alloc, b"abcde")?;
    tell_reads(told, &mut MemorySource::new(bytes, 2, Vec::new(alloc)));
    let bytes = Vec::from_slice(alloc, b"abcde")?;
    tell_reads(told, &mut SteadySource::new(bytes, 2));
    Ok(())
}

fn tell_sink(alloc: Global, told: &mut String) {
    let mut sink = MemorySink::new(alloc, 4, Vec::new(alloc));
    let first = sink.write(b"ab");
    let _ = sink.reserve(3);
    let second = sink.write(b"abcde");
    let _ = write!(told, "{first:?}{second:?}{:?}\n", sink.bytes());
}

fn tell_steady_sink(alloc: Global, told: &mut String) {
    let mut sink = SteadySink::new(alloc, 4);
    let first = sink.write(b"ab");
    let _ = sink.reserve(3);
    let second = sink.write(b"abcde");
    let _ = write!(
        told,
        "{first:?}{second:?}{:?} {}\n",
        sink.bytes(),
        sink.past()
    );
}

fn streams_told(alloc: Global) -> Result<String, AllocError> {
    let mut told = String::new(alloc);
    tell_sources(alloc, &mut told)?;
    tell_sink(alloc, &mut told);
    tell_steady_sink(alloc, &mut told);
    Ok(told)
}

fn count_twice<L: Ledger>(blank: Blank)
    requires name { blank.name ≡ L.name }
    requires parts { blank.parts ≡ L.parts }
    requires some { 0 < blank.parts }
{
    let mut steps: Steps<L> = Steps::new(blank);
    steps.tick();
    steps.tick();
}

#[test]
fn streams_in_memory(rt: HostRuntime) -> Result<(), Fail> {
    assert_eq!(rt; streams_told(rt.alloc())?.as_str(), TOLD);
    Ok(())
}

#[test]
fn a_counter_takes_no_bytes(rt: HostRuntime) {
    count_twice::<Brand>(Blank::new(1));
    assert_eq!(rt; std::mem::size_of::<Steps<Brand>>(), 0);
}
