//! The lines of faults that no case of the built program shows.
use cello_io::MemorySink;
use cello_top::{Fault, write_fault};
use std::alloc::Global;

/// Whether this is the line of a fault.
fn is_line(alloc: Global, fault: Fault, line: &[u8]) -> bool {
    match MemorySink::new(alloc, 200, Vec::new(alloc)) {
        Ok(mut sink) => write_fault(&fault, &mut sink).is_ok() && sink.bytes() == line,
        Err(_) => false,
    }
}

#[test]
fn faults_of_devices_and_memory_have_their_lines(rt: HostRuntime) {
    let alloc = rt.alloc();
    assert!(rt; is_line(alloc, Fault::ReadFault, b"cello: read fault\n"));
    assert!(rt; is_line(alloc, Fault::WriteFault, b"cello: write fault\n"));
    assert!(rt; is_line(alloc, Fault::Memory, b"cello: out of memory\n"));
}
