//! The program `qcow_header`: the header of the qcow2 file that comes on standard input, a field a line.
#![tactic(auto)]

use qcow_format::Header;
use sd_names::{Format, LayerFault};
use std::io;
use std::io::Read;

/// How many bytes of a file are looked at, which are enough for every header (`Header::read`).
const HEAD: u64 = 65536;

fn main(rt: HostRuntime) -> io::Result<()> {
    let mut head = Vec::new(rt.alloc());
    rt.stdin().take(HEAD).read_to_end(&mut head)?;
    match Header::read(&head) {
        Ok(header) => {
            print_tables(&rt, &header)?;
            print_backing(&rt, &header)
        }
        Err(fault) => print_fault(&rt, fault),
    }
}

// The version, the sizes, and where the tables stand.
fn print_tables(rt: &HostRuntime, header: &Header) -> io::Result<()> {
    println!(rt; "version {}", header.version)?;
    println!(rt; "cluster_bits {}", header.cluster_bits)?;
    println!(rt; "size {}", header.size)?;
    println!(rt; "header_length {}", header.header_length)?;
    println!(rt; "l1_size {}", header.l1_size)?;
    println!(rt; "l1_table_offset {}", header.l1_table_offset)?;
    println!(rt; "refcount_table_offset {}", header.refcount_table_offset)?;
    println!(rt;
        "refcount_table_clusters {}",
        header.refcount_table_clusters
    )
}

// Where the backing file's name stands, its length, and the backing format as a volume's text names it.
fn print_backing(rt: &HostRuntime, header: &Header) -> io::Result<()> {
    let (name_at, name_size) = header.name;
    println!(rt; "backing_name {name_at} {name_size}")?;
    let format = match header.format {
        None => "none",
        Some(Format::Raw) => "RAW",
        Some(Format::Cow) => "COW",
    };
    println!(rt; "backing_format {format}")
}

// A fault, with its number where it has one.
fn print_fault(rt: &HostRuntime, fault: LayerFault) -> io::Result<()> {
    let name = fault.name();
    match fault.value() {
        None => println!(rt; "refused {name}"),
        Some(number) => println!(rt; "refused {name} {number}"),
    }
}
