// Elements of BER.
use crate::output::{print, print_bytes, print_line, print_number};
use sd_base::Memory;
use sd_ber::{BerFault, Reader, Tlv, integer, write_tlv};
use std::alloc::Global;

fn print_fault(alloc: Global, out: &mut Vec<u8>, fault: BerFault) -> Result<(), Memory> {
    match fault {
        BerFault::BadTag(place) => print_number(alloc, out, "bad tag", place),
        BerFault::Indefinite(place) => print_number(alloc, out, "indefinite", place),
        BerFault::TooLong(place) => print_number(alloc, out, "too long", place),
        BerFault::Short => print_line(out, b"short"),
        BerFault::BadInteger(place) => print_number(alloc, out, "bad integer", place),
    }
}

/// The elements that bytes begin with, and what is wrong behind them.
pub fn print_elements(alloc: Global, out: &mut Vec<u8>, bytes: &[u8]) -> Result<(), Memory> {
    let mut reader = Reader::new(bytes);
    for _ in 0..bytes.len() {
        match reader.next() {
            Ok(Some(tlv)) => {
                let (tag, length) = (tlv.tag, tlv.body.len());
                print(out, format!(in alloc; "{tag} {length}\n")?.as_bytes())?;
            }
            Ok(None) => break,
            Err(fault) => return print_fault(alloc, out, fault),
        }
    }
    print_line(out, b"end")
}

/// The number of contents.
pub fn print_integer(alloc: Global, out: &mut Vec<u8>, body: &[u8]) -> Result<(), Memory> {
    let tlv = Tlv {
        tag: 2,
        at: 9,
        body,
    };
    match integer(&tlv) {
        Ok(number) => print(out, format!(in alloc; "{number}\n")?.as_bytes()),
        Err(fault) => print_fault(alloc, out, fault),
    }
}

/// The octets of an element in front of its contents.
pub fn print_head(alloc: Global, out: &mut Vec<u8>, body: &[u8]) -> Result<(), Memory> {
    let mut element = Vec::new(alloc);
    write_tlv(&mut element, 4, body)?;
    let count = element.len().saturating_sub(body.len());
    print_bytes(alloc, out, "head", &element[..count])
}
