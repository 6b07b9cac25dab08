// The lines of headers.
use crate::bad::BAD_HEADS;
use crate::good::HEADS;
use gfx_listing::{LineFault, put_head, read_head};
use std::alloc::Global;
use std::test::Fail;

/// The bytes of the header of this line, and its line again.
fn head_again(alloc: Global, line: &str) -> Result<(Vec<u8>, Vec<u8>), LineFault> {
    let mut bytes = Vec::new(alloc);
    read_head(line.as_bytes(), &mut bytes)?;
    let mut again = Vec::new(alloc);
    put_head(&bytes, &mut again)?;
    Ok((bytes, again))
}

#[test]
fn each_header_is_read_and_written(rt: HostRuntime) -> Result<(), Fail> {
    let alloc = rt.alloc();
    for &(line, said) in &HEADS {
        let (bytes, again) = head_again(alloc, line)?;
        let wanted = hex::decode(alloc, said)?;
        assert_eq!(rt; bytes.as_slice(), wanted.as_slice(), "{line}");
        assert_eq!(rt; again.as_slice(), line.as_bytes());
    }
    Ok(())
}

#[test]
fn a_header_with_a_fault_is_bad(rt: HostRuntime) -> Result<(), Fail> {
    let alloc = rt.alloc();
    for &(fault, line) in &BAD_HEADS {
        let mut bytes = Vec::new(alloc);
        let answer = read_head(line.as_bytes(), &mut bytes);
        assert!(rt; matches!(answer, Err(LineFault::BadLine)), "{fault}");
        assert!(rt; bytes.is_empty(), "{fault}");
    }
    Ok(())
}
