use gts_alphabet::{NoMemory, decimal_value, digits_of};
use std::alloc::AllocError;
use std::test::Fail;

#[test]
fn a_number_is_read_and_written(rt: HostRuntime) {
    assert!(rt; decimal_value(b"00499998") == Some(499_998));
    assert!(rt; decimal_value(b"12a") == None);
    assert!(rt; digits_of::<8>(39) == *b"00000039");
}

#[test]
fn a_failed_allocation_is_no_memory(rt: HostRuntime) -> Result<(), Fail> {
    let text = NoMemory::from(AllocError).to_string(rt.alloc())?;
    assert!(rt; text.as_str() == "no memory");
    Ok(())
}
