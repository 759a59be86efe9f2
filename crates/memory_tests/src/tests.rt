// Plain memory and the write buffer on examples.
use crate::counting::Counting;
use crate::generic::write_through;
use memory::{Memory, Plain, WriteBuffer};
use refusal::Refusal;
use std::test::Fail;

#[test]
fn seven_words_make_one_line(rt: HostRuntime) -> Result<(), Fail> {
    let mut memory = Plain::new([1u32, 2, 3, 4, 5, 6, 7].to_vec(rt.alloc())?);
    assert_eq!(rt; memory.count(), 1);
    assert_eq!(rt; memory.read_line(0)?, [1, 2, 3, 4]);
    assert_eq!(rt; memory.read_line(1), Err(Refusal::BeyondMemory));
    assert_eq!(rt; memory.write_word(0, 4, 9), Err(Refusal::BeyondMemory));
    memory.write_word(0, 3, 9)?;
    assert_eq!(rt;
        memory.into_words().as_slice(),
        [1, 2, 3, 9, 5, 6, 7].as_slice()
    );
    Ok(())
}

#[test]
fn five_writes_of_a_line_reach_memory_once(rt: HostRuntime) -> Result<(), Fail> {
    let mut buffer = WriteBuffer::new(Counting::new(Plain::new([0u32; 8].to_vec(rt.alloc())?)));
    for value in 1..6 {
        buffer.write_line(1, [value; 4])?;
    }
    assert_eq!(rt; buffer.read_line(1)?, [5; 4]);
    assert_eq!(rt; buffer.waiting().len(), 1);
    buffer.drain();
    let below = buffer.into_below();
    assert_eq!(rt; below.written(), 1);
    assert_eq!(rt; below.read_line(1)?, [5; 4]);
    Ok(())
}

#[test]
fn the_oldest_goes_down_first(rt: HostRuntime) -> Result<(), Fail> {
    let mut buffer = WriteBuffer::new(Counting::new(Plain::new([0u32; 20].to_vec(rt.alloc())?)));
    for line in [3, 1, 2, 0, 1, 4] {
        buffer.write_line(line, [7; 4])?;
    }
    let below = buffer.into_below();
    assert_eq!(rt; below.written(), 5);
    assert_eq!(rt; below.recent(), [1, 2, 0, 4]);
    Ok(())
}

#[test]
fn a_buffer_over_a_buffer(rt: HostRuntime) -> Result<(), Fail> {
    let mut upper = WriteBuffer::new(WriteBuffer::new(Plain::new([0u32; 24].to_vec(rt.alloc())?)));
    for line in 0..6 {
        upper.write_line(line, [8; 4])?;
    }
    assert_eq!(rt;
        write_through(&mut upper, 0, [1, 2, 3, 4], 2, 9)?,
        [1, 2, 9, 4]
    );
    let lower = upper.into_below();
    assert_eq!(rt; lower.waiting().len(), 0);
    assert_eq!(rt; lower.into_below().read_line(5)?, [8; 4]);
    Ok(())
}
