// The sizes that are agreed and refused, and the lines that words make.
use caches::Agreed;
use memory::{Memory, Plain};
use refusal::Refusal;
use std::test::Fail;

#[test]
fn sixty_four_sets_are_agreed(rt: HostRuntime) {
    assert!(rt; Agreed::agree(8, 64).is_ok());
    assert_eq!(rt; Agreed::agree(8, 128).err(), Some(Refusal::Sets));
    assert_eq!(rt; Agreed::agree(9, 128).err(), Some(Refusal::Seats));
    assert_eq!(rt; Agreed::agree(0, 1).err(), Some(Refusal::Seats));
    assert_eq!(rt; Agreed::agree(1, 3).err(), Some(Refusal::Sets));
}

#[test]
fn seven_words_make_one_line(rt: HostRuntime) -> Result<(), Fail> {
    let words = vec![in rt.alloc(); 0u32; 7]?;
    assert_eq!(rt; Plain::new(words).count(), 1);
    Ok(())
}
